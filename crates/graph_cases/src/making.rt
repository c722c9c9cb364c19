// Graphs from the edge lists that a field writes.
ghost use Rattle.std.specs.Prelude.{◌<◌, length, IsTrue};
ghost use Rattle.std.specs.List.{All};
ghost use Rattle.dep_graph.specs.Graphs.{IsGraph};

use bulk_base::{NoMemory, Sequence};
use bulk_model::{DepKind, Edge, EdgeLists, Edges};
use case_text::CaseError;
use dep_graph::Graph;
use std::alloc::Global;

/// The kind that a letter names; BUILD where there is none.
fn kind_of(letter: char) -> DepKind {
    match letter {
        'p' => DepKind::Pkg,
        'f' => DepKind::Fetch,
        'e' => DepKind::Extract,
        'a' => DepKind::Patch,
        'l' => DepKind::Lib,
        'r' => DepKind::Run,
        _ => DepKind::Build,
    }
}

/// The kind that a field names by its letter. Unfit where it is empty.
pub(crate) fn kind_named(field: &str) -> Result<DepKind, CaseError> {
    match field.chars().next() {
        Some(letter) => Ok(kind_of(letter)),
        None => Err(CaseError::Unfit),
    }
}

/// A word's letter for a kind, if it begins with one, and what stands behind it.
fn parted(word: &str) -> (DepKind, &str) {
    if let Some(letter) = word.chars().next() {
        if letter.is_ascii_alphabetic() {
            return (kind_of(letter), word.strip_prefix(letter).unwrap_or(word));
        }
    }
    (DepKind::Build, word)
}

/// The edge of a word: a letter for the kind, perhaps, and the number of a node.
fn edge_of(word: &str) -> Result<Edge, CaseError> {
    let (kind, number) = parted(word);
    match number.parse() {
        Ok(to) => Ok(Edge { kind, to }),
        Err(_) => Err(CaseError::Unfit),
    }
}

fn edges_of(alloc: Global, part: &str) -> Result<Edges, CaseError> {
    let mut edges = Sequence::new(alloc);
    for word in part.split(' ') {
        if !word.is_empty() {
            edges.push(edge_of(word)?)?;
        }
    }
    Ok(edges)
}

/// The edge lists of a field, with `;` between: the dependencies of each node, with blanks between, each the letter of its kind and a
/// node's number.
pub(crate) fn lists_of(alloc: Global, field: &str) -> Result<EdgeLists, CaseError> {
    let mut lists = Sequence::new(alloc);
    for part in field.split(';') {
        lists.push(edges_of(alloc, part)?)?;
    }
    Ok(lists)
}

fn are_within(edges: &[Edge], count: usize) -> bool
    ensures { IsTrue result → All (λ edge. edge.to < count) edges.now }
{
    edges.iter().all(|edge| (edge.to as usize) < count)
}

fn is_graph(lists: &[Edges]) -> bool
    ensures { IsTrue result → IsGraph lists.now }
{
    lists.len() < 100_000
        && lists
            .iter()
            .all(|edges| are_within(edges.as_slice(), lists.len()))
}

/// The graph of these edge lists. Unfit where an edge goes to no node of them.
pub(crate) fn graph_of(alloc: Global, lists: EdgeLists) -> Result<Graph, CaseError> {
    if !is_graph(lists.as_slice()) {
        return Err(CaseError::Unfit);
    }
    Ok(Graph::new(alloc, lists)?)
}

/// A chain of so many nodes, each of which depends on the one before it, and the first on a node of one's choice, if it is there.
pub(crate) fn chain_of(alloc: Global, count: u32, closed_to: u32) -> Result<EdgeLists, NoMemory> {
    let mut lists = Sequence::new(alloc);
    for node in 0..count {
        let mut edges = Sequence::new(alloc);
        let to = if node == 0 { closed_to } else { node - 1 };
        if to < count {
            let kind = DepKind::Run;
            edges.push(Edge { kind, to })?;
        }
        lists.push(edges)?;
    }
    Ok(lists)
}
