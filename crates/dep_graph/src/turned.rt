// The edges of a graph, turned round.
ghost use Rattle.std.specs.Prelude.{◌≡◌, ◌<◌, [], length, replicate, IfOk, OnOk};
ghost use Rattle.std.specs.List.{All};
ghost use Rattle.dep_graph.specs.Turned.{turned_of_kind, turned_from, dependents, Grew};
ghost use Rattle.dep_graph.specs.Graphs.{IsGraph};

use bulk_base::{NoMemory, Sequence};
use bulk_model::{Edge, Edges};
use std::alloc::Global;

/// How many kinds of dependency there are.
const KINDS: u8 = 7;

/// So many empty lists.
fn empty_lists(alloc: Global, count: usize) -> Result<Vec<Edges>, NoMemory>
    ensures { IfOk result (λ lists. lists.items ≡ replicate count []) }
{
    let mut lists = Vec::new(alloc);
    for _ in 0..count {
        lists.push(Sequence::new(alloc))?;
    }
    Ok(lists)
}

/// Puts the edges of one kind of a node, turned round, at the ends of the lists of the nodes that they go to.
fn turn_kind(lists: &mut Vec<Edges>, n: u32, kind: u8, edges: &[Edge]) -> Result<(), NoMemory>
    requires { All (λ edge. edge.to < length lists.old.items) edges.now }
    ensures { OnOk result (Grew lists.old.items lists.new.items (λ d. turned_of_kind n kind d edges.now)) }
{
    for edge in edges {
        if edge.kind.number() == kind {
            lists[edge.to as usize].push(Edge {
                kind: edge.kind,
                to: n,
            })?;
        }
    }
    Ok(())
}

/// Puts the edges of a node, turned round and by kind, at the ends of the lists of the nodes that they go to.
fn turn_node(lists: &mut Vec<Edges>, n: u32, edges: &[Edge]) -> Result<(), NoMemory>
    requires { All (λ edge. edge.to < length lists.old.items) edges.now }
    ensures { OnOk result (Grew lists.old.items lists.new.items (λ d. turned_from n d edges.now)) }
{
    for kind in 0..KINDS {
        turn_kind(lists, n, kind, edges)?;
    }
    Ok(())
}

/// The lists of a graph's dependents. Each edge is looked at once for each kind.
pub(crate) fn turned(alloc: Global, graph: &[Edges]) -> Result<Vec<Edges>, NoMemory>
    requires { IsGraph graph.now }
    ensures value { IfOk result (λ lists. lists.items ≡ dependents graph.now) }
    ensures form { IfOk result (λ lists. IsGraph lists.items) }
{
    let mut lists = empty_lists(alloc, graph.len())?;
    for n in 0..graph.len() {
        turn_node(&mut lists, n as u32, graph[n].as_slice())?;
    }
    Ok(lists)
}
