// What a node of an index depends on.
ghost use Rattle.std.specs.Prelude.{◌≡◌, ◌<◌, ◌++◌, ◌^◌, ℕ, length, map, IfOk, OnOk, IfSome};
ghost use Rattle.std.specs.List.{list_all, AllByRecursion};
ghost use Rattle.bulk_model.specs.Facts.{IsDependList};
ghost use Rattle.tree_index.specs.Facts.{AreWithin};
ghost use Rattle.tree_index.specs.Depends as depends;

use crate::node::{At, NodeInfo, Target};
use crate::ports_index::Index;
use bulk_base::{NoMemory, Sequence};
use bulk_model::{DepKind, Depend, Depends, Edge, Edges};
use std::alloc::Global;
use std::collections::BTreeSet;

/// The kinds in the order of the dependency variables.
const KINDS: [DepKind; 7] = [
    DepKind::Pkg,
    DepKind::Fetch,
    DepKind::Extract,
    DepKind::Patch,
    DepKind::Build,
    DepKind::Lib,
    DepKind::Run,
];

fn reaches_node(target: &Target) -> bool
    ensures { result ≡ depends.reaches_node target.now.at }
{
    matches!(&target.at, At::Node(_))
}

fn all_reach_nodes(targets: &[Target]) -> bool
    ensures { result ≡ list_all (λ target. depends.reaches_node target.at) targets.now }
{
    targets.iter().all(|target| reaches_node(target))
}

/// The number of the node that a target of a kind leads to.
fn number_by(kind: DepKind, target: &Target) -> Option<u32>
    ensures { (n : ℕ) → depends.is_needed kind n target.now ≡ depends.is_number n result }
{
    match &target.at {
        At::Node(n) if target.kind.number() == kind.number() => Some(*n),
        _ => None,
    }
}

fn add_number(numbers: &mut BTreeSet<u32>, number: Option<u32>) -> Result<(), NoMemory>
    ensures { OnOk result (numbers.new.keys ≡ depends.with_number numbers.old.keys number) }
{
    if let Some(n) = number {
        numbers.insert(n)?;
    }
    Ok(())
}

/// The numbers of the nodes that are needed by targets of a kind, ascending, each once.
fn numbers_of(alloc: Global, targets: &[Target], kind: DepKind) -> Result<Vec<u32>, NoMemory>
    ensures { IfOk result (λ found. (count : ℕ) → AreWithin count targets.now
        → found.items ≡ depends.numbers_of count targets.now kind) }
{
    let mut numbers = BTreeSet::new(alloc);
    for target in targets {
        add_number(&mut numbers, number_by(kind, target))?;
    }
    numbers.into_iter().collect(alloc)
}

/// Puts what targets of a kind need at the end of a list.
fn push_edges(
    alloc: Global,
    targets: &[Target],
    kind: DepKind,
    found: &mut Edges,
) -> Result<(), NoMemory>
    ensures { OnOk result ((count : ℕ) → AreWithin count targets.now
        → found.new ≡ found.old ++ map (depends.edge_to kind) (depends.numbers_of count targets.now kind)) }
{
    let numbers = numbers_of(alloc, targets, kind)?;
    for to in numbers.as_slice() {
        found.push(Edge { kind, to: *to })?;
    }
    Ok(())
}

/// All that targets need.
fn edges_by(alloc: Global, targets: &[Target]) -> Result<Edges, NoMemory>
    ensures { IfOk result (λ edges. (count : ℕ) → AreWithin count targets.now → edges ≡ depends.edges_by count targets.now) }
{
    let mut edges = Sequence::new(alloc);
    for kind in KINDS.as_slice() {
        push_edges(alloc, targets, *kind, &mut edges)?;
    }
    Ok(edges)
}

/// What a node depends on.
fn edges_from(alloc: Global, node: &NodeInfo) -> Result<Option<Edges>, NoMemory>
    ensures { IfOk result (λ edges. (count : ℕ) → AreWithin count node.now.targets → edges ≡ depends.edges_from count node.now) }
{
    if node.ignored.is_some() {
        return Ok(Some(Sequence::new(alloc)));
    }
    if !all_reach_nodes(node.targets.as_slice()) {
        return Ok(None);
    }
    Ok(Some(edges_by(alloc, node.targets.as_slice())?))
}

/// What the node of a number depends on, by kinds and numbers of nodes: each pair once, by kind in the order of the
/// dependency variables, then by number (Porter's Handbook, "Dependencies"). Nothing where the node is ignored; None exactly
/// where it is not and a target of it leads to no node. NoMemory for want of memory alone.
///
/// Each target is looked at once for each of the seven kinds, and O(log n) comparisons more for each of n targets.
pub fn edges_of(alloc: Global, index: &Index, n: u32) -> Result<Option<Edges>, NoMemory>
    requires { n < length index.now.nodes }
    ensures edges { IfOk result (λ edges. edges ≡ depends.edges_of index.now n) }
    ensures within { IfOk result (λ edges. IfSome edges (AllByRecursion (λ edge. edge.to < length index.now.nodes))) }
{
    edges_from(alloc, &index.nodes.as_slice()[n as usize])
}

/// Dependencies on nodes, with the nodes' names and those of their packages.
fn depends_on(alloc: Global, nodes: &[NodeInfo], edges: &[Edge]) -> Result<Depends, NoMemory>
    requires { AllByRecursion (λ edge. edge.to < length nodes.now) edges.now }
    ensures { IfOk result (λ found. found ≡ map (depends.depend_on nodes.now) edges.now) }
{
    let mut found = Sequence::new(alloc);
    for edge in edges {
        let node = &nodes[edge.to as usize];
        found.push(Depend {
            kind: edge.kind,
            node: node.node.copy(alloc)?,
            name: node.desc.name.copy(alloc)?,
        })?;
    }
    Ok(found)
}

/// What the node of a number depends on, as its job and its package list it: `edges_of` with the nodes' names and those of
/// their packages, so each pair of kind and node once, by kind and then by the node's name. Nothing where the node is ignored;
/// None exactly where it is not and a target of it leads to no node. NoMemory for want of memory alone.
///
/// It costs what `edges_of` does and two copies of names for each dependency.
pub fn depends_of(alloc: Global, index: &Index, n: u32) -> Result<Option<Depends>, NoMemory>
    requires { n < length index.now.nodes }
    ensures depends { IfOk result (λ found. found ≡ depends.depends_of index.now n) }
    ensures form { IfOk result (λ found. IfSome found IsDependList) }
{
    match edges_of(alloc, index, n)? {
        Some(edges) => Ok(Some(depends_on(alloc, index.nodes.as_slice(), edges.as_slice())?)),
        None => Ok(None),
    }
}
