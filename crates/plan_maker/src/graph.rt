// The graph of a plan.
ghost use Rattle.std.specs.Prelude.{◌≡◌, ◌≢◌, ◌<◌, ◌≤◌, length, map, slice_index, IsTrue, Ok, Err, OnOk, IfOk, IfErr};
ghost use Rattle.std.specs.List.{All, AllByRecursion};
ghost use Rattle.dep_graph.specs.Graphs.{IsGraph};
ghost use Rattle.dep_graph.specs.Order.{is_loopless};
ghost use Rattle.plan_maker.specs.Edges as inner;
ghost use Rattle.plan_maker.specs.Nodes.{AreNodes};
ghost use Rattle.plan_maker.specs.PlanEdges as graphs;
ghost use Rattle.plan_maker.specs.Plans as plans;

use crate::finding::node_at;
use crate::numbering::number_nodes;
use bulk_base::{NoMemory, Sequence, Texts};
use bulk_model::{Edge, EdgeLists, Edges};
use dep_graph::Graph;
use job_files::PlanError;
use loop_report::loop_of;
use std::alloc::Global;
use tree_index::{Index, edges_of};

/// Edges with other numbers.
fn renumbered(alloc: Global, edges: &[Edge], places: &[u32]) -> Result<Edges, NoMemory>
    requires { AllByRecursion (λ edge. edge.to < length places.now) edges.now }
    ensures { IfOk result (λ found. found ≡ map (inner.edge_by places.now) edges.now) }
{
    let mut found = Sequence::new(alloc);
    for edge in edges {
        found.push(Edge {
            kind: edge.kind,
            to: places[edge.to as usize],
        })?;
    }
    Ok(found)
}

/// What a node depends on, by other numbers.
fn edges_by(alloc: Global, index: &Index, places: &[u32], n: u32) -> Result<Edges, NoMemory>
    requires node { n < length index.now.nodes }
    requires size { length places.now ≡ length index.now.nodes }
    ensures { IfOk result (λ edges. edges ≡ inner.edges_by index.now places.now n) }
{
    match edges_of(alloc, index, n)? {
        Some(edges) => renumbered(alloc, edges.as_slice(), places),
        None => Ok(Sequence::new(alloc)),
    }
}

/// The edges of a plan of some nodes, in the plan's numbers.
pub(crate) fn plan_edges(alloc: Global, index: &Index, nodes: &[u32]) -> Result<EdgeLists, NoMemory>
    requires { inner.AreNeeded index.now nodes.now }
    ensures edges { IfOk result (λ lists. lists ≡ graphs.plan_edges index.now nodes.now) }
    ensures graph { IfOk result IsGraph }
    ensures size { IfOk result (λ lists. length lists ≡ length nodes.now) }
{
    let places = number_nodes(alloc, index.nodes.len(), nodes)?;
    let mut lists = Sequence::new(alloc);
    for n in nodes {
        lists.push(edges_by(alloc, index, places.as_slice(), *n)?)?;
    }
    Ok(lists)
}

/// Copies of edge lists.
fn copies(alloc: Global, lists: &[Edges]) -> Result<EdgeLists, NoMemory>
    ensures { IfOk result (λ copied. copied ≡ lists.now) }
{
    let mut copied = Sequence::new(alloc);
    for edges in lists {
        copied.push(Sequence::from_slice(alloc, edges.as_slice())?)?;
    }
    Ok(copied)
}

/// The names of the nodes at some places of a plan.
fn names_at(alloc: Global, index: &Index, nodes: &[u32], places: &[u32]) -> Result<Texts, NoMemory>
    requires nodes { AreNodes index.now nodes.now }
    requires places { All (λ place. place < length nodes.now) places.now }
    ensures { IfOk result (λ names. names ≡ plans.names_at index.now nodes.now places.now) }
{
    let mut names = Sequence::new(alloc);
    for place in places {
        names.push(node_at(index, nodes[*place as usize]).node.copy(alloc)?)?;
    }
    Ok(names)
}

/// Refuses a plan's graph that has a loop, naming just the loop's nodes. Each node and each edge is looked at a fixed number of
/// times.
pub(crate) fn refuse_loop(
    alloc: Global,
    index: &Index,
    nodes: &[u32],
    edges: &EdgeLists,
) -> Result<(), PlanError>
    requires nodes { AreNodes index.now nodes.now }
    requires graph { IsGraph edges.now }
    requires same { edges.now ≡ graphs.plan_edges index.now nodes.now }
    requires size { length edges.now ≡ length nodes.now }
    ensures ok { OnOk result (plans.unlooped index.now nodes.now ≡ Ok nodes.now) }
    ensures loopless { OnOk result (IsTrue (is_loopless edges.now)) }
    ensures refused { IfErr result (λ e. e ≢ PlanError.NoMemory → plans.unlooped index.now nodes.now ≡ Err e) }
    ensures quiet { IfErr result (λ e. e ≢ PlanError.TreeFault) }
{
    let graph = Graph::new(alloc, copies(alloc, edges.as_slice())?)?;
    match loop_of(alloc, &graph)? {
        None => Ok(()),
        Some(places) => Err(PlanError::Loop {
            ports: names_at(alloc, index, nodes, places.as_slice())?,
        }),
    }
}
