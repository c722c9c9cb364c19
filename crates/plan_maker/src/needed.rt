// The needed nodes.
ghost use Rattle.std.specs.Prelude.{◌≡◌, ◌++◌, IfOk, OnOk};
ghost use Rattle.std.specs.List.{filter_map};
ghost use Rattle.std.specs.Option.{option_to_list};
ghost use Rattle.dep_graph.specs.Graphs.{IsGraph};
ghost use Rattle.dep_graph.specs.Reached.{IsReach};
ghost use Rattle.plan_maker.specs.Nodes.{AreNodes};
ghost use Rattle.plan_maker.specs.Needed as needs;

use bulk_base::{NoMemory, Sequence};
use bulk_model::{Edge, EdgeLists, Edges, Numbers};
use dep_graph::Graph;
use std::alloc::Global;
use tree_index::{At, Index, NodeInfo, Target};

/// The edge of a dependency, if it leads to a node.
fn edge_of(target: &Target) -> Option<Edge>
    ensures { result ≡ needs.edge_of target.now }
{
    match &target.at {
        At::Node(to) => Some(Edge {
            kind: target.kind,
            to: *to,
        }),
        At::Nowhere(_) | At::Moved { .. } => None,
    }
}

/// Puts an edge at the end of a list, if there is one.
fn push_edge(edges: &mut Edges, edge: Option<Edge>) -> Result<(), NoMemory>
    ensures { OnOk result (edges.new ≡ edges.old ++ option_to_list edge) }
{
    if let Some(edge) = edge {
        edges.push(edge)?;
    }
    Ok(())
}

/// The edges of dependencies that lead to nodes.
fn edges_of(alloc: Global, targets: &[Target]) -> Result<Edges, NoMemory>
    ensures { IfOk result (λ edges. edges ≡ filter_map needs.edge_of targets.now) }
{
    let mut edges = Sequence::new(alloc);
    for target in targets {
        push_edge(&mut edges, edge_of(target))?;
    }
    Ok(edges)
}

/// What a node leads to.
fn needs_of(alloc: Global, node: &NodeInfo) -> Result<Edges, NoMemory>
    ensures { IfOk result (λ edges. edges ≡ needs.needs_of node.now) }
{
    if node.ignored.is_some() {
        return Ok(Sequence::new(alloc));
    }
    edges_of(alloc, node.targets.as_slice())
}

/// What each node leads to.
fn needs(alloc: Global, index: &Index) -> Result<EdgeLists, NoMemory>
    ensures lists { IfOk result (λ lists. lists ≡ needs.needs index.now) }
    ensures graph { IfOk result IsGraph }
{
    let mut lists = Sequence::new(alloc);
    for node in index.nodes.as_slice() {
        lists.push(needs_of(alloc, node)?)?;
    }
    Ok(lists)
}

/// The wanted nodes and all that they lead to, in node order. Each node and each dependency of the tree is looked at a fixed
/// number of times.
#[tactic(auto, unfolding(crate::specs::Needed::needed))]
pub(crate) fn needed(alloc: Global, index: &Index, wanted: &Numbers) -> Result<Numbers, NoMemory>
    requires { AreNodes index.now wanted.now }
    ensures nodes { IfOk result (λ nodes. nodes ≡ needs.needed index.now wanted.now) }
    ensures reach { IfOk result (IsReach (needs.needs index.now) wanted.now) }
    ensures within { IfOk result (AreNodes index.now) }
{
    Graph::new(alloc, needs(alloc, index)?)?.reach(alloc, wanted.as_slice())
}
