// All that some nodes lead to.
ghost use Rattle.std.specs.Prelude.{◌≡◌, ◌<◌, length, OnOk};
ghost use Rattle.std.specs.List.{All};
ghost use Rattle.dep_graph.specs.Graphs.{IsWithin};
ghost use Rattle.dep_graph.specs.Found.{follows, followed, leads_to, found_with, Spreads};

use crate::found::Found;
use bulk_base::NoMemory;
use bulk_model::{DepKind, Edge, Edges};

/// Which edges are followed.
#[derive(Clone, Copy)]
pub(crate) enum Follow {
    /// All.
    All,
    /// Those of what is needed where a package is used.
    Later,
}

impl Follow {
    /// Whether edges of a kind are followed.
    fn takes(self, kind: DepKind) -> bool
        ensures { result ≡ follows self kind }
    {
        match self {
            Follow::All => true,
            Follow::Later => matches!(kind, DepKind::Lib | DepKind::Run),
        }
    }
}

/// Adds the nodes that followed edges lead to.
pub(crate) fn add_edges(found: &mut Found, edges: &[Edge], follow: Follow) -> Result<(), NoMemory>
    requires { All (λ edge. edge.to < found.old.count) edges.now }
    ensures nodes { OnOk result (found.new ≡ found_with found.old (followed follow edges.now)) }
    ensures count { found.new.count ≡ found.old.count }
{
    for edge in edges {
        if follow.takes(edge.kind) {
            found.add(edge.to)?;
        }
    }
    Ok(())
}

/// Adds all that the found nodes lead to over followed edges, one node after another. Each edge is looked at once.
pub(crate) fn spread(found: &mut Found, graph: &[Edges], follow: Follow) -> Result<(), NoMemory>
    requires count { found.old.count ≡ length graph.now }
    requires within { IsWithin (length graph.now) graph.now }
    ensures nodes { OnOk result (Spreads (leads_to follow graph.now) found.old found.new) }
    ensures count { found.new.count ≡ found.old.count }
{
    let mut at = 0;
    while let Some(node) = found.get(at) {
        add_edges(found, graph[node as usize].as_slice(), follow)?;
        at += 1;
    }
    Ok(())
}
