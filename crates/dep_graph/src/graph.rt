// A graph of dependencies.
ghost use Rattle.std.specs.Prelude.{◌≡◌, ◌<◌, ℕ, length, slice_index, is_some, IfOk, IfSome, IsTrue};
ghost use Rattle.std.specs.List.{All};
ghost use Rattle.dep_graph.specs.Graphs.{IsGraph};
ghost use Rattle.dep_graph.specs.Reached.{reach, IsReach};
ghost use Rattle.dep_graph.specs.Turned.{dependents, IsTurned};
ghost use Rattle.dep_graph.specs.Order.{IsLooplessPart, IsDependencyOrder, is_loopless};
ghost use Rattle.dep_graph.specs.Chains.{IsLongest};

use crate::chains::longest_chains;
use crate::found::Found;
use crate::order::loopless_part;
use crate::spread::{Follow, spread};
use crate::turned::turned;
use bulk_base::{NoMemory, Sequence};
use bulk_model::{EdgeLists, Numbers};
use std::alloc::Global;
use std::marker::Model;

/// The dependencies of each node, where the nodes are the numbers from 0. Contracts see the edge lists.
///
/// Of every graph it holds that it has fewer than 4,294,967,296 nodes, and that each edge goes to one of them.
#[derive(Debug, Drop)]
pub struct Graph {
    edges: EdgeLists,
}

impl Model for Graph {
    ghost use Rattle.std.specs.Prelude.{List};
    ghost use Rattle.bulk_model.specs.declared.plan.Edge.{Edge};
    ghost use Rattle.dep_graph.specs.Graphs.{IsGraph};

    ghost Value = { List (List Edge) };

    ghost view = { λ g. g.edges };

    ghost invariant = { λ g. IsGraph g.edges };
}

impl Graph {
    /// The graph with these edge lists, one for each node. Takes no memory of its own; NoMemory is never answered.
    pub fn new(alloc: Global, edges: EdgeLists) -> Result<Graph, NoMemory>
        requires { IsGraph edges }
        ensures { result ≡ Ok edges }
    {
        let _ = alloc;
        Ok(Graph { edges })
    }

    /// The edge lists.
    pub fn edges(&self) -> &EdgeLists
        ensures value { result.now ≡ self.now }
        ensures form { IsGraph result.now }
    {
        &self.edges
    }

    /// The nodes of `from` and all that they lead to, ascending, each once. NoMemory for want of memory alone.
    ///
    /// Each node and each edge is looked at once.
    pub fn reach(&self, alloc: Global, from: &[u32]) -> Result<Numbers, NoMemory>
        requires { All (λ n. n < length self.now) from.now }
        ensures nodes { IfOk result (λ reached. reached ≡ reach self.now from.now) }
        ensures least_closed { IfOk result (IsReach self.now from.now) }
    {
        let graph = self.edges.as_slice();
        let mut found = Found::of(alloc, graph.len(), from)?;
        spread(&mut found, graph, Follow::All)?;
        found.ascending(alloc)
    }

    /// The graph of dependents: each edge turned round, its kind kept, the edges of a node by target, then kind.
    /// NoMemory for want of memory alone.
    ///
    /// A node stands among the dependents of another as often as the other stands among its dependencies, so whoever waits
    /// for each dependency may count down by the dependents.
    ///
    /// Each node and each edge is looked at once for each of the seven kinds.
    pub fn dependents(&self, alloc: Global) -> Result<Graph, NoMemory>
        ensures value { IfOk result (λ turned. turned ≡ dependents self.now) }
        ensures counts { IfOk result (IsTurned self.now) }
    {
        Ok(Graph {
            edges: Sequence::from_vec(turned(alloc, self.edges.as_slice())?),
        })
    }

    /// The nodes that no loop holds up, each once, behind all its dependencies. NoMemory for want of memory alone.
    ///
    /// Each node and each edge is looked at a fixed number of times.
    pub fn loopless_part(&self, alloc: Global) -> Result<Numbers, NoMemory>
        ensures { IfOk result (IsLooplessPart self.now) }
    {
        let dependents = turned(alloc, self.edges.as_slice())?;
        let part = loopless_part(alloc, self.edges.as_slice(), dependents.as_slice())?;
        Ok(Sequence::from_vec(part))
    }

    /// A dependency order: all nodes, each once, behind all its dependencies. None exactly where there is a loop. NoMemory
    /// for want of memory alone.
    ///
    /// Each node and each edge is looked at a fixed number of times.
    pub fn order(&self, alloc: Global) -> Result<Option<Numbers>, NoMemory>
        ensures order { IfOk result (λ order. IfSome order (IsDependencyOrder self.now)) }
        ensures loop_free { IfOk result (λ order. is_some order ≡ is_loopless self.now) }
    {
        let part = self.loopless_part(alloc)?;
        if part.len() == self.edges.len() {
            Ok(Some(part))
        } else {
            Ok(None)
        }
    }

    /// For each node, the number of edges of the longest chain of dependents above it. NoMemory for want of memory alone.
    ///
    /// Each node and each edge is looked at a fixed number of times.
    pub fn chains(&self, alloc: Global) -> Result<Numbers, NoMemory>
        requires { IsTrue (is_loopless self.now) }
        ensures size { IfOk result (λ chains. length chains ≡ length self.now) }
        ensures longest { IfOk result (λ chains. (n : ℕ) → n < length self.now → IsLongest self.now n (slice_index chains n)) }
    {
        let order = self.loopless_part(alloc)?;
        let chains = longest_chains(alloc, self.edges.as_slice(), order.as_slice())?;
        Ok(Sequence::from_vec(chains))
    }
}
