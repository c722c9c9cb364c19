// What is installed for a build.
ghost use Rattle.std.specs.Prelude.{◌≡◌, ◌<◌, [], length, IfOk};
ghost use Rattle.std.specs.List.{All};
ghost use Rattle.bulk_model.specs.Installs.{installs};

use crate::found::Found;
use crate::spread::{Follow, add_edges, spread};
use bulk_base::NoMemory;
use bulk_model::{Numbers, Plan};
use std::alloc::Global;
use std::marker::Model;

/// Collects what is installed for the nodes of a plan, for one node after another. Contracts see of how many nodes.
///
/// It holds a mark for each node. Between two calls, after NoMemory too, none is set.
#[derive(Drop)]
pub struct Collector {
    found: Found,
}

impl Model for Collector {
    ghost use Rattle.std.specs.Prelude.{◌≡◌, ℕ, []};

    ghost Value = { ℕ };

    ghost view = { λ collector. collector.found.count };

    ghost invariant = { λ collector. collector.found.nodes ≡ [] };
}

/// Adds what is installed for the build of a node, and answers all that was found.
fn gather(found: &mut Found, alloc: Global, plan: &Plan, n: u32) -> Result<Numbers, NoMemory>
    requires count { found.old.count ≡ length plan.now.jobs }
    requires none { found.old.nodes ≡ [] }
    requires node { n < length plan.now.jobs }
    ensures nodes { IfOk result (λ nodes. nodes ≡ installs plan.now n) }
    ensures count { found.new.count ≡ found.old.count }
{
    let graph = plan.edges.as_slice();
    add_edges(found, graph[n as usize].as_slice(), Follow::All)?;
    spread(found, graph, Follow::Later)?;
    found.sorted(alloc)
}

impl Collector {
    /// A collector for plans of as many nodes as this one. NoMemory for want of memory alone.
    ///
    /// Takes memory for a mark at each node.
    pub fn new(alloc: Global, plan: &Plan) -> Result<Collector, NoMemory>
        ensures { IfOk result (λ collector. collector ≡ length plan.now.jobs) }
    {
        Ok(Collector {
            found: Found::new(alloc, plan.jobs.len())?,
        })
    }

    /// What is installed for the build of a node of a plan: its direct dependencies and all that these need where they are
    /// used, by LIB_DEPENDS and RUN_DEPENDS (Porter's Handbook, "Dependencies"), in node order. NoMemory for want of memory
    /// alone, and the next call answers as if this one had not been made.
    ///
    /// The node, the nodes that are installed for it and their edges are looked at once, and no others; putting the nodes
    /// in order costs the logarithm of their number for each.
    pub fn collect(&mut self, alloc: Global, plan: &Plan, n: u32) -> Result<Numbers, NoMemory>
        requires plan { self.old ≡ length plan.now.jobs }
        requires node { n < length plan.now.jobs }
        ensures nodes { IfOk result (λ nodes. nodes ≡ installs plan.now n) }
        ensures below { IfOk result (λ nodes. All (λ d. d < length plan.now.jobs) nodes) }
        ensures same { self.new ≡ self.old }
    {
        let nodes = gather(&mut self.found, alloc, plan, n);
        self.found.clear();
        nodes
    }
}

/// What is installed for the build of one node of a plan, as a `Collector` collects it. NoMemory for want of memory alone.
///
/// A `Collector` is made for the call, which looks at each node of the plan. Whoever asks for many nodes makes one.
pub fn installs(alloc: Global, plan: &Plan, n: u32) -> Result<Numbers, NoMemory>
    requires { n < length plan.now.jobs }
    ensures { IfOk result (λ nodes. nodes ≡ installs plan.now n) }
{
    let mut collector = Collector::new(alloc, plan)?;
    collector.collect(alloc, plan, n)
}
