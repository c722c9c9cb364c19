// The loop that is reported.
ghost use Rattle.std.specs.Prelude.{◌≡◌, IfOk, IfSome};
ghost use Rattle.std.specs.Option.{is_none};
ghost use Rattle.dep_graph.specs.Order.{is_loopless};
ghost use Rattle.loop_report.specs.Loops.{exact_loop, IsLoop};

use crate::staying::{first_staying, staying, steps};
use crate::walking::repeated_part;
use bulk_base::{NoMemory, Sequence};
use bulk_model::Numbers;
use dep_graph::Graph;
use std::alloc::Global;

/// The loop of a graph, as node numbers: each node depends on the one behind it, and the last on the first, which is the
/// least; None exactly where there is no loop, so that an order of all nodes exists. NoMemory for want of memory alone.
///
/// Of several loops it is the one to which the walk leads that begins at the least node that no order can have and goes
/// always to the least dependency that no order can have. Nodes that only lead to a loop are not in it. Which loop is named
/// is this project's own rule (docs/DEFINITIONS.md).
///
/// Each node and each edge is looked at a fixed number of times.
pub fn loop_of(alloc: Global, graph: &Graph) -> Result<Option<Numbers>, NoMemory>
    ensures exact { IfOk result (λ answer. IfSome answer (λ nodes. nodes ≡ exact_loop graph.now)) }
    ensures none { IfOk result (λ answer. is_none answer ≡ is_loopless graph.now) }
    ensures round { IfOk result (λ answer. IfSome answer (IsLoop graph.now)) }
{
    let edges = graph.edges().as_slice();
    let free = graph.loopless_part(alloc)?;
    let stays = staying(alloc, edges.len(), free.as_slice())?;
    match first_staying(stays.as_slice()) {
        None => Ok(None),
        Some(first) => {
            let steps = steps(alloc, edges, stays.as_slice())?;
            let nodes = repeated_part(alloc, steps.as_slice(), first)?;
            Ok(Some(Sequence::from_vec(nodes)))
        }
    }
}
