// Packages brought to a desk.
ghost use Rattle.std.specs.Prelude.{◌≡◌};
ghost use Rattle.desk_cases.specs.Seating.{IsAbout};
ghost use Rattle.store_desk.specs.Seats.{IsOf};

use bulk_model::{Kept, Plan};
use case_plans::{is_ignored, is_kept};
use outside::{MemStore, Untold};
use std::alloc::Global;
use std::sync::Wait;
use store_desk::{Desk, DeskSeat, Keep};

/// Brings the package of a node, with its name in the file. None where the plan has no such node, or
/// keeps or ignores it.
pub(crate) fn bring<R: Wait>(
    rt: &R,
    alloc: Global,
    desk: &Desk<MemStore, Untold>,
    plan: &Plan,
    kept: &Kept,
    seat: &mut DeskSeat<Untold>,
    n: u32,
) -> Option<Keep>
    requires about { IsAbout desk.now plan.now kept.now }
    requires seat { IsOf desk.now seat.old }
    ensures seat { IsOf desk.now seat.new }
    ensures shares { seat.new.view.shares ≡ seat.old.view.shares }
{
    if n as usize >= plan.jobs.len() {
        return None;
    }
    if is_kept(kept, n as usize) || is_ignored(plan, n as usize) {
        return None;
    }
    let job = &plan.jobs.as_slice()[n as usize];
    Some(desk.keep(rt, alloc, seat, n, job.name.bytes()))
}
