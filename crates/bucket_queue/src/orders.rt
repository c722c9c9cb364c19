// The order in which one builder takes the nodes of a plan.
ghost use Rattle.std.specs.Prelude.{◌≡◌, true, List, length, replicate, IfOk, IsTrue, if◌then◌else◌};
ghost use Rattle.bulk_model.specs.declared.results.Status.{Status as StatusView};
ghost use Rattle.bulk_model.specs.DryLists.{dry_statuses};
ghost use Rattle.bulk_model.specs.Order.{order};
ghost use Rattle.bucket_queue.specs.declared.mark.Mark.TheVariants.{Done, Bad};
ghost use Rattle.bucket_queue.specs.QueueView.{is_running, with_mark};
ghost use Rattle.bucket_queue.specs.Taking.{AreResults, TellWell};

use crate::queue::Queue;
use bulk_base::{NoMemory, Sequence};
use bulk_model::{Kept, Numbers, Plan, Results};
use std::alloc::Global;

/// Ends a node that was taken, well or not.
fn end(queue: &mut Queue, n: u32, well: bool)
    requires { IsTrue (is_running queue.old n) }
    ensures { queue.new ≡ with_mark queue.old n (if well then Done else Bad) }
{
    if well {
        queue.done(n);
    } else {
        queue.bad(n);
    }
}

/// All nodes that the queue of a plan gives, where these builds go well.
fn taken(alloc: Global, plan: &Plan, kept: &Kept, well: &[bool]) -> Result<Numbers, NoMemory>
    requires { length well.now ≡ length plan.now.jobs }
    ensures { (statuses : List StatusView) → AreResults plan.now kept.now statuses
        → TellWell plan.now statuses well.now
        → IfOk result (λ numbers. numbers ≡ order plan.now kept.now statuses) }
{
    let _ = &plan.jobs;
    let mut queue = Queue::new(alloc, plan, kept)?;
    let mut numbers = Sequence::new(alloc);
    while let Some(n) = queue.next() {
        numbers.push(n)?;
        end(&mut queue, n, well[n as usize]);
    }
    Ok(numbers)
}

/// The order in which one builder takes the nodes of a plan that were built, well or not, in these results: the queue's
/// nodes, each ended as the results say. NoMemory for want of memory alone.
///
/// Each node costs the logarithm of their number, and each edge that of the number of ready nodes.
pub fn order(
    alloc: Global,
    plan: &Plan,
    kept: &Kept,
    results: &Results,
) -> Result<Numbers, NoMemory>
    requires { AreResults plan.now kept.now results.now.statuses }
    ensures { IfOk result (λ numbers. numbers ≡ order plan.now kept.now results.now.statuses) }
{
    let mut well = Vec::new(alloc);
    for status in results.statuses.as_slice() {
        well.push(status.has_package())?;
    }
    taken(alloc, plan, kept, well.as_slice())
}

/// So many builds that go well.
fn all_well(alloc: Global, count: usize) -> Result<Vec<bool>, NoMemory>
    ensures { IfOk result (λ well. well.items ≡ replicate count true) }
{
    Ok(vec![in alloc; true; count]?)
}

/// The order in which one builder takes the nodes of a plan where every build goes well. NoMemory for want of memory
/// alone.
///
/// Each node costs the logarithm of their number, and each edge that of the number of ready nodes.
pub fn dry_order(alloc: Global, plan: &Plan, kept: &Kept) -> Result<Numbers, NoMemory>
    ensures { IfOk result (λ numbers.
        numbers ≡ order plan.now kept.now (dry_statuses plan.now kept.now)) }
{
    let well = all_well(alloc, plan.jobs.len())?;
    taken(alloc, plan, kept, well.as_slice())
}
