// What came of each node.
ghost use Rattle.std.specs.Prelude.{◌≡◌, ◌<◌, length, map, IfOk};
ghost use Rattle.bulk_model.specs.PlanView.{nodes};
ghost use Rattle.bulk_core.specs.Turns.{settled_by, settled};

use bulk_base::{NoMemory, Sequence};
use bulk_model::{Kept, Outcome, Plan, Results, Status};
use std::alloc::Global;

/// The status of a node by its outcome, if any.
fn settle(plan: &Plan, kept: &Kept, n: usize, outcome: Option<Outcome>) -> Result<Status, NoMemory>
    requires node { n < length plan.now.jobs }
    requires kept { length kept.now.packages ≡ length plan.now.jobs }
    ensures { IfOk result (λ status. status ≡ settled_by plan.now kept.now n outcome) }
{
    if let Some(package) = &kept.packages.as_slice()[n] {
        return Ok(Status::Kept(package.share()?));
    }
    if plan.ignored.as_slice()[n].is_some() {
        return Ok(Status::Ignored);
    }
    match outcome {
        Some(Outcome::Built(package)) => Ok(Status::Built(package)),
        Some(Outcome::Failed { phase, code }) => Ok(Status::Failed { phase, code }),
        None => Ok(Status::Skipped),
    }
}

/// The status of each node.
pub(crate) fn settle_all(
    alloc: Global,
    plan: &Plan,
    kept: &Kept,
    outcomes: Vec<Option<Outcome>>,
) -> Result<Results, NoMemory>
    requires kept { length kept.now.packages ≡ length plan.now.jobs }
    requires outcomes { length outcomes.items ≡ length plan.now.jobs }
    ensures { IfOk result (λ results.
        results.statuses ≡ map (settled plan.now kept.now outcomes.items) (nodes plan.now)) }
{
    let mut statuses = Sequence::new(alloc);
    let mut n = 0;
    for outcome in outcomes {
        statuses.push(settle(plan, kept, n, outcome)?)?;
        n += 1;
    }
    Ok(Results { statuses })
}
