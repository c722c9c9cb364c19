// One builder.
ghost use Rattle.std.specs.Prelude.{◌≡◌, ◌++◌, [], length, replicate, None, IsTrue, IfOk};
ghost use Rattle.outside.specs.Faults.{HasCause};
ghost use Rattle.bulk_model.specs.Fit.{FitsKept, FitsPartial, FitsResults};
ghost use Rattle.bulk_model.specs.Order.{order};
ghost use Rattle.bulk_model.specs.Results.{bakes_by, res, res_given};
ghost use Rattle.bulk_core.specs.Builder.{outcomes_in, names_at, left, AreOfResults, Stay, AreOfJobs, AreLeft, Began};

use crate::settle::settle_all;
use crate::turns::build_left;
use bulk_base::NoMemory;
use bulk_model::{Baking, Kept, Outcome, Partial, Plan, Results};
use outside::Outer;
use std::alloc::Global;

/// No outcome, so often.
fn nones(alloc: Global, count: usize) -> Result<Vec<Option<Outcome>>, NoMemory>
    ensures { IfOk result (λ outcomes. outcomes.items ≡ replicate count None) }
{
    let mut outcomes = Vec::new(alloc);
    for _ in 0..count {
        outcomes.push(None)?;
    }
    Ok(outcomes)
}

/// Builds what outcomes leave to be built, and answers what came of each node.
fn run_from<B: Baking>(
    alloc: Global,
    plan: &Plan,
    kept: &Kept,
    given: Vec<Option<Outcome>>,
    baker: &mut B,
) -> Result<Results, Outer>
    requires fit { FitsKept plan.now kept.now }
    requires given { FitsPartial plan.now kept.now given.items }
    ensures told { IsTrue B.Ways.tells
        → AreOfResults (bakes_by B.Ways.runs plan.now) plan.now kept.now given.items
        → IfOk result (λ results. results.statuses ≡ res B.Ways.runs plan.now kept.now) }
    ensures outcomes { IfOk result (λ results.
        results.statuses ≡ res_given (outcomes_in results.statuses) plan.now kept.now) }
    ensures stay { IfOk result (λ results. Stay given.items results.statuses) }
    ensures jobs { IfOk result (λ results. AreOfJobs plan.now given.items results.statuses) }
    ensures fit { IfOk result (λ results. FitsResults plan.now results.statuses) }
    ensures left { IfOk result (λ results. AreLeft plan.now kept.now given.items results.statuses
        (left given.items (order plan.now kept.now results.statuses))) }
    ensures baked { IfOk result (λ results. B.begun baker.new ≡ B.begun baker.old
        ++ names_at plan.now (left given.items (order plan.now kept.now results.statuses))) }
    ensures begun { Began plan.now kept.now given.items (B.begun baker.old) (B.begun baker.new) }
    ensures cause { HasCause (B.faults baker.old) (B.faults baker.new) result }
{
    let _ = &plan.jobs;
    let mut outcomes = given;
    build_left(alloc, plan, kept, &mut outcomes, baker)?;
    Ok(settle_all(alloc, plan, kept, outcomes)?)
}

/// Builds all nodes of a plan that can be built, one after another in the order of one builder, each with the packages that
/// are installed for it, and answers what came of each node: where the baker tells, what the builds of the plan come to;
/// else what follows from the outcomes in the answer. Told or not, each built package is one of its job. What depends on a
/// node that failed, is ignored or was skipped is skipped (poudriere-bulk(8)).
///
/// Fault only where the baker's count of faults rose in this call, and every other answer leaves that count as it was.
/// NoMemory for want of memory alone. Whatever is answered, only nodes that are neither kept nor ignored were begun, each
/// at most once.
///
/// A node costs the logarithm of their number, what is installed for it with its edges, and its build. What is installed
/// is found for one node at a time.
pub fn run_alone<B: Baking>(
    alloc: Global,
    plan: &Plan,
    kept: &Kept,
    baker: &mut B,
) -> Result<Results, Outer>
    requires fit { FitsKept plan.now kept.now }
    // what came of each node
    ensures told { IsTrue B.Ways.tells
        → IfOk result (λ results. results.statuses ≡ res B.Ways.runs plan.now kept.now) }
    ensures outcomes { IfOk result (λ results.
        results.statuses ≡ res_given (outcomes_in results.statuses) plan.now kept.now) }
    ensures jobs { IfOk result (λ results. AreOfJobs plan.now [] results.statuses) }
    ensures fit { IfOk result (λ results. FitsResults plan.now results.statuses) }
    // what was built
    ensures left { IfOk result (λ results. AreLeft plan.now kept.now [] results.statuses
        (order plan.now kept.now results.statuses)) }
    ensures baked { IfOk result (λ results. B.begun baker.new ≡ B.begun baker.old
        ++ names_at plan.now (order plan.now kept.now results.statuses)) }
    // whatever is answered
    ensures begun { Began plan.now kept.now [] (B.begun baker.old) (B.begun baker.new) }
    ensures cause { HasCause (B.faults baker.old) (B.faults baker.new) result }
{
    let given = nones(alloc, plan.jobs.len())?;
    run_from(alloc, plan, kept, given, baker)
}

/// Builds what given outcomes leave to be built, as `run_alone` does, and keeps them: a node with an outcome is not built.
/// Answers what came of each node: what follows from the outcomes in the answer, and where the baker tells and the given
/// outcomes are right, what the builds of the plan come to.
///
/// Fault only where the baker's count of faults rose in this call, and every other answer leaves that count as it was.
/// NoMemory for want of memory alone. Whatever is answered, only nodes without a given outcome that are neither kept nor
/// ignored were begun, each at most once.
///
/// It costs what `run_alone` does, without the builds of the nodes whose outcome is given.
pub fn finish<B: Baking>(
    alloc: Global,
    plan: &Plan,
    kept: &Kept,
    partial: Partial,
    baker: &mut B,
) -> Result<Results, Outer>
    requires fit { FitsKept plan.now kept.now }
    requires given { FitsPartial plan.now kept.now partial.outcomes }
    // what came of each node
    ensures told { IsTrue B.Ways.tells
        → AreOfResults (bakes_by B.Ways.runs plan.now) plan.now kept.now partial.outcomes
        → IfOk result (λ results. results.statuses ≡ res B.Ways.runs plan.now kept.now) }
    ensures outcomes { IfOk result (λ results.
        results.statuses ≡ res_given (outcomes_in results.statuses) plan.now kept.now) }
    ensures stay { IfOk result (λ results. Stay partial.outcomes results.statuses) }
    ensures jobs { IfOk result (λ results. AreOfJobs plan.now partial.outcomes results.statuses) }
    ensures fit { IfOk result (λ results. FitsResults plan.now results.statuses) }
    // what was built
    ensures left { IfOk result (λ results. AreLeft plan.now kept.now partial.outcomes
        results.statuses (left partial.outcomes (order plan.now kept.now results.statuses))) }
    ensures baked { IfOk result (λ results. B.begun baker.new ≡ B.begun baker.old
        ++ names_at plan.now (left partial.outcomes (order plan.now kept.now results.statuses))) }
    // whatever is answered
    ensures begun { Began plan.now kept.now partial.outcomes
        (B.begun baker.old) (B.begun baker.new) }
    ensures cause { HasCause (B.faults baker.old) (B.faults baker.new) result }
{
    run_from(alloc, plan, kept, partial.outcomes.into_vec(), baker)
}
