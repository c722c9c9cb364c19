// One builder over plans.
ghost use Rattle.std.specs.Prelude.{◌≡◌, [], IfOk};
ghost use Rattle.bulk_model.specs.Fit.{FitsKept};
ghost use Rattle.bucket_queue.specs.Taking.{AreResults};

use crate::queues::push_turns;
use bucket_queue::order;
use bulk_base::{NoMemory, Sequence};
use bulk_core::{finish, run_alone};
use bulk_model::{Kept, Outcome, Partial, Plan, Results, Status};
use case_plans::{
    Marks, Scripted, Written, fails_of, fault_of, fits_kept, fits_partial, given_of, kept_of,
    plan_from, written_of,
};
use case_text::{CaseError, push_number, push_str};
use std::alloc::{AllocError, Global};

fn letter(status: &Status) -> &'static str {
    match status {
        Status::Kept(_) => "K",
        Status::Built(_) => "B",
        Status::Failed { .. } => "F",
        Status::Ignored => "I",
        Status::Skipped => "S",
    }
}

/// Puts what was noted at the end, the letter of each status, and the order of one builder for them.
fn push_results(
    alloc: Global,
    plan: &Plan,
    kept: &Kept,
    results: &Results,
    baker: &Scripted,
    out: &mut Vec<u8>,
) -> Result<(), AllocError>
    requires { AreResults plan.now kept.now results.now.statuses }
{
    out.extend_from_slice(baker.noted())?;
    push_str(out, "; ")?;
    for status in results.statuses.as_slice() {
        push_str(out, letter(status))?;
    }
    push_str(out, "; order")?;
    for n in order(alloc, plan, kept, results)?.as_slice() {
        push_str(out, " ")?;
        push_number(alloc, out, u64::from(*n))?;
    }
    Ok(())
}

fn push_alone(
    alloc: Global,
    plan: &Plan,
    kept: &Kept,
    baker: &mut Scripted,
    out: &mut Vec<u8>,
) -> Result<(), CaseError>
    requires { FitsKept plan.now kept.now }
{
    match run_alone(alloc, plan, kept, baker) {
        Ok(results) => Ok(push_results(alloc, plan, kept, &results, baker, out)?),
        Err(error) => Err(fault_of(error)),
    }
}

fn push_finish(
    alloc: Global,
    plan: &Plan,
    kept: &Kept,
    outcomes: Vec<Option<Outcome>>,
    baker: &mut Scripted,
    out: &mut Vec<u8>,
) -> Result<(), CaseError>
    requires { FitsKept plan.now kept.now }
{
    if !fits_partial(plan, kept, outcomes.as_slice()) {
        return Err(CaseError::Unfit);
    }
    let partial = Partial {
        outcomes: Sequence::from_vec(outcomes),
    };
    match finish(alloc, plan, kept, partial, baker) {
        Ok(results) => Ok(push_results(alloc, plan, kept, &results, baker, out)?),
        Err(error) => Err(fault_of(error)),
    }
}

fn push_given(
    alloc: Global,
    plan: &Plan,
    kept: &Kept,
    marks: &[Marks],
    baker: &mut Scripted,
    out: &mut Vec<u8>,
) -> Result<(), CaseError>
    requires { FitsKept plan.now kept.now }
{
    let outcomes = given_of(alloc, plan, marks)?;
    push_finish(alloc, plan, kept, outcomes, baker, out)
}

/// What is shown of a written plan.
#[derive(Clone, Copy)]
pub(crate) enum Shown {
    /// The nodes that the queue gives.
    Queue,
    /// One builder.
    Alone,
    /// One builder over what given outcomes leave.
    Finish,
}

fn push_shown(
    alloc: Global,
    plan: &Plan,
    kept: &Kept,
    marks: &[Marks],
    shown: Shown,
    out: &mut Vec<u8>,
) -> Result<(), CaseError>
    requires { FitsKept plan.now kept.now }
{
    let fails = fails_of(alloc, plan, marks)?;
    let mut baker = Scripted::new(alloc, fails)?;
    match shown {
        Shown::Queue => push_turns(alloc, plan, kept, marks, out),
        Shown::Alone => push_alone(alloc, plan, kept, &mut baker, out),
        Shown::Finish => push_given(alloc, plan, kept, marks, &mut baker, out),
    }
}

fn push_plan(
    alloc: Global,
    plan: &Plan,
    marks: &[Marks],
    shown: Shown,
    out: &mut Vec<u8>,
) -> Result<(), CaseError> {
    let kept = kept_of(alloc, plan, marks)?;
    if !fits_kept(plan, &kept) {
        return Err(CaseError::Unfit);
    }
    push_shown(alloc, plan, &kept, marks, shown, out)
}

fn push_written(
    alloc: Global,
    written: Written,
    shown: Shown,
    out: &mut Vec<u8>,
) -> Result<(), CaseError> {
    let Written { jobs, edges, marks } = written;
    let plan = plan_from(alloc, jobs, edges, marks.as_slice())?;
    push_plan(alloc, &plan, marks.as_slice(), shown, out)
}

/// The queue or one builder over a written plan.
pub(crate) fn answer_plan(
    alloc: Global,
    field: &str,
    shown: Shown,
    out: &mut Vec<u8>,
) -> Result<(), CaseError> {
    let written = written_of(alloc, field)?;
    push_written(alloc, written, shown, out)
}
