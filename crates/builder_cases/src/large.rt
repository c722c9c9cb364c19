// One builder over plans of many nodes.
ghost use Rattle.bulk_model.specs.Fit.{FitsKept};

use bulk_base::{NoMemory, Sequence};
use bulk_core::run_alone;
use bulk_model::{Kept, Plan, Results};
use case_plans::{Scripted, fault_of, fits_kept, none_kept, plan_in};
use case_text::{CaseError, push_number, push_str, push_text};
use std::alloc::Global;

fn built(results: &Results) -> usize {
    results
        .statuses
        .iter()
        .filter(|status| status.has_package())
        .count()
}

fn push_run(
    alloc: Global,
    results: &Results,
    baker: &Scripted,
    out: &mut Vec<u8>,
) -> Result<(), NoMemory> {
    push_number(alloc, out, baker.begun().len() as u64)?;
    push_str(out, " begun")?;
    if let (Some(first), Some(last)) = (baker.begun().first(), baker.begun().last()) {
        push_str(out, ", from ")?;
        push_text(out, first)?;
        push_str(out, " to ")?;
        push_text(out, last)?;
    }
    push_str(out, "; ")?;
    push_number(alloc, out, built(results) as u64)?;
    push_str(out, " with packages")
}

fn push_baked(
    alloc: Global,
    plan: &Plan,
    kept: &Kept,
    baker: &mut Scripted,
    out: &mut Vec<u8>,
) -> Result<(), CaseError>
    requires { FitsKept plan.now kept.now }
{
    match run_alone(alloc, plan, kept, baker) {
        Ok(results) => Ok(push_run(alloc, &results, baker, out)?),
        Err(error) => Err(fault_of(error)),
    }
}

fn push_many(alloc: Global, plan: &Plan, out: &mut Vec<u8>) -> Result<(), CaseError> {
    let kept = none_kept(alloc, plan)?;
    if !fits_kept(plan, &kept) {
        return Err(CaseError::Unfit);
    }
    let mut baker = Scripted::new(alloc, Sequence::new(alloc))?;
    push_baked(alloc, plan, &kept, &mut baker, out)
}

/// One builder over a chain, a fan or groups of so many nodes.
pub(crate) fn answer_many(
    alloc: Global,
    shape: &str,
    count: &str,
    out: &mut Vec<u8>,
) -> Result<(), CaseError> {
    let plan = plan_in(alloc, shape, count)?;
    push_many(alloc, &plan, out)
}

/// The plan alone, with nothing built.
pub(crate) fn answer_made(
    alloc: Global,
    shape: &str,
    count: &str,
    out: &mut Vec<u8>,
) -> Result<(), CaseError> {
    let plan = plan_in(alloc, shape, count)?;
    push_number(alloc, out, plan.jobs.len() as u64)?;
    Ok(push_str(out, " nodes")?)
}
