// Plans from their parts.
ghost use Rattle.case_plans.specs.Testing.{AreParts};

use crate::baker::{plain, plain_outcome};
use crate::testing::are_parts;
use crate::written::{Marks, boosted_of, ignored_of};
use bulk_base::{NoMemory, Sequence, Text, Texts};
use bulk_model::{EdgeLists, Flags, Job, Jobs, Kept, MaybeTexts, Outcome, Plan};
use case_text::CaseError;
use std::alloc::Global;

fn made(alloc: Global, jobs: Jobs, edges: EdgeLists, ignored: MaybeTexts, boosted: Flags) -> Plan
    requires { AreParts jobs edges ignored boosted }
{
    Plan {
        jobs,
        edges,
        ignored,
        wanted: Sequence::new(alloc),
        base: Sequence::new(alloc),
        boosted,
    }
}

/// The plan of these parts. Unfit where they are none, or names do not stand in byte order.
pub fn plan_of(
    alloc: Global,
    jobs: Jobs,
    edges: EdgeLists,
    ignored: MaybeTexts,
    boosted: Flags,
) -> Result<Plan, CaseError> {
    if !are_parts(alloc, &jobs, &edges, &ignored, &boosted)? {
        return Err(CaseError::Unfit);
    }
    Ok(made(alloc, jobs, edges, ignored, boosted))
}

/// The plan of written nodes.
pub fn plan_from(
    alloc: Global,
    jobs: Jobs,
    edges: EdgeLists,
    marks: &[Marks],
) -> Result<Plan, CaseError> {
    let ignored = ignored_of(alloc, marks)?;
    let boosted = boosted_of(alloc, marks)?;
    plan_of(alloc, jobs, edges, ignored, boosted)
}

/// The packages that are kept.
pub fn kept_of(alloc: Global, plan: &Plan, marks: &[Marks]) -> Result<Kept, NoMemory> {
    let mut packages = Sequence::new(alloc);
    for n in 0..plan.jobs.len() {
        let kept = n < marks.len() && marks[n].kept;
        packages.push(if kept {
            plain(alloc, &plan.base, &plan.jobs.as_slice()[n])?
        } else {
            None
        })?;
    }
    Ok(Kept { packages })
}

/// The outcomes that are given.
pub fn given_of(
    alloc: Global,
    plan: &Plan,
    marks: &[Marks],
) -> Result<Vec<Option<Outcome>>, NoMemory> {
    let mut outcomes = Vec::new(alloc);
    for n in 0..plan.jobs.len() {
        let given = n < marks.len() && marks[n].given;
        outcomes.push(if given {
            let job = &plan.jobs.as_slice()[n];
            Some(plain_outcome(alloc, &plan.base, job, marks[n].fails)?)
        } else {
            None
        })?;
    }
    Ok(outcomes)
}

fn name_of(alloc: Global, job: &Job) -> Result<Text, NoMemory> {
    job.name.copy(alloc)
}

/// The names of the packages whose builds fail.
pub fn fails_of(alloc: Global, plan: &Plan, marks: &[Marks]) -> Result<Texts, NoMemory> {
    let mut names = Sequence::new(alloc);
    for n in 0..plan.jobs.len() {
        if n < marks.len() && marks[n].fails {
            names.push(name_of(alloc, &plan.jobs.as_slice()[n])?)?;
        }
    }
    Ok(names)
}

/// No package is kept.
pub fn none_kept(alloc: Global, plan: &Plan) -> Result<Kept, NoMemory> {
    let mut packages = Sequence::new(alloc);
    for _ in 0..plan.jobs.len() {
        packages.push(None)?;
    }
    Ok(Kept { packages })
}
