// Ports of a tree, built one after another in one room.
ghost use Rattle.bulk_model.specs.Fit.{FitsKept};

use crate::kept::no_kept;
use crate::packages::push_status;
use bulk_base::{NoMemory, Sequence, Texts};
use bulk_core::run_alone;
use bulk_model::{Kept, Plan, Results};
use case_text::{
    CaseError, fails_of, files_of, push_number, push_str, push_text, push_texts, text_of,
};
use outside::{MemError, MemTree, Outer};
use phase_runner::Runner;
use run_plan::{Planned, plan_run};
use std::alloc::Global;
use tiny_shell::MemRoom;

/// The words of a field, with `;` between.
fn words_of_field(alloc: Global, field: &str) -> Result<Texts, CaseError> {
    let mut words = Sequence::new(alloc);
    for word in field.split(';') {
        words.push(text_of(alloc, word)?)?;
    }
    Ok(words)
}

fn tree_of(alloc: Global, files: &str) -> Result<MemTree, CaseError> {
    match MemTree::new(alloc, files_of(alloc, files)?, Sequence::new(alloc)) {
        Ok(tree) => Ok(tree),
        Err(MemError::NotFolder { .. }) => Err(CaseError::Unfit),
        Err(MemError::NoMemory) => Err(CaseError::NoMemory),
    }
}

/// The plan of words over a tree. Unfit where they are refused.
fn planned_of(alloc: Global, files: &str, words: &str) -> Result<Planned, CaseError> {
    let mut tree = tree_of(alloc, files)?;
    let words = words_of_field(alloc, words)?;
    match plan_run(alloc, &mut tree, words.as_slice(), None) {
        Ok(planned) => Ok(planned),
        Err(_) => Err(CaseError::Unfit),
    }
}

fn push_results(
    alloc: Global,
    plan: &Plan,
    results: &Results,
    out: &mut Vec<u8>,
) -> Result<(), NoMemory> {
    for (job, status) in plan.jobs.as_slice().iter().zip(results.statuses.as_slice()) {
        push_text(out, &job.name)?;
        push_str(out, " ")?;
        push_status(alloc, status, out)?;
        push_str(out, "; ")?;
    }
    Ok(())
}

/// Builds all of a plan in a room, and puts what came of each node at the end.
fn push_builds(
    alloc: Global,
    plan: &Plan,
    kept: &Kept,
    runner: &mut Runner<MemRoom>,
    out: &mut Vec<u8>,
) -> Result<(), NoMemory>
    requires { FitsKept plan.now kept.now }
{
    match run_alone(alloc, plan, kept, runner) {
        Ok(results) => push_results(alloc, plan, &results, out),
        Err(Outer::Fault) => push_str(out, "fault; "),
        Err(Outer::NoMemory) => push_str(out, "no memory; "),
    }
}

fn push_room(alloc: Global, room: &MemRoom, out: &mut Vec<u8>) -> Result<(), NoMemory> {
    push_str(out, "begun")?;
    push_texts(out, room.begun())?;
    push_str(out, "; faults ")?;
    push_number(alloc, out, room.faults())
}

/// What comes of the ports that words want of a tree, built by one builder in a room in memory some of
/// whose calls fail; the names that were begun, and how often the room failed.
pub(crate) fn answer_builds(
    alloc: Global,
    files: &str,
    fails: &str,
    words: &str,
    out: &mut Vec<u8>,
) -> Result<(), CaseError> {
    let planned = planned_of(alloc, files, words)?;
    let kept = no_kept(alloc, &planned.plan)?;
    let mut runner = Runner::new(MemRoom::new(alloc, fails_of(alloc, fails, "")?)?);
    push_builds(alloc, &planned.plan, &kept, &mut runner, out)?;
    push_room(alloc, &runner.into_room(), out)?;
    Ok(())
}
