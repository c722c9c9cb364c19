// The commands of a build's phases.
ghost use Rattle.std.specs.Prelude.{◌≡◌, List, IsTrue, IfOk, IfSome};
ghost use Rattle.outside.specs.Faults.{HasCause};
ghost use Rattle.bulk_base.specs.declared.file.FileItem as file_item;
ghost use Rattle.bulk_model.specs.Bake as bake;
ghost use Rattle.bulk_model.specs.declared.outcome.Outcome as outcomes;
ghost use Rattle.phase_runner.specs.Running.{is_of_commands, outcome_after};

use bulk_model::{Command, Job, Phase};
use outside::{Outer, Room};
use std::alloc::Global;

/// The phase that failed, with the status of its command.
#[derive(Clone, Copy, Debug)]
pub(crate) struct Stop {
    /// The phase.
    pub(crate) phase: Phase,
    /// The status.
    pub(crate) code: u8,
}

/// That a phase failed.
fn stopped(phase: Phase, code: u8) -> Option<Stop>
    ensures { result ≡ Some (record { phase = phase; code = code }) }
{
    Some(Stop { phase, code })
}

/// Runs commands one after another, up to the first whose status is not 0, and answers the status of
/// the last that ran; 0 where there is none.
fn run_commands<R: Room>(alloc: Global, room: &mut R, commands: &[Command]) -> Result<u8, Outer>
    ensures told { IsTrue R.Ways.tells → IfOk result (λ status.
        bake.run_all R.Ways.runs commands.now (R.folder room.old)
        ≡ (status, R.folder room.new)) }
    ensures begun { R.begun room.new ≡ R.begun room.old }
    ensures cause { HasCause (R.faults room.old) (R.faults room.new) result }
{
    for command in commands {
        let status = room.run(alloc, command.words())?;
        if status != 0 {
            return Ok(status);
        }
    }
    Ok(0)
}

/// Runs the phases of a build one after another, up to the first that fails.
pub(crate) fn run_phases<R: Room>(
    alloc: Global,
    room: &mut R,
    job: &Job,
) -> Result<Option<Stop>, Outer>
    ensures told { IsTrue R.Ways.tells → IfOk result (λ stop.
        (pack : List file_item.FileItem → outcomes.Outcome)
        → bake.run_phases R.Ways.runs pack (bake.phases_of job.now.steps) (R.folder room.old)
        ≡ outcome_after pack stop (R.folder room.new)) }
    ensures phase { IfOk result (λ stop. IfSome stop (λ s. IsTrue (is_of_commands s.phase))) }
    ensures begun { R.begun room.new ≡ R.begun room.old }
    ensures cause { HasCause (R.faults room.old) (R.faults room.new) result }
{
    let code = run_commands(alloc, room, job.steps.extract.as_slice())?;
    if code != 0 {
        return Ok(stopped(Phase::Extract, code));
    }
    let code = run_commands(alloc, room, job.steps.patch.as_slice())?;
    if code != 0 {
        return Ok(stopped(Phase::Patch, code));
    }
    let code = run_commands(alloc, room, job.steps.configure.as_slice())?;
    if code != 0 {
        return Ok(stopped(Phase::Configure, code));
    }
    let code = run_commands(alloc, room, job.steps.build.as_slice())?;
    if code != 0 {
        return Ok(stopped(Phase::Build, code));
    }
    let code = run_commands(alloc, room, job.steps.stage.as_slice())?;
    if code != 0 {
        return Ok(stopped(Phase::Stage, code));
    }
    Ok(None)
}
