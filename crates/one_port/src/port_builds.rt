// Ports built in a room, one after another.
ghost use Rattle.std.specs.Prelude.{◌≡◌, ◌++◌, [], ◌∷◌, IfOk, OnOk, OnErr};
ghost use Rattle.outside.specs.Faults.{HasCause};
ghost use Rattle.outside.specs.Outcomes.{GrewByAtMost};
ghost use Rattle.one_port.specs.PortsWanted.{names_of};
ghost use Rattle.one_port.specs.PortsRun.{IsBuildAlone, AreBuildsOf};
ghost use Rattle.one_port.specs.Ending.{BeganFirst};

use crate::room_build::build;
use bulk_base::Sequence;
use bulk_model::{Job, Outcome};
use outside::{Outer, Room};
use std::alloc::Global;

/// What came of some builds.
pub(crate) type Outcomes = Sequence<Outcome>;

// What comes of the build of one port.
fn build_port<R: Room>(alloc: Global, room: &mut R, job: &Job) -> Result<Outcome, Outer>
    ensures build { IfOk result (IsBuildAlone R.Ways.tells R.Ways.runs job.now) }
    ensures begun { OnOk result (R.begun room.new ≡ R.begun room.old ++ job.now.name ∷ []) }
    ensures begun_err { OnErr result (GrewByAtMost job.now.name (R.begun room.old) (R.begun room.new)) }
    ensures cause { HasCause (R.faults room.old) (R.faults room.new) result }
{
    build(alloc, room, job)
}

/// What comes of the builds of some ports, one after another in the room, up to the first error.
pub(crate) fn build_ports<R: Room>(
    alloc: Global,
    room: &mut R,
    jobs: &[Job],
) -> Result<Outcomes, Outer>
    ensures builds { IfOk result (AreBuildsOf R.Ways.tells R.Ways.runs jobs.now) }
    ensures begun { OnOk result (R.begun room.new ≡ R.begun room.old ++ names_of jobs.now) }
    ensures begun_err { OnErr result (BeganFirst jobs.now (R.begun room.old) (R.begun room.new)) }
    ensures cause { HasCause (R.faults room.old) (R.faults room.new) result }
{
    let mut outcomes = Sequence::new(alloc);
    for job in jobs {
        let outcome = build_port(alloc, room, job)?;
        outcomes.push(outcome)?;
    }
    Ok(outcomes)
}
