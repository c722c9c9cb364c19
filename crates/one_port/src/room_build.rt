// A port without dependencies, built in a room.
ghost use Rattle.std.specs.Prelude.{◌≡◌, ◌<◌, [], ◌∷◌, ◌++◌, IsTrue, IfOk, OnOk, OnErr};
ghost use Rattle.outside.specs.Outcomes.{GrewByAtMost};
ghost use Rattle.outside.specs.Faults.{HasCause};
ghost use Rattle.bulk_model.specs.Bake.{bake, staged};
ghost use Rattle.one_port.specs.RoomBuild.{packed_alone};
ghost use Rattle.bulk_model.specs.Weight.{most_weight};
ghost use Rattle.bulk_model.specs.Baked.{IsOutcomeOf};

use crate::furnishing::furnish;
use crate::packing::{MOST_WEIGHT, pack};
use crate::phases::run_phases;
use crate::staging::staged_files;
use bulk_model::{Job, Outcome};
use outside::{Outer, Room};
use std::alloc::Global;

// What comes of a build that staged its files, where so many bytes of a file are already too heavy.
fn pack_staged<R: Room>(alloc: Global, room: &mut R, job: &Job, most: u64) -> Result<Outcome, Outer>
    requires { most_weight < most }
    ensures told { IsTrue R.Ways.tells → IfOk result (λ outcome. outcome ≡ packed_alone job.now (staged (R.folder room.old))) }
    ensures fields { IfOk result (IsOutcomeOf [] job.now []) }
    ensures begun { R.begun room.new ≡ R.begun room.old }
    ensures cause { HasCause (R.faults room.old) (R.faults room.new) result }
{
    let files = staged_files(alloc, room, most)?;
    Ok(pack(alloc, job, files)?)
}

/// Builds a port that has no dependencies in a room, with nothing installed there.
///
/// The room is emptied and gets the port's files below `work/`. The commands of the five phases run, up to the first
/// whose status is not 0. What then stands below `stage/` is the package, unless it is too heavy.
pub(crate) fn build<R: Room>(alloc: Global, room: &mut R, job: &Job) -> Result<Outcome, Outer>
    ensures told { IsTrue R.Ways.tells → IfOk result (λ outcome. outcome ≡ bake R.Ways.runs [] job.now []) }
    ensures fields { IfOk result (IsOutcomeOf [] job.now []) }
    ensures begun { OnOk result (R.begun room.new ≡ R.begun room.old ++ job.now.name ∷ []) }
    ensures begun_err { OnErr result (GrewByAtMost job.now.name (R.begun room.old) (R.begun room.new)) }
    ensures cause { HasCause (R.faults room.old) (R.faults room.new) result }
{
    furnish(alloc, room, job)?;
    if let Some(stop) = run_phases(alloc, room, job)? {
        return Ok(Outcome::Failed {
            phase: stop.phase,
            code: stop.code,
        });
    }
    pack_staged(alloc, room, job, MOST_WEIGHT + 1)
}
