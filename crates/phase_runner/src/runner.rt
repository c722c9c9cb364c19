// What builds jobs in a room.
ghost use Rattle.std.specs.Prelude.{◌≡◌, ◌∷◌, ◌++◌, [], false, is_some, IsTrue, IfOk, OnOk, OnErr};
ghost use Rattle.outside.specs.Faults.{HasCause};
ghost use Rattle.outside.specs.Outcomes.{GrewByAtMost};
ghost use Rattle.bulk_model.specs.Bake as bake;
ghost use Rattle.bulk_model.specs.Baked.{IsBuildOf, IsOutcomeOf};
ghost use Rattle.bulk_model.specs.PlanFacts.{MayUnderlie};
ghost use Rattle.phase_runner.specs.Running.{is_conflict};

use crate::packing::pack;
use crate::phases::run_phases;
use crate::staging::staged_files;
use bulk_base::Files;
use bulk_model::{Baking, Job, Outcome, Package, Phase, Shared};
use outside::{Outer, Room};
use root_clone::{Fill, fill};
use std::alloc::Global;

/// A baker that builds in a room, one job at a time.
#[derive(Drop)]
pub struct Runner<R: Room + Drop> {
    room: R,
}

impl<R: Room + Drop> Runner<R> {
    /// A baker in a room; takes no memory.
    pub fn new(room: R) -> Runner<R>
        ensures { result.room ≡ room }
    {
        Runner { room }
    }

    /// The room; takes no memory.
    pub fn into_room(self) -> R
        ensures { result ≡ self.room }
    {
        let Runner { room } = self;
        room
    }
}

/// What comes of a build whose phases are done.
fn pack_staged<R: Room>(
    alloc: Global,
    room: &mut R,
    base: &Files,
    job: &Job,
    packages: &[Shared<Package>],
) -> Result<Outcome, Outer>
    ensures told { IsTrue R.Ways.tells → IfOk result (λ outcome. outcome
        ≡ bake.packed base.now job.now packages.now (bake.staged (R.folder room.old))) }
    ensures fields { IfOk result (IsOutcomeOf base.now job.now packages.now) }
    ensures apart { IfOk result (λ outcome. is_conflict outcome ≡ false) }
    ensures begun { R.begun room.new ≡ R.begun room.old }
    ensures cause { HasCause (R.faults room.old) (R.faults room.new) result }
{
    let files = staged_files(alloc, room)?;
    Ok(pack(alloc, base, job, packages, files)?)
}

/// What comes of a build in a room that is filled.
fn build<R: Room>(
    alloc: Global,
    room: &mut R,
    base: &Files,
    job: &Job,
    packages: &[Shared<Package>],
) -> Result<Outcome, Outer>
    ensures told { IsTrue R.Ways.tells → IfOk result (λ outcome. outcome
        ≡ bake.run_phases R.Ways.runs (bake.packed base.now job.now packages.now)
        (bake.phases_of job.now.steps) (R.folder room.old)) }
    ensures fields { IfOk result (IsOutcomeOf base.now job.now packages.now) }
    ensures apart { IfOk result (λ outcome. is_conflict outcome ≡ false) }
    ensures begun { R.begun room.new ≡ R.begun room.old }
    ensures cause { HasCause (R.faults room.old) (R.faults room.new) result }
{
    match run_phases(alloc, room, job)? {
        Some(stop) => Ok(Outcome::Failed {
            phase: stop.phase,
            code: stop.code,
        }),
        None => pack_staged(alloc, room, base, job, packages),
    }
}

impl<R: Room + Drop> Baking for Runner<R> {
    type Ways = R::Ways;

    ghost begun = { λ runner. R.begun runner.room };

    ghost faults = { λ runner. R.faults runner.room };

    /// Empties the room under the job's name and fills it; runs the commands of the five phases, up
    /// to the first whose status is not 0; packs what then stands below `stage/`.
    ///
    /// Told or not, the failure for colliding packages comes exactly where installed files collide.
    fn bake(
        &mut self,
        alloc: Global,
        base: &Files,
        job: &Job,
        packages: &[Shared<Package>],
    ) -> Result<Outcome, Outer>
        requires { MayUnderlie base.now }
        ensures built { IfOk result
            (IsBuildOf R.Ways.tells R.Ways.runs base.now job.now packages.now) }
        ensures conflict { IfOk result (λ outcome. is_conflict outcome
            ≡ is_some (bake.first_conflict [] (bake.installed packages.now))) }
        ensures begun { OnOk result
            (R.begun self.new.room ≡ R.begun self.old.room ++ job.now.name ∷ []) }
        ensures begun_err { OnErr result
            (GrewByAtMost job.now.name (R.begun self.old.room) (R.begun self.new.room)) }
        ensures cause { HasCause (R.faults self.old.room) (R.faults self.new.room) result }
    {
        self.room.clear(alloc, &job.name)?;
        match fill(alloc, &mut self.room, base, packages, job)? {
            Fill::Conflict { .. } => Ok(Outcome::Failed {
                phase: Phase::Depends,
                code: 1,
            }),
            Fill::Ready => build(alloc, &mut self.room, base, job, packages),
        }
    }
}
