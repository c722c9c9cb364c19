// The package of a job.
ghost use Rattle.std.specs.Prelude.{◌≡◌, [], map, IfOk};
ghost use Rattle.bulk_model.specs.Facts.{IsFileList};
ghost use Rattle.bulk_model.specs.Bake as bake;
ghost use Rattle.bulk_model.specs.Recipe as recipes;
ghost use Rattle.one_port.specs.RoomBuild.{packed_alone};
ghost use Rattle.bulk_model.specs.Baked.{IsOutcomeOf};

use bulk_base::{Files, NoMemory, Sequence, copy_of, switch_copies};
use bulk_model::{
    Depends, Digest, Job, Outcome, Package, Phase, Recorded, Recordeds, Shared, weight,
};
use pkg_record::recipe;
use std::alloc::Global;

/// The most that a package may weigh.
pub(crate) const MOST_WEIGHT: u64 = 524288;

// Where no package is installed, each dependency is recorded without a digest.
fn record_depends(alloc: Global, depends: &Depends) -> Result<Recordeds, NoMemory>
    ensures { IfOk result (λ found. found ≡ map (bake.recorded []) depends.now) }
{
    let mut found = Sequence::new(alloc);
    for depend in depends.as_slice() {
        found.push(Recorded {
            kind: depend.kind,
            node: depend.node.copy(alloc)?,
            name: depend.name.copy(alloc)?,
            digest: Digest::none(),
        })?;
    }
    Ok(found)
}

fn recipe_of(alloc: Global, job: &Job) -> Result<Digest, NoMemory>
    ensures { IfOk result (λ digest. digest ≡ recipes.recipe [] job.now) }
{
    recipe(alloc, &Sequence::new(alloc), job)
}

// The package of a job with these files.
fn package_of(alloc: Global, job: &Job, files: Files) -> Result<Package, NoMemory>
    requires { IsFileList 1018 files }
    ensures { IfOk result (λ p. p ≡ bake.package_of [] job.now [] files) }
{
    let recipe = recipe_of(alloc, job)?;
    Ok(Package {
        name: job.name.copy(alloc)?,
        origin: job.origin.copy(alloc)?,
        flavor: copy_of(alloc, job.flavor.as_ref())?,
        recipe,
        options: switch_copies(alloc, job.options.as_slice())?,
        depends: record_depends(alloc, &job.depends)?,
        files,
    })
}

/// What comes of a build that staged these files: the package, or that it is too heavy.
pub(crate) fn pack(alloc: Global, job: &Job, files: Files) -> Result<Outcome, NoMemory>
    requires { IsFileList 1018 files }
    ensures told { IfOk result (λ outcome. outcome ≡ packed_alone job.now files) }
    ensures fields { IfOk result (IsOutcomeOf [] job.now []) }
{
    let built = package_of(alloc, job, files)?;
    if weight(&built) > MOST_WEIGHT {
        return Ok(Outcome::Failed {
            phase: Phase::Package,
            code: 2,
        });
    }
    Ok(Outcome::Built(Shared::new(alloc, built)?))
}
