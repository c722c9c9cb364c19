// The package of a job.
ghost use Rattle.std.specs.Prelude.{◌≡◌, ◌≤◌, false, IfOk, IfSome};
ghost use Rattle.bulk_model.specs.Bake as bake;
ghost use Rattle.bulk_model.specs.Baked.{IsOutcomeOf};
ghost use Rattle.bulk_model.specs.Facts.{IsFileList};
ghost use Rattle.bulk_model.specs.Weight.{most_weight, weight_of};
ghost use Rattle.phase_runner.specs.Running.{is_conflict, packed_light};

use crate::marks::record_depends;
use bulk_base::{Files, NoMemory, copy_of, switch_copies};
use bulk_model::{Job, Outcome, Package, Phase, Shared};
use pkg_record::recipe;
use std::alloc::Global;

/// The package of a job that was built over a base root and these packages to these files.
fn package_of(
    alloc: Global,
    base: &Files,
    job: &Job,
    packages: &[Shared<Package>],
    files: Files,
) -> Result<Package, NoMemory>
    requires { IsFileList 1018 files }
    ensures { IfOk result (λ p. p ≡ bake.package_of base.now job.now packages.now files) }
{
    let recipe = recipe(alloc, base, job)?;
    let depends = record_depends(alloc, &job.depends, packages)?;
    Ok(Package {
        name: job.name.copy(alloc)?,
        origin: job.origin.copy(alloc)?,
        flavor: copy_of(alloc, job.flavor.as_ref())?,
        recipe,
        options: switch_copies(alloc, job.options.as_slice())?,
        depends,
        files,
    })
}

/// What comes of a build that staged these files: the package; a failure where they were too heavy.
pub(crate) fn pack(
    alloc: Global,
    base: &Files,
    job: &Job,
    packages: &[Shared<Package>],
    files: Option<Files>,
) -> Result<Outcome, NoMemory>
    requires form { IfSome files (IsFileList 1018) }
    requires light { IfSome files (λ f. weight_of f ≤ most_weight) }
    ensures told { IfOk result (λ outcome.
        outcome ≡ packed_light base.now job.now packages.now files) }
    ensures fields { IfOk result (IsOutcomeOf base.now job.now packages.now) }
    ensures apart { IfOk result (λ outcome. is_conflict outcome ≡ false) }
{
    let Some(files) = files else {
        return Ok(Outcome::Failed {
            phase: Phase::Package,
            code: 2,
        });
    };
    let package = package_of(alloc, base, job, packages, files)?;
    Ok(Outcome::Built(Shared::new(alloc, package)?))
}
