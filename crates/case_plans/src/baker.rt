// A baker that fails where it is told to.
ghost use Rattle.std.specs.Prelude.{◌≡◌, [], ℕ, List, IfOk};
ghost use Rattle.bulk_model.specs.Bake as bakes;
ghost use Rattle.bulk_model.specs.Baked.{IsOutcomeOf};
ghost use Rattle.bulk_model.specs.Views.{PackageView};

use bulk_base::{Files, NoMemory, Sequence, Text, Texts, copy_of, switch_copies};
use bulk_model::{Baking, Job, Outcome, Package, Phase, Shared};
use case_text::{CaseError, push_str, push_text};
use outside::{Outer, Untold};
use pkg_record::recipe;
use port_name::Names;
use std::alloc::Global;

/// A baker whose packages have no file. It fails where it is told to, and notes what it builds and over which packages.
#[derive(Drop)]
pub struct Scripted {
    begun: Texts,
    fails: Names,
    noted: Vec<u8>,
}

impl Scripted {
    /// One that fails for the jobs of these packages' names.
    pub fn new(alloc: Global, fails: Texts) -> Result<Scripted, NoMemory> {
        Ok(Scripted {
            begun: Sequence::new(alloc),
            fails: Names::new(alloc, fails)?,
            noted: Vec::new(alloc),
        })
    }

    /// What was noted: each build, and between parentheses what was installed.
    pub fn noted(&self) -> &[u8] {
        self.noted.as_slice()
    }

    /// The names that were begun.
    pub fn begun(&self) -> &[Text] {
        self.begun.as_slice()
    }
}

fn note(noted: &mut Vec<u8>, job: &Job, packages: &[Shared<Package>]) -> Result<(), NoMemory> {
    push_str(noted, " ")?;
    push_text(noted, &job.name)?;
    push_str(noted, "(")?;
    for package in packages {
        push_str(noted, " ")?;
        push_text(noted, &package.get().name)?;
    }
    push_str(noted, " )")
}

/// The package of a job without dependencies.
fn package_of(alloc: Global, base: &Files, job: &Job) -> Result<Package, NoMemory>
    requires { job.now.depends ≡ [] }
    ensures { (packages : List PackageView)
        → IfOk result (λ p. p ≡ bakes.package_of base.now job.now packages []) }
{
    let recipe = recipe(alloc, base, job)?;
    Ok(Package {
        name: job.name.copy(alloc)?,
        origin: job.origin.copy(alloc)?,
        flavor: copy_of(alloc, job.flavor.as_ref())?,
        recipe,
        options: switch_copies(alloc, job.options.as_slice())?,
        depends: Sequence::new(alloc),
        files: Sequence::new(alloc),
    })
}

/// What comes of a job: its package without files, or a failure.
pub fn plain_outcome(
    alloc: Global,
    base: &Files,
    job: &Job,
    fails: bool,
) -> Result<Outcome, NoMemory>
    ensures { (packages : List PackageView)
        → IfOk result (IsOutcomeOf base.now job.now packages) }
{
    if fails || !job.depends.is_empty() {
        return Ok(Outcome::Failed {
            phase: Phase::Build,
            code: 1,
        });
    }
    let built = package_of(alloc, base, job)?;
    Ok(Outcome::Built(Shared::new(alloc, built)?))
}

/// The package of a job without dependencies; None of another.
pub fn plain(alloc: Global, base: &Files, job: &Job) -> Result<Option<Shared<Package>>, NoMemory> {
    if !job.depends.is_empty() {
        return Ok(None);
    }
    let built = package_of(alloc, base, job)?;
    Ok(Some(Shared::new(alloc, built)?))
}

impl Baking for Scripted {
    type Ways = Untold;

    ghost begun = { λ s. s.begun };

    ghost faults = { λ s. 0 };

    fn bake(
        &mut self,
        alloc: Global,
        base: &Files,
        job: &Job,
        packages: &[Shared<Package>],
    ) -> Result<Outcome, Outer> {
        let name = job.name.copy(alloc)?;
        self.begun.push(name)?;
        note(&mut self.noted, job, packages)?;
        let fails = self.fails.holds(&job.name);
        Ok(plain_outcome(alloc, base, job, fails)?)
    }
}

/// The fault of a case whose run had one.
pub fn fault_of(error: Outer) -> CaseError {
    match error {
        Outer::Fault => CaseError::Unfit,
        Outer::NoMemory => CaseError::NoMemory,
    }
}
