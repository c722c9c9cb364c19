// What builds jobs.
ghost use Rattle.std.specs.Prelude.{◌≡◌, ℕ, List, [], ◌∷◌, ◌++◌, IfOk, OnOk, OnErr};
ghost use Rattle.outside.specs.Faults.{HasCause};
ghost use Rattle.outside.specs.Outcomes.{GrewByAtMost};
ghost use Rattle.bulk_model.specs.PlanFacts.{MayUnderlie};
ghost use Rattle.bulk_model.specs.Baked.{IsBuildOf};

use crate::job::Job;
use crate::outcome::Outcome;
use crate::package::Package;
use crate::shared::Shared;
use bulk_base::Files;
use outside::{Outer, Ways};
use std::alloc::Global;

/// What builds jobs, one at a time.
pub trait Baking {
    /// What commands do in the rooms that are used, or that they tell nothing.
    type Ways: Ways;

    /// The package names of the jobs that were begun, in order; always told.
    ghost begun: { Self → List (List ℕ) };

    /// How often the rooms that are used have failed.
    ghost faults: { Self → ℕ };

    /// Builds a job over a base root and the packages that are installed for it: a failure, or a package with the job's
    /// name, origin, flavor, options, recipe and dependencies, these with the digests of the packages' records, and of a
    /// weight of at most 524,288. Fault only where the rooms' count of failures rose.
    fn bake(
        &mut self,
        alloc: Global,
        base: &Files,
        job: &Job,
        packages: &[Shared<Package>],
    ) -> Result<Outcome, Outer>
        requires { MayUnderlie base.now }
        ensures built { IfOk result
            (IsBuildOf Self.Ways.tells Self.Ways.runs base.now job.now packages.now) }
        ensures begun { OnOk result (begun self.new ≡ begun self.old ++ job.now.name ∷ []) }
        ensures begun_err { OnErr result
            (GrewByAtMost job.now.name (begun self.old) (begun self.new)) }
        ensures cause { HasCause (faults self.old) (faults self.new) result };
}
