// What comes of builds, and of the nodes that they build.
ghost use Rattle.model_laws.specs.Builds.{
  BuiltHaveFields,
  BakesGiveJobs,
  DryBuildsGiveJobs,
  OutcomesGiveJobs,
  BakeIsBuild,
  RightBuildsAreRight,
  StatusesSoFarInstall,
};

/// A built package in the results has the fields of its node's job, where the builds only give
/// such packages.
pub fn built_have_fields()
    ensures { BuiltHaveFields }
{}

/// Builds of which rooms tell give only packages with the fields of their jobs.
pub fn bakes_give_jobs()
    ensures { BakesGiveJobs }
{}

/// So do builds that are taken to succeed.
pub fn dry_builds_give_jobs()
    ensures { DryBuildsGiveJobs }
{}

/// So do outcomes that are given in place of builds, where they have these fields.
pub fn outcomes_give_jobs()
    ensures { OutcomesGiveJobs }
{}

/// What rooms tell of a build may come of it.
pub fn bake_is_build()
    ensures { BakeIsBuild }
{}

/// What comes of a right build is right at its node.
pub fn right_builds_are_right()
    ensures { RightBuildsAreRight }
{}

/// Statuses so far that are right where they have a package have the right packages for each build
/// all of whose dependencies they have.
pub fn statuses_so_far_install()
    ensures { StatusesSoFarInstall }
{}
