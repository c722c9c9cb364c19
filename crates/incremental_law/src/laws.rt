// Stores over plans.
ghost use Rattle.incremental_law.specs.Laws.{
  KeptIsBuilt,
  FreshIsMade,
  IncrementalIsClean,
  OneMoreStaysSound,
  SavesStaySound,
  EmptyIsStore,
  EachContentIsSound,
  EachContentIsClosed,
  RunsStaySound,
  DoneRunsAreClean,
};

/// Where each kept package is what its job gives over what is kept, a run that counts what it keeps
/// as built comes to what a run that keeps nothing comes to, node by node.
pub fn kept_is_built()
    ensures { KeptIsBuilt }
{}

/// What passes leave of a sound store at a plan's nodes is what the nodes' own jobs give over what
/// the plan installs for them.
pub fn fresh_is_made()
    ensures { FreshIsMade }
{}

/// So a run over a sound store comes to what a run over an empty one comes to, node by node.
pub fn incremental_is_clean()
    ensures { IncrementalIsClean }
{}

/// A package that a run built stays sound beside members that have its dependencies.
pub fn one_more_stays_sound()
    ensures { OneMoreStaysSound }
{}

/// What passes leave of a sound store, and the packages that a run built, saved one after another with
/// dependencies first, are sound and closed after each save.
pub fn saves_stay_sound()
    ensures { SavesStaySound }
{}

/// An empty store is sound for every table, and a table can be made of a tree's own jobs where no two
/// of their recipes share a digest.
pub fn empty_is_store()
    ensures { EmptyIsStore }
{}

/// Whatever change of a run over a sound store was the last, the store is sound: after any of its
/// deletions, in any order, after any of its saves with dependencies first, and after the catalogue's
/// put.
pub fn each_content_is_sound()
    ensures { EachContentIsSound }
{}

/// From the deletions on the store has with each package all that the package records.
pub fn each_content_is_closed()
    ensures { EachContentIsClosed }
{}

/// Any runs over trees that agree with one table of recipes, each ended or stopped anywhere, leave a
/// sound store.
pub fn runs_stay_sound()
    ensures { RunsStaySound }
{}

/// A run over a sound store that is done leaves at its plan's nodes just the packages that a run over
/// an empty store builds.
pub fn done_runs_are_clean()
    ensures { DoneRunsAreClean }
{}
