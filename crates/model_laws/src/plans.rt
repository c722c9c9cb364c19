// The graph of a plan: what is installed for a build, and chains of dependents.
ghost use Rattle.model_laws.specs.Plans.{
  InstalledAll,
  InstalledAreNodes,
  DependsAreInstalled,
  InstallsAreClosed,
  InstalledLieBelow,
  KeptInstallsAreKept,
  NineEdgesAreEnough,
};

/// What holds of a node's dependencies, and goes from each node to its own, holds of all that is
/// installed for the node.
pub fn installed_all()
    ensures { InstalledAll }
{}

/// Just nodes are installed.
pub fn installed_are_nodes()
    ensures { InstalledAreNodes }
{}

/// A node's dependencies are installed for it.
pub fn depends_are_installed()
    ensures { DependsAreInstalled }
{}

/// What is installed has with it what it needs later.
pub fn installs_are_closed()
    ensures { InstallsAreClosed }
{}

/// What is installed for a node lies below it.
pub fn installed_lie_below()
    ensures { InstalledLieBelow }
{}

/// All that is installed for a kept node is kept.
pub fn kept_installs_are_kept()
    ensures { KeptInstallsAreKept }
{}

/// Nine edges of the chains above a node tell the smaller of 9 and the longest chain.
pub fn nine_edges_are_enough()
    ensures { NineEdgesAreEnough }
{}
