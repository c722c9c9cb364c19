// What came of each node of a plan.
use crate::outcome::{Outcome, Phase};
use crate::package::Package;
use crate::shared::Shared;
use bulk_base::Sequence;

/// What came of a node.
#[derive(Debug, Drop)]
pub enum Status {
    /// Its package was there and is kept.
    Kept(Shared<Package>),
    /// Its package was built.
    Built(Shared<Package>),
    /// Its build failed.
    Failed {
        /// What failed.
        phase: Phase,
        /// The status or code.
        code: u8,
    },
    /// Its port is ignored.
    Ignored,
    /// A dependency failed, is ignored or was skipped.
    Skipped,
}

/// A status for each node.
pub type Statuses = Sequence<Status>;

/// What came of each node of a plan.
#[derive(Debug, Drop)]
pub struct Results {
    /// One status per node.
    pub statuses: Statuses,
}

/// An outcome for each node that has one.
pub type MaybeOutcomes = Sequence<Option<Outcome>>;

/// What came of the builds of a plan that have ended so far.
#[derive(Debug, Drop)]
pub struct Partial {
    /// One place per node.
    pub outcomes: MaybeOutcomes,
}
