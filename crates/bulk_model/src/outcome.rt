// What comes of a build.
use crate::package::Package;
use crate::shared::Shared;

/// The part of a build that failed.
#[derive(Clone, Copy, Debug, PartialEq, Eq)]
pub enum Phase {
    /// Installing the dependencies' packages.
    Depends,
    /// Extracting.
    Extract,
    /// Patching.
    Patch,
    /// Configuring.
    Configure,
    /// Building.
    Build,
    /// Staging.
    Stage,
    /// Making the package.
    Package,
}

/// What comes of a build.
#[derive(Debug, Drop)]
pub enum Outcome {
    /// The package.
    Built(Shared<Package>),
    /// The phase that failed, with the status of its command or a code of its own.
    Failed {
        /// What failed.
        phase: Phase,
        /// The command's status; 1 for colliding packages, 2 for a package that is too heavy.
        code: u8,
    },
}
