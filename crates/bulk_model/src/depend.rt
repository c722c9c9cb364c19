// Dependencies as a job and a package list them.
ghost use Rattle.std.specs.Prelude.{◌≡◌};
ghost use Rattle.bulk_model.specs.Facts.{kind_number};

use crate::digest::Digest;
use bulk_base::{Sequence, Text};

/// What a dependency is needed for, in the order in which the variables are read (Porter's Handbook, "Dependencies").
#[derive(Clone, Copy, Debug, PartialEq, Eq)]
pub enum DepKind {
    /// To make packages: PKG_DEPENDS.
    Pkg,
    /// To fetch: FETCH_DEPENDS.
    Fetch,
    /// To extract: EXTRACT_DEPENDS.
    Extract,
    /// To patch: PATCH_DEPENDS.
    Patch,
    /// To build: BUILD_DEPENDS.
    Build,
    /// To link, when building and when running: LIB_DEPENDS.
    Lib,
    /// To run: RUN_DEPENDS.
    Run,
}

impl DepKind {
    /// The kind's place in the order in which the variables are read, from 0.
    pub fn number(self) -> u8
        ensures { result ≡ kind_number self }
    {
        match self {
            DepKind::Pkg => 0,
            DepKind::Fetch => 1,
            DepKind::Extract => 2,
            DepKind::Patch => 3,
            DepKind::Build => 4,
            DepKind::Lib => 5,
            DepKind::Run => 6,
        }
    }
}

/// A dependency: its kind, the node that is needed and that node's package name.
#[derive(Debug, Drop)]
pub struct Depend {
    /// What the node is needed for.
    pub kind: DepKind,
    /// The node: an origin, or an origin, `@` and a flavor.
    pub node: Text,
    /// The name of the node's package.
    pub name: Text,
}

/// A list of dependencies.
pub type Depends = Sequence<Depend>;

/// A dependency as a package records it: with the digest of the record of the package that it was built with.
#[derive(Debug, Drop)]
pub struct Recorded {
    /// What the node was needed for.
    pub kind: DepKind,
    /// The node: an origin, or an origin, `@` and a flavor.
    pub node: Text,
    /// The name of the node's package.
    pub name: Text,
    /// The digest of that package's record, by which it is meant; 32 zero bytes where there was none.
    pub digest: Digest,
}

/// A list of recorded dependencies.
pub type Recordeds = Sequence<Recorded>;
