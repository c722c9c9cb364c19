// What the lists tell of a node.
ghost use Rattle.std.specs.Prelude.{◌≡◌};
ghost use Rattle.status_lists.specs.Entries.{is_in};
ghost use Rattle.status_lists.specs.Fates.{blamed_by, has_package, is_set_back};

use bulk_model::Phase;

/// What the lists tell of a node.
#[derive(Clone, Copy, Debug, PartialEq, Eq)]
pub(crate) enum Fate {
    /// Its package is kept.
    Kept,
    /// It was built, or would be.
    Built,
    /// Its build failed.
    Failed {
        /// What failed.
        phase: Phase,
        /// The status or code.
        code: u8,
    },
    /// Its port is ignored.
    Ignored,
    /// It was skipped, or would be.
    Skipped {
        /// The number of the node that is the cause.
        cause: u32,
    },
}

/// One of the lists of nodes.
#[derive(Clone, Copy, Debug, PartialEq, Eq)]
pub(crate) enum Part {
    /// Those whose packages are kept.
    Kept,
    /// Those that were built.
    Built,
    /// Those whose builds failed.
    Failed,
    /// Those whose ports are ignored.
    Ignored,
    /// Those that were skipped.
    Skipped,
}

impl Fate {
    pub(crate) fn has_package(self) -> bool
        ensures { result ≡ has_package self }
    {
        matches!(self, Fate::Kept | Fate::Built)
    }

    /// Whether it was not built, though nothing ignores it.
    pub(crate) fn is_set_back(self) -> bool
        ensures { result ≡ is_set_back self }
    {
        matches!(self, Fate::Failed { .. } | Fate::Skipped { .. })
    }

    /// Whom those blame who wait for the node `d`, which has this fate.
    pub(crate) fn blamed(self, d: u32) -> u32
        ensures { result ≡ blamed_by d self }
    {
        match self {
            Fate::Skipped { cause } => cause,
            Fate::Kept | Fate::Built | Fate::Failed { .. } | Fate::Ignored => d,
        }
    }

    /// Whether nodes with this fate stand in this list.
    pub(crate) fn is_in(self, part: Part) -> bool
        ensures { result ≡ is_in part self }
    {
        match part {
            Part::Kept => matches!(self, Fate::Kept),
            Part::Built => matches!(self, Fate::Built),
            Part::Failed => matches!(self, Fate::Failed { .. }),
            Part::Ignored => matches!(self, Fate::Ignored),
            Part::Skipped => matches!(self, Fate::Skipped { .. }),
        }
    }
}
