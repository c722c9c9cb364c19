// Why bytes are no list of distfiles, and why a file is not the one that is listed.
ghost use Rattle.std.specs.Prelude.{◌≡◌};
ghost use Rattle.dist_files.specs.declared.fault.DistError.TheVariants.{NoMemory as Refused};

use bulk_base::Path;
use bulk_model::Digest;
use std::alloc::AllocError;

/// Why bytes gave no list of distfiles.
#[derive(Debug, Drop)]
pub enum DistError {
    /// The first line that is outside the form.
    BadLine {
        /// The line's number, from 1.
        line: u32,
    },
    /// The least file that has not exactly one line of each kind.
    Unpaired {
        /// The file.
        file: Path,
    },
    /// The least file that has another as one of its folders.
    Collide {
        /// The file.
        file: Path,
    },
    /// Want of memory.
    NoMemory,
}

impl From<AllocError> for DistError {
    ghost from_gives = { λ _ e. e ≡ Refused };

    fn from(_: AllocError) -> DistError {
        DistError::NoMemory
    }
}

/// Why a file is not the one that a port's list states.
#[derive(Clone, Copy, Debug, PartialEq, Eq)]
pub enum DistWhy {
    /// The file is not there.
    Absent,
    /// It has another number of bytes.
    Size {
        /// How many the list states.
        stated: u64,
        /// How many were found.
        found: u64,
    },
    /// It has the stated number of bytes and another digest.
    Digest {
        /// The digest that the list states.
        stated: Digest,
        /// That of the bytes that were found.
        found: Digest,
    },
}
