// Why files are no content of a tree in memory.
ghost use Rattle.std.specs.Prelude.{◌≡◌};
ghost use Rattle.outside.specs.declared.mem_error.MemError.TheVariants.{NoMemory as Refused};

use bulk_base::Path;
use std::alloc::{AllocError, AllocFailed};

/// Why an object in memory was not made.
#[derive(Debug, Drop)]
pub enum MemError {
    /// One path is a folder of another.
    NotFolder {
        /// The least path that is a folder of another.
        path: Path,
    },
    /// Want of memory.
    NoMemory,
}

impl From<AllocError> for MemError {
    ghost from_gives = { λ _ e. e ≡ Refused };

    fn from(_: AllocError) -> MemError {
        MemError::NoMemory
    }
}
