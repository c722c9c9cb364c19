// Why a command wants nothing.
ghost use Rattle.std.specs.Prelude.{◌≡◌};
ghost use Rattle.origin_flavor.specs.declared.fault.WantedError.TheVariants.{NoMemory as Refused};

use bulk_base::{Text, Texts};
use std::alloc::AllocError;
use thiserror::Error;

/// Why a command wants nothing (docs/FORMATS.md, "Wanted ports").
#[derive(Debug, Drop, Error)]
pub enum WantedError {
    /// The list file's first line that is no text.
    #[error("line {line}: bad line")]
    BadList {
        /// The line's number, from 1.
        line: u32,
    },
    /// A word is out of form, or names no port.
    #[error("no origin {word}")]
    NoOrigin {
        /// The word as written.
        word: Text,
    },
    /// A word's port is there, and has no such flavor.
    #[error("no flavor {word}")]
    NoFlavor {
        /// The word as written.
        word: Text,
    },
    /// MOVED says that a word's port was removed.
    #[error("gone {word}: {reason}")]
    Gone {
        /// The word as written.
        word: Text,
        /// Why, as MOVED says.
        reason: Text,
    },
    /// MOVED leads a word in a circle.
    #[error("moved in a circle")]
    MovedLoop {
        /// The names of the circle, in the order followed.
        origins: Texts,
    },
    /// Want of memory.
    #[error("out of memory")]
    NoMemory,
}

impl From<AllocError> for WantedError {
    ghost from_gives = { λ _ e. e ≡ Refused };

    fn from(_: AllocError) -> WantedError {
        WantedError::NoMemory
    }
}
