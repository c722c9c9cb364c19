// Why bytes are no MOVED file.
ghost use Rattle.std.specs.Prelude.{◌≡◌};
ghost use Rattle.moved_list.specs.declared.fault.MovedError.TheVariants.{NoMemory as Refused};

use std::alloc::AllocError;
use thiserror::Error;

/// Why bytes gave no list of moved ports.
#[derive(Clone, Copy, Debug, PartialEq, Eq, Error)]
pub enum MovedError {
    /// The first line that is outside the form.
    #[error("line {line}: bad line")]
    BadLine {
        /// The line's number, from 1.
        line: u32,
    },
    /// Want of memory.
    #[error("out of memory")]
    NoMemory,
}

impl From<AllocError> for MovedError {
    ghost from_gives = { λ _ e. e ≡ Refused };

    fn from(_: AllocError) -> MovedError {
        MovedError::NoMemory
    }
}
