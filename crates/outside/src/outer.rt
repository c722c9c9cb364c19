// How a call of the outside ends otherwise than well.
ghost use Rattle.std.specs.Prelude.{◌≡◌};
ghost use Rattle.outside.specs.declared.outer.Outer.TheVariants.{NoMemory as Refused};

use std::alloc::{AllocError, AllocFailed};

/// Why a call of a tree, a store, a room or a sink gave no answer.
#[derive(Clone, Copy, Debug, PartialEq, Eq)]
pub enum Outer {
    /// The object failed: its count of faults rose in this call.
    Fault,
    /// Want of memory.
    NoMemory,
}

impl From<AllocError> for Outer {
    ghost from_gives = { λ _ e. e ≡ Refused };

    fn from(_: AllocError) -> Outer {
        Outer::NoMemory
    }
}

impl<T: Drop> From<AllocFailed<T>> for Outer {
    ghost from_gives = { λ _ e. e ≡ Refused };

    fn from(_: AllocFailed<T>) -> Outer {
        Outer::NoMemory
    }
}
