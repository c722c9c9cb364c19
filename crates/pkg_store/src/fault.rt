// Why a store was not read.
ghost use Rattle.std.specs.Prelude.{◌≡◌};
ghost use Rattle.pkg_store.specs.declared.fault.StoreError.TheVariants.{NoMemory as Refused};

use bulk_model::Which;
use outside::Outer;
use std::alloc::AllocError;

/// Why a store was not read.
#[derive(Clone, Copy, Debug, PartialEq, Eq)]
pub enum StoreError {
    /// The store failed: its count of faults rose in this call.
    Fault,
    /// A number passes its limit.
    Limit {
        /// What was counted: StoreNames or StoreBytes.
        which: Which,
        /// How many package files there are, or one more byte than may be read.
        count: u64,
    },
    /// Want of memory.
    NoMemory,
}

impl From<AllocError> for StoreError {
    ghost from_gives = { λ _ e. e ≡ Refused };

    fn from(_: AllocError) -> StoreError {
        StoreError::NoMemory
    }
}

impl From<Outer> for StoreError {
    ghost use Rattle.pkg_store.specs.Faults.{store_fault};

    ghost from_gives = { λ outer e. e ≡ store_fault outer };

    fn from(outer: Outer) -> StoreError {
        match outer {
            Outer::Fault => StoreError::Fault,
            Outer::NoMemory => StoreError::NoMemory,
        }
    }
}
