// Why a line is no case.
ghost use Rattle.std.specs.Prelude.{◌≡◌};
ghost use Rattle.case_text.specs.declared.fault.CaseError.TheVariants.{NoMemory as Refused};

use bulk_base::{PathError, TextError};
use std::alloc::AllocError;

/// Why a line has no answer.
#[derive(Clone, Copy, Debug, PartialEq, Eq)]
pub enum CaseError {
    /// A field has not the form that its kind of case wants.
    Unfit,
    /// Want of memory.
    NoMemory,
}

impl From<AllocError> for CaseError {
    ghost from_gives = { λ _ e. e ≡ Refused };

    fn from(_: AllocError) -> CaseError {
        CaseError::NoMemory
    }
}

impl From<TextError> for CaseError {
    fn from(error: TextError) -> CaseError {
        match error {
            TextError::NotText => CaseError::Unfit,
            TextError::NoMemory => CaseError::NoMemory,
        }
    }
}

impl From<PathError> for CaseError {
    fn from(error: PathError) -> CaseError {
        match error {
            PathError::BadPath => CaseError::Unfit,
            PathError::NoMemory => CaseError::NoMemory,
        }
    }
}
