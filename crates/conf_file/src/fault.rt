// Why bytes are no settings.
ghost use Rattle.std.specs.Prelude.{◌≡◌};
ghost use Rattle.conf_file.specs.declared.fault.ConfError.TheVariants.{NoMemory as Refused};
ghost use Rattle.conf_file.specs.declared.fault.LineError.TheVariants.{NoMemory as RefusedLine};
ghost use Rattle.conf_file.specs.Make.{conf_fault};

use bulk_base::Text;
use port_vars::{LineKind, VarsError};
use std::alloc::AllocError;
use thiserror::Error;

/// What is wrong with a line of settings.
#[derive(Debug, Drop, Error)]
pub enum ConfKind {
    /// It is outside the grammar of variable files, or of lines of poudriere.conf (docs/FORMATS.md).
    #[error("{0}")]
    Line(LineKind),
    /// A value in quotes does not end, or something that is no comment stands behind a value.
    #[error("bad quote")]
    Quote,
    /// A name has a value that it may not have.
    #[error("unknown value of {name}")]
    Value {
        /// The name.
        name: Text,
    },
}

/// Why bytes gave no settings.
#[derive(Debug, Drop, Error)]
pub enum ConfError {
    /// The first line that is outside the form, and what is wrong with it.
    #[error("line {line}: {kind}")]
    BadLine {
        /// The line's number, from 1; 0 for the whole file.
        line: u32,
        /// What is wrong with it.
        kind: ConfKind,
    },
    /// Want of memory.
    #[error("out of memory")]
    NoMemory,
}

impl From<AllocError> for ConfError {
    ghost from_gives = { λ _ e. e ≡ Refused };

    fn from(_: AllocError) -> ConfError {
        ConfError::NoMemory
    }
}

impl From<VarsError> for ConfError {
    ghost from_gives = { λ fault e. e ≡ conf_fault fault };

    fn from(fault: VarsError) -> ConfError {
        match fault {
            VarsError::BadLine { line, kind } => ConfError::BadLine {
                line,
                kind: ConfKind::Line(kind),
            },
            VarsError::NoMemory => ConfError::NoMemory,
        }
    }
}

/// Why a line of poudriere.conf set nothing.
#[derive(Drop)]
pub(crate) enum LineError {
    /// The line is outside the form.
    Bad(ConfKind),
    /// Want of memory.
    NoMemory,
}

impl From<AllocError> for LineError {
    ghost from_gives = { λ _ e. e ≡ RefusedLine };

    fn from(_: AllocError) -> LineError {
        LineError::NoMemory
    }
}
