// Why bytes are no record.
ghost use Rattle.std.specs.Prelude.{◌≡◌, length};
ghost use Rattle.pkg_record.specs.declared.fault.ReadError.TheVariants.{Memory, Found};
ghost use Rattle.pkg_record.specs.declared.fault.Fault.TheVariants.{Misfit};
ghost use Rattle.pkg_record.specs.declared.fault.RecordError.TheVariants.{NoMemory as Refused};

use bulk_base::Text;
use std::alloc::AllocError;

/// Why bytes are no record (docs/FORMATS.md, "The package record").
#[derive(Debug, Drop)]
pub enum RecordError {
    /// The bytes end before the line with the digest does, and each line or piece that ends in them fits what stands
    /// before it.
    Short,
    /// A line or piece does not fit what stands before it, or bytes stand behind the line with the digest.
    BadField {
        /// Where the first such line or piece begins, from 0.
        place: u64,
    },
    /// All fits, and the digest is not that of the bytes before its line.
    BadDigest {
        /// The 64 digits of the record's last line.
        stated: Text,
        /// The digits of SHA-256 of the bytes before that line.
        found: Text,
    },
    /// Want of memory.
    NoMemory,
}

impl From<AllocError> for RecordError {
    ghost from_gives = { λ _ e. e ≡ Refused };

    fn from(_: AllocError) -> RecordError {
        RecordError::NoMemory
    }
}

/// The first fault from left to right.
#[derive(Clone, Copy, Debug, PartialEq, Eq)]
pub(crate) enum Fault {
    /// The bytes end before the record does.
    Short,
    /// A line or piece does not fit; so many bytes are left where it begins.
    Misfit(usize),
}

/// Why a reader gave nothing.
#[derive(Clone, Copy, Debug, PartialEq, Eq)]
pub(crate) enum ReadError {
    /// Want of memory.
    Memory,
    /// The bytes have a fault.
    Found(Fault),
}

impl From<AllocError> for ReadError {
    ghost from_gives = { λ _ e. e ≡ Memory };

    fn from(_: AllocError) -> ReadError {
        ReadError::Memory
    }
}

/// The fault of the line or piece that begins these bytes.
pub(crate) fn misfit(bytes: &[u8]) -> ReadError
    ensures { result ≡ Found (Misfit (length bytes.now)) }
{
    ReadError::Found(Fault::Misfit(bytes.len()))
}
