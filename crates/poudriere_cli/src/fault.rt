// How failures of the system become the answers of an adapter, and how these are counted.
ghost use Rattle.std.specs.Prelude.{◌≡◌};
ghost use Rattle.std.specs.IoError.{error_kind};
ghost use Rattle.outside.specs.Faults.{HasCause};
ghost use Rattle.poudriere_cli.specs.Failing.{IsOuterOf};

use outside::Outer;
use std::io::{self, ErrorKind};

/// What a failed call of the system means to an adapter: want of memory, or a fault.
pub fn outer(error: io::Error) -> Outer
    ensures { IsOuterOf (error_kind error) result }
{
    match error.kind() {
        ErrorKind::OutOfMemory => Outer::NoMemory,
        _ => Outer::Fault,
    }
}

/// Hands an answer on, and counts it if it is a fault. The count stays at its last value once it is there.
pub fn noted<T>(faults: &mut u64, answer: Result<T, Outer>) -> Result<T, Outer>
    ensures same { result ≡ answer }
    ensures cause { HasCause faults.old faults.new result }
{
    if let Err(Outer::Fault) = answer {
        *faults = faults.saturating_add(1);
    }
    answer
}
