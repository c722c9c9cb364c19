// Why a port's variables are no description.
ghost use Rattle.std.specs.Prelude.{◌≡◌};
ghost use Rattle.port_desc.specs.declared.fault.DescError.TheVariants.{NoMemory as Refused};

use bulk_base::Text;
use std::alloc::AllocError;
use thiserror::Error;

/// Why a port's variables gave no flavors or no description.
#[derive(Debug, Drop, Error)]
pub enum DescError {
    /// The first word of FLAVORS that is no flavor, is `all`, or stands there already.
    #[error("bad flavor {flavor}")]
    BadFlavor {
        /// The word.
        flavor: Text,
    },
    /// A variable that every port sets is not set, or its value is empty.
    #[error("missing {name}")]
    Missing {
        /// The variable: PORTNAME or PORTVERSION.
        name: Text,
    },
    /// A part of the package's name is outside its form; or the whole name is too long, for which PORTNAME is blamed.
    #[error("bad value of {name}")]
    BadValue {
        /// The variable, also where that of a flavor stands for it.
        name: Text,
    },
    /// A word of a dependency variable that is no entry.
    #[error("bad dependency {entry}")]
    BadDepend {
        /// The word.
        entry: Text,
    },
    /// An entry with a target of make behind the port.
    #[error("dependency with a target {entry}")]
    Target {
        /// The word.
        entry: Text,
    },
    /// The port has more than 256 dependencies.
    #[error("{count} dependencies")]
    Limit {
        /// How many pairs of kind and target there are.
        count: u64,
    },
    /// Want of memory.
    #[error("out of memory")]
    NoMemory,
}

impl From<AllocError> for DescError {
    ghost from_gives = { λ _ e. e ≡ Refused };

    fn from(_: AllocError) -> DescError {
        DescError::NoMemory
    }
}
