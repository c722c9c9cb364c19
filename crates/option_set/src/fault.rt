// Why a port's options have no state.
ghost use Rattle.std.specs.Prelude.{◌≡◌};
ghost use Rattle.option_set.specs.declared.fault.OptionError.TheVariants.{NoMemory as Refused};

use bulk_base::{Text, Texts};
use std::alloc::AllocError;
use thiserror::Error;

/// Why a port's options have no state (Porter's Handbook, "Options"; docs/FORMATS.md, "Options").
#[derive(Debug, Drop, Error)]
pub enum OptionError {
    /// A word that names an option is no option's name, or no option that the port defines.
    #[error("undefined option {name}")]
    Undefined {
        /// The word.
        name: Text,
    },
    /// A group has too many or too few options on.
    #[error("option group {group}")]
    Group {
        /// The group's name.
        group: Text,
        /// Its members that are on, in byte order.
        on: Texts,
    },
    /// An option that is on prevents another one that is.
    #[error("option {a} prevents {b}")]
    Prevented {
        /// The option that prevents.
        a: Text,
        /// The option that it prevents.
        b: Text,
    },
    /// The port defines more than 256 options.
    #[error("{count} options")]
    Limit {
        /// How many it defines.
        count: u64,
    },
    /// Want of memory.
    #[error("out of memory")]
    NoMemory,
}

impl From<AllocError> for OptionError {
    ghost from_gives = { λ _ e. e ≡ Refused };

    fn from(_: AllocError) -> OptionError {
        OptionError::NoMemory
    }
}
