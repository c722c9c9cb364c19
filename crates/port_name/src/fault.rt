// Why a word or a port's parts are no name.
ghost use Rattle.std.specs.Prelude.{◌≡◌};
ghost use Rattle.port_name.specs.declared.fault.NameError.TheVariants.{NoMemory as Refused};

use std::alloc::AllocError;
use thiserror::Error;

/// A name, or a part of a package's name (Porter's Handbook, "Naming").
#[derive(Clone, Copy, Debug, PartialEq, Eq, Error)]
pub enum NamePart {
    /// A category and a port with `/` between.
    #[error("origin")]
    Origin,
    /// The name of a flavor.
    #[error("flavor")]
    Flavor,
    /// PKGNAMEPREFIX.
    #[error("PKGNAMEPREFIX")]
    Prefix,
    /// PORTNAME.
    #[error("PORTNAME")]
    Portname,
    /// PKGNAMESUFFIX.
    #[error("PKGNAMESUFFIX")]
    Suffix,
    /// PORTVERSION.
    #[error("PORTVERSION")]
    Version,
    /// PORTREVISION.
    #[error("PORTREVISION")]
    Revision,
    /// PORTEPOCH.
    #[error("PORTEPOCH")]
    Epoch,
}

/// Why there is no name.
#[derive(Clone, Copy, Debug, PartialEq, Eq, Error)]
pub enum NameError {
    /// The first part that is outside its form.
    #[error("bad {which}")]
    BadName {
        /// Which part it is.
        which: NamePart,
    },
    /// Want of memory.
    #[error("out of memory")]
    NoMemory,
}

impl From<AllocError> for NameError {
    ghost from_gives = { λ _ e. e ≡ Refused };

    fn from(_: AllocError) -> NameError {
        NameError::NoMemory
    }
}
