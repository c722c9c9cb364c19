// Why packages are deleted, and what a word meant.
use bulk_base::{Sequence, Text};

/// Why a package is deleted from the store.
#[derive(Clone, Copy, Debug, PartialEq, Eq)]
pub enum Reason {
    /// The file is no package record, or that of another package.
    Damaged,
    /// The file is a record of version 1.
    OldRecord,
    /// The command asked for it.
    Asked,
    /// The tree has no such port.
    NoPort,
    /// The port is ignored.
    Ignored,
    /// The port's package has another name now.
    NewName,
    /// The port's options are other ones now.
    NewOptions,
    /// The port's dependencies are other ones now.
    NewDepends,
    /// The port's recipe is another one now.
    NewRecipe,
    /// A package that it depends on is not there.
    MissingDepend,
}

/// A file of the store to be deleted, and why.
#[derive(Debug, Drop)]
pub struct Stale {
    /// The file's name.
    pub file: Text,
    /// Why it is deleted.
    pub reason: Reason,
}

/// A list of files to be deleted.
pub type Stales = Sequence<Stale>;

/// A word of the command that a moved port answered to.
#[derive(Debug, Drop)]
pub struct Notice {
    /// The word as written.
    pub word: Text,
    /// The name that the word led to.
    pub name: Text,
}

/// A list of notices.
pub type Notices = Sequence<Notice>;
