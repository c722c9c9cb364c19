// A change of a store.
use bulk_base::{Bytes, Text};

/// A change of a store that took effect, as its journal tells it.
#[derive(Debug, Drop)]
pub enum Change {
    /// A file was put, in place of the one of that name if there was one.
    Put {
        /// The file's name.
        name: Text,
        /// What it holds.
        bytes: Bytes,
    },
    /// A file that was there was removed.
    Remove {
        /// The file's name.
        name: Text,
    },
}
