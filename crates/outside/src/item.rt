// The files that a store in memory is handed.
use bulk_base::{Bytes, Sequence, Text};

/// A file of a store: its name and its bytes.
#[derive(Debug, Drop)]
pub struct Item {
    /// The file's name.
    pub name: Text,
    /// What the file holds.
    pub bytes: Bytes,
}

/// A list of files of a store.
pub type Items = Sequence<Item>;
