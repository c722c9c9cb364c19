// Files and switches: the plain records that lists are made of.
use crate::path::Path;
use crate::sequence::{Bytes, Sequence};
use crate::text::Text;

/// An option's name and whether it is on.
#[derive(Debug, Drop)]
pub struct Switch {
    /// The option's name.
    pub name: Text,
    /// Whether the option is on.
    pub on: bool,
}

/// A list of switches.
pub type Switches = Sequence<Switch>;

/// A file: its path and its bytes.
#[derive(Debug, Drop)]
pub struct FileItem {
    /// Where the file stands.
    pub path: Path,
    /// What the file holds.
    pub bytes: Bytes,
}

/// A list of files.
pub type Files = Sequence<FileItem>;
