// What is wanted of a ports tree.
use bulk_model::{Notices, Numbers};

/// What a command wants of a ports tree.
#[derive(Debug, Drop)]
pub struct Wanted {
    /// The numbers of the wanted nodes, ascending, each once.
    pub nodes: Numbers,
    /// What is told of the words that moved, in the order of the words, each word once.
    pub notices: Notices,
}
