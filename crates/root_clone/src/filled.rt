// What becomes of a room that is filled.
use bulk_base::Path;

/// What became of a room that was to be filled.
#[derive(Debug, Drop)]
pub enum Fill {
    /// All files have their places.
    Ready,
    /// An installed file collides with one before it.
    Conflict {
        /// The file's path, as its package has it.
        path: Path,
    },
}
