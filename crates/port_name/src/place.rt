// Where a port stands in the tree.
use bulk_base::Text;

/// A port's place in the tree: its category and its own name, each 1 to 64 letters, digits, `_`, `-`, `.` and `+`, the first
/// a letter, a digit or `_` (Porter's Handbook).
#[derive(Debug, Drop)]
pub struct Origin {
    /// The category.
    pub category: Text,
    /// The port.
    pub port: Text,
}
