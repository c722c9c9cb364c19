// What a port names as a dependency.
use bulk_base::{Sequence, Text};
use bulk_model::DepKind;

/// A dependency as a port names it (Porter's Handbook, "Dependencies").
#[derive(Debug, Drop)]
pub struct Entry {
    /// What the target is needed for.
    pub kind: DepKind,
    /// The port: an origin, or an origin, `@` and a flavor.
    pub target: Text,
}

/// A list of dependencies.
pub type Entries = Sequence<Entry>;
