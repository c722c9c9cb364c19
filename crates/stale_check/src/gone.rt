// What goes of a store.
use bulk_model::{Flags, Stales};

/// What goes of a store.
#[derive(Debug, Drop)]
pub struct Gone {
    /// The files that go, by name, each with its reason.
    pub files: Stales,
    /// A mark for each package of the store, in their order, at those that go.
    pub lost: Flags,
}
