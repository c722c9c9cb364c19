// What a desk is about, what a seat knows, and what lies on the desk.
use bulk_base::{Bytes, Sequence, TextMap};
use bulk_model::{Flags, Kept, Numbers, Plan};
use outside::Change;
use std::snapshot::Snapshot;

/// What a desk is about: the plan, what is kept, and what the store was when the desk was made.
/// Contracts alone speak of it; no value of it is made.
pub struct Origin {
    /// The plan.
    pub plan: Plan,
    /// What is kept.
    pub kept: Kept,
    /// The store's journal at first.
    pub journal: Sequence<Change>,
    /// The store's content at first.
    pub content: TextMap<Bytes>,
    /// The store's count of faults at first.
    pub first: u64,
}

/// What a seat knows. Contracts alone speak of it; no value of it is made.
pub struct View {
    /// What the desk is about; none where the seat was joined away.
    pub origin: Option<Origin>,
    /// The seat's number of shares. All seats of a desk have 4,294,967,296 together.
    pub shares: u64,
    /// The store's count as the seat last knew it.
    pub seen: u64,
    /// The store's count when the seat last took the turn.
    pub since: u64,
    /// The nodes that the seat knows as saved.
    pub known: Flags,
    /// The nodes that were tried when the seat last took the turn.
    pub heard: Flags,
    /// The nodes that the seat tried itself.
    pub mine: Numbers,
    /// The number of turns that it gave back.
    pub turns: u64,
    /// Whether the count rose in one of its turns.
    pub rose: bool,
    /// Whether the seat knows that the slot was filled.
    pub mark: bool,
    /// Whether the seat has the turn.
    pub turn: bool,
}

/// What the table is told once, when the desk is made.
pub struct Key<S> {
    /// The plan.
    pub plan: Snapshot<Plan>,
    /// What is kept.
    pub kept: Snapshot<Kept>,
    /// The store at first.
    pub store: Snapshot<S>,
}

impl<S> Drop for Key<S> {
    fn drop(self) {
        let Key {
            plan: _,
            kept: _,
            store: _,
        } = self;
    }
}

/// What lies on the desk.
pub struct Held<S> {
    /// The store.
    pub store: S,
    /// The nodes whose packages were saved.
    pub saved: Flags,
    /// The nodes for which the store's `put` was called.
    pub tried: Flags,
}
