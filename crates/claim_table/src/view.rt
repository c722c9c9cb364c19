// What a table is about, and what a seat knows.
use crate::word::Word;
use bulk_model::{Kept, Numbers, Plan};
use std::snapshot::Snapshot;

/// What a table is about. Contracts alone speak of it; no value of it is made.
pub struct Task {
    /// The plan.
    pub plan: Plan,
    /// The packages that are kept.
    pub kept: Kept,
}

/// A node, and the word that a step found there.
pub struct Found {
    /// The node.
    pub node: u32,
    /// Its word.
    pub word: Word,
}

/// What a seat knows. Contracts alone speak of it; no value of it is made.
pub struct View {
    /// What the table is about; none where the seat was joined away.
    pub task: Option<Task>,
    /// The seat's number of shares. All seats of a table have 4,294,967,296 together.
    pub shares: u64,
    /// The node that the seat has claimed and not ended.
    pub holds: Option<u32>,
    /// The node whose reading the seat has begun and not closed.
    pub reads: Option<u32>,
    /// The nodes that the seat knows as built or kept.
    pub built: Numbers,
    /// The nodes that the seat knows as failed, skipped or ignored.
    pub bad: Numbers,
    /// The nodes that the seat claimed.
    pub claims: Numbers,
    /// The nodes that it claimed and gave up.
    pub given: Numbers,
    /// The number of its steps at nodes.
    pub steps: u64,
    /// What the latest of these steps found.
    pub last: Option<Found>,
}

/// What a table is told once, when it is made.
#[derive(Drop)]
pub struct Key {
    /// The plan.
    pub plan: Snapshot<Plan>,
    /// The packages that are kept.
    pub kept: Snapshot<Kept>,
}
