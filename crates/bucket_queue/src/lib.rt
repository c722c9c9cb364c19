//! The queue of a plan's nodes: which node is built next.
#![tactic(auto)]

mod begin;
mod close;
mod law;
mod mark;
mod orders;
mod queue;

pub use law::queue_gives_order;
pub use mark::Mark;
pub use orders::{dry_order, order};
pub use queue::Queue;
