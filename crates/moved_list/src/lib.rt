//! MOVED: ports that moved or were removed, and where a name leads by it.
#![tactic(auto)]

mod chain;
mod entry;
mod fault;
mod line;
mod moved;
mod walk;

pub use chain::Follow;
pub use fault::MovedError;
pub use line::{MovedLine, MovedLines};
pub use moved::{Moved, read_moved};
pub use walk::follow;
