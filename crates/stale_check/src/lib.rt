//! Which files of a store go, and why: packages that no longer fit the tree, and those that recorded them.
#![tactic(auto)]

mod changes;
mod checking;
mod files;
mod gone;
mod holder;
mod holders;
mod law;
mod lost;
mod marks;
mod numbering;
mod own;
mod reading;

pub use checking::{ask_for_all, find_gone, held, stale};
pub use gone::Gone;
pub use law::{fresh_is_closed, fresh_is_greatest, greatest_is_fresh, no_reason_is_current};
pub use numbering::node_of;
