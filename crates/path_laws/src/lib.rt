//! Laws on paths and lists of paths, each the contract of a function that does nothing.
#![tactic(auto)]

mod laws;

pub use laws::{joined_collide_alike, rests_are_lists};
