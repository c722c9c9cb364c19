//! The ports tree of a number: the same number makes the same tree.
#![tactic(auto)]

mod draws;
mod file;
mod making;
mod port;
mod word;

pub use making::make_tree;
