//! One builder: it builds all that a plan leaves to be built, a node after another.
#![tactic(auto)]

mod gather;
mod run;
mod settle;
mod turns;

pub use run::{finish, run_alone};
