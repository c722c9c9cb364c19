//! A build in a room: the room is filled, the commands of five phases run, and what they staged is
//! packed.
#![tactic(auto)]

mod marks;
mod packing;
mod phases;
mod runner;
mod staging;

pub use runner::Runner;
