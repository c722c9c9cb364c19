//! A room in memory, and the small shell of programs that it knows: what a test's build may run.
#![tactic(auto)]

mod mem_room;
mod program;

pub use mem_room::{MemRoom, MemWays};
