//! Distfiles: the list that a port has of the files that it builds from, and the check of such a file against it.
#![tactic(auto)]

mod checking;
mod dist;
mod distinfo;
mod fault;
mod left_names;
mod pairing;
mod stated;
mod statement;

pub use checking::check;
pub use dist::{Dist, Dists};
pub use distinfo::read_distinfo;
pub use fault::{DistError, DistWhy};
pub use left_names::unnamed;
