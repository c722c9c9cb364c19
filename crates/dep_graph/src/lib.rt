//! The graph of dependencies: what a node reaches, an order, chains of dependents, and what is installed for a build.
#![tactic(auto)]

mod chains;
mod found;
mod graph;
mod installed;
mod law;
mod order;
mod spread;
mod turned;

pub use graph::Graph;
pub use installed::{Collector, installs};
pub use law::laws;
