//! An example of incremental runs: what the laws ask of a store and of the runs over it can be met.
#![tactic(auto)]

mod diamond;

pub use diamond::diamond_meets_premises;
