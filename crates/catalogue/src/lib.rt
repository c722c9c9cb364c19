//! The catalogue of a store's packages, one line of JSON for each.
#![tactic(auto)]

mod entry;
mod listing;

pub use listing::catalogue;
