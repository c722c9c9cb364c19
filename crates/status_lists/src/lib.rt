//! What a run of `bulk` and a dry run of it print.
#![tactic(auto)]

mod entries;
mod exit;
mod fate;
mod fates;
mod printing;
mod text;

pub use exit::{dry_status, run_status};
pub use printing::{dry_lists, lists};
