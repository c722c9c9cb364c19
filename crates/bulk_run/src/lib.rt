//! The calls of `bulk`: what a run of it does, from its words to what it prints.
#![tactic(auto)]

mod dry_report;
mod ending;
mod top;

pub use run_answer::{Answer, Closed, Finished};
pub use top::dry_run;
