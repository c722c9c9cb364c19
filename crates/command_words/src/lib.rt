//! The words of a command line: what they ask for, as plain data.
#![tactic(auto)]

mod asked;
mod command;
mod description;
mod matches;

pub use asked::{Asked, BulkWords, Clean, CommandName, PkgCleanWords, PortWords, usage_line};
pub use command::read_words;
