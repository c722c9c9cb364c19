//! Variable files: `NAME=VALUE` lines with joined lines, comments, references and exact places of faults.
#![tactic(auto)]

mod assignment;
mod comment;
mod fault;
mod joined;
mod limits;
mod name;
mod operator;
mod piece;
mod reference;
mod value_words;
mod vars;

pub use fault::{LineKind, VarsError};
pub use value_words::words_in;
pub use vars::{Vars, read_list, read_vars};
