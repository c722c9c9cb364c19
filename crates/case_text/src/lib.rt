//! The lines of case programs: their fields, with marks for what a line cannot show.
#![tactic(auto)]

mod fault;
mod fields;
mod pushing;
mod showing;
mod trees;
mod undone;

pub use fault::CaseError;
pub use fields::{bytes_of, number_of, option_of, path_of, text_of, words_of};
pub use pushing::{push_number, push_str, push_text, push_texts};
pub use showing::{shown, shown_answer};
pub use trees::{fails_of, files_of};
pub use undone::push_bytes;
