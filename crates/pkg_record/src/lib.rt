//! The package record, both ways: the bytes that a store keeps of a package. And the digest of a recipe.
#![tactic(auto)]

mod answer;
mod fault;
mod hash;
mod item_reader;
mod line_reader;
mod lines;
mod list_reader;
mod recipe_writer;
mod record_reader;
mod record_writer;
mod words;

pub use answer::Record;
pub use fault::RecordError;
pub use recipe_writer::recipe;
pub use record_reader::read;
pub use record_writer::{mark, write};
