//! Texts, paths and lists in form: the words that every layer of the builder speaks in.
#![tactic(auto)]

mod copying;
mod file;
mod known;
mod line;
mod numeral;
mod order;
mod path;
mod path_map;
mod place;
mod sequence;
mod text;
mod text_map;
mod trimming;
mod word;

pub use copying::{add_copies, copies, copy_of, switch_copies};
pub use file::{FileItem, Files, Switch, Switches};
pub use line::{NumberedLine, Span, Spans, lines, numbered_line};
pub use numeral::{decimal, number};
pub use order::{in_order, lower};
pub use path::{Path, PathError, Paths};
pub use path_map::PathMap;
pub use place::{cut, place_or_end};
pub use sequence::{Bytes, NoMemory, Sequence};
pub use text::{Text, TextError, Texts, is_text};
pub use text_map::TextMap;
pub use trimming::{trim, trim_start};
pub use word::{is_blank, words};
