//! The table from which builders claim nodes, and in which they leave what came of them.
#![tactic(auto)]

mod calls;
mod ends;
mod fetch;
mod make;
mod rule;
mod table;
mod view;
mod word;

pub use calls::Taken;
pub use fetch::FetchError;
pub use rule::Rule;
pub use table::{Seat, Table, Ticket};
pub use view::{Found, Key, Task, View};
pub use word::Word;
