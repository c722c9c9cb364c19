//! Which nodes of a ports tree a command wants: words of a list file and of the command, with flavors, followed by MOVED.
#![tactic(auto)]

mod answer;
mod command;
mod fault;
mod list_file;
mod nodes;
mod notice_list;
mod notices;
mod selection;
mod word;

pub use command::wanted;
pub use fault::WantedError;
pub use selection::Wanted;
