//! The top calls: a command's words, a tree, a store and rooms in; lists, packages and a status out.
#![tactic(auto)]

mod answer;
mod answer_line;
mod decision;
mod furnishing;
mod kind_text;
mod make_file;
mod node_job;
mod outcome_store;
mod packing;
mod phases;
mod port_builds;
mod port_files;
mod port_lists;
mod port_run;
mod port_store;
mod ports_wanted;
mod refusal;
mod room_build;
mod staging;
mod top;
mod tree_answer;
mod unserved;

pub use answer::{Answer, Closed, Finished};
pub use top::{bulk_alone, poudriere};
