//! The files of a plan's jobs and of its base root, read from a ports tree: a port's own files and its distfiles.
#![tactic(auto)]

mod base_files;
mod dist_list;
mod distfile;
mod fault;
mod folder_files;
mod gathered;
mod node_files;
mod reserved;
mod together;

pub use base_files::read_base;
pub use fault::PlanError;
pub use gathered::Gathered;
pub use node_files::read_node_files;
