//! The index of a ports tree: every node with its description, its options and where its dependencies lead.
#![tactic(auto)]

mod category;
mod depends;
mod fault;
mod found;
mod indexing;
mod listing;
mod moved_file;
mod name_list;
mod node;
mod node_map;
mod node_numbers;
mod place;
mod port_fault;
mod port_node;
mod port_reading;
mod ports_index;
mod resolving;
mod tree_reading;
mod twins;
mod var_file;

pub use depends::{depends_of, edges_of};
pub use fault::{IndexError, PortKind};
pub use indexing::index;
pub use node::{At, NodeInfo, NodeInfos, Target, Targets};
pub use place::{distinfo_file, files_folder, origin_name, plist_file, port_file, port_folder};
pub use ports_index::Index;
