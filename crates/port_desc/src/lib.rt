//! Descriptions of ports: the flavors, and for one flavor the package's name, the commands, the dependencies and why it is
//! not built, with the first fault of a port's variables.
#![tactic(auto)]

mod commands;
mod dependencies;
mod description;
mod entry;
mod fault;
mod flavor_list;
mod naming;
mod reasons;
mod seen;
mod values;

pub use description::{Desc, describe};
pub use entry::{Entries, Entry};
pub use fault::DescError;
pub use flavor_list::flavors;
pub use naming::missing;
