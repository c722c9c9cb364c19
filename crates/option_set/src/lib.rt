//! Options of ports: which of them the layers of settings turn on, and whether their groups allow that.
#![tactic(auto)]

mod asking;
mod choice;
mod defining;
mod fault;
mod group;
mod implied;
mod layers;
mod listed;
mod listing;
mod prevented;
mod read;
mod refusal;
mod stack;

pub use asking::asked;
pub use choice::choose;
pub use fault::OptionError;
pub use layers::Layers;
