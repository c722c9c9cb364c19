//! What the builder meets outside: a ports tree, a package store, rooms to build in and a sink for text, as traits
//! with a written meaning, and an object in memory for each but the room, with the parts that such objects are made of.
#![tactic(auto)]

mod change;
mod failure;
mod folder;
mod gate;
mod item;
mod kept_files;
mod mem_error;
mod mem_sink;
mod mem_store;
mod mem_tree;
mod outer;
mod room;
mod sink;
mod store;
mod tree;
mod ways;

pub use change::Change;
pub use failure::{CallKind, Fail, Fails, Failures};
pub use folder::Folder;
pub use gate::{Gate, MeetGate, OpenGate};
pub use item::{Item, Items};
pub use mem_error::MemError;
pub use mem_sink::MemSink;
pub use mem_store::MemStore;
pub use mem_tree::MemTree;
pub use outer::Outer;
pub use room::Room;
pub use sink::Sink;
pub use store::Store;
pub use tree::Tree;
pub use ways::{Untold, Ways};
