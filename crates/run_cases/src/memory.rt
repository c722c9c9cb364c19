// The objects in memory that cases are about, under one roof.
pub(crate) use outside::{
    Change, Gate, Item, Items, MeetGate, MemError, MemSink, MemStore, MemTree, OpenGate, Outer,
    Room, Sink, Store, Tree,
};
pub(crate) use tiny_shell::MemRoom;
