//! The desk at which builders put packages into one store, dependencies first.
#![tactic(auto)]

mod attempt;
mod calls;
mod desk;
mod rule;
mod turn;
mod view;

pub use attempt::Keep;
pub use desk::{Desk, DeskRefused, DeskSeat, Desked};
pub use rule::Rule;
pub use view::{Held, Key, Origin, View};
