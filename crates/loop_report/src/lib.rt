//! The loop of dependencies that keeps a plan from being built, exactly.
#![tactic(auto)]

mod law;
mod reported;
mod staying;
mod walking;

pub use law::an_order_or_a_loop;
pub use reported::loop_of;
