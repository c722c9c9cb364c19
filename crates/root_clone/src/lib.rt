//! The folder in which a build begins: the base root, the files of the installed packages and the
//! port's own.
#![tactic(auto)]

mod conflict;
mod filled;
mod filling;

pub use filled::Fill;
pub use filling::fill;
