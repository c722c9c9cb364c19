//! Overlay trees: ports of one's own laid over a ports tree, which is left as it is.
#![tactic(auto)]

mod layers;
mod merging;
mod overlay;
mod pieces;
mod placing;

pub use overlay::Overlay;
