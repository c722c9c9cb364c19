//! What a run does with a package store: what of it goes, and what stays for the plan.
#![tactic(auto)]

mod keeping;
mod leaving;
mod loading;
mod sifting;

pub use sifting::{Sifted, sift_all, sift_store};
