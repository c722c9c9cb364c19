//! Plans of case programs: written in a line, or of a shape, with kept packages and given outcomes.
#![tactic(auto)]

mod baker;
mod kept;
mod many;
mod plans;
mod ports;
mod testing;
mod written;

pub use baker::{Scripted, fault_of, plain, plain_outcome};
pub use kept::{fits_kept, fits_partial, is_ignored, is_kept};
pub use many::{mixed, next_number, plan_in, plan_marked, plan_with};
pub use plans::{fails_of, given_of, kept_of, none_kept, plan_from};
pub use written::{Marks, Written, written_of};
