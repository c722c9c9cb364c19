//! Laws of package records that no other crate cites: each is the contract of a function that does nothing.
#![tactic(auto)]

mod recipes;
mod records;
mod stores;
mod units;

pub use recipes::each_recipe_has_its_text;
pub use records::no_record_begins_another;
pub use stores::{
    other_changes_leave_all, packages_are_there, puts_are_packages, removals_leave_others,
};
pub use units::{bad_field_is_unfit, short_is_unfinished};
