//! Laws of incremental runs, each the contract of a function that does nothing: what a store keeps is
//! what a clean run builds, and a store stays sound while a run changes it.
#![tactic(auto)]

mod laws;

pub use laws::{
    done_runs_are_clean, each_content_is_closed, each_content_is_sound, empty_is_store,
    fresh_is_made, incremental_is_clean, kept_is_built, one_more_stays_sound, runs_stay_sound,
    saves_stay_sound,
};
