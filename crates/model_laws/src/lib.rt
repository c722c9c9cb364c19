//! Laws over the definitions of the model, each the contract of a function that does nothing.
#![tactic(auto)]

mod builds;
mod plans;
mod results;
mod soundness;

pub use builds::{
    bake_is_build, bakes_give_jobs, built_have_fields, dry_builds_give_jobs, outcomes_give_jobs,
    right_builds_are_right, statuses_so_far_install,
};
pub use plans::{
    depends_are_installed, installed_all, installed_are_nodes, installed_lie_below,
    installs_are_closed, kept_installs_are_kept, nine_edges_are_enough,
};
pub use results::{
    causes_are_to_blame, causes_unfold, outcomes_decide, results_fit, results_stand,
    results_unfold, right_outcomes_tell, solutions_are_results,
};
pub use soundness::{
    closed_part_is_greatest, fewer_stay_sound, members_are_in_order, members_stay,
    rounds_install_all, sound_is_by_rounds,
};
