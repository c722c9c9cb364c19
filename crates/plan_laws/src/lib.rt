//! Laws of plans, of the jobs of their tree and of recipes, over definitions alone.
#![tactic(auto)]

mod law;

pub use law::{
    asked_nodes_have_recipes, distfiles_are_as_stated, jobs_are_a_tree, plans_are_of_their_tree,
    recipes_are_of_the_tree,
};
