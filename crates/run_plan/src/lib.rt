//! What a run of `bulk` plans, from its words to its plan: words, settings, tree, wanted nodes,
//! plan, each step a call.
#![tactic(auto)]

mod builders;
mod plan_step;
mod planned;
mod settings;
mod told;
mod tree_step;
mod wanted_step;
mod words;

pub use builders::{asked_builders, check_builders};
pub use plan_step::make_plan;
pub use planned::{Planned, plan_run};
pub use settings::{Settings, read_settings};
pub use tree_step::index_tree;
pub use wanted_step::find_wanted;
pub use words::read_bulk;
