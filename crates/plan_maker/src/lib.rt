//! The plan of what is wanted of a ports tree: its needed nodes with their jobs, the graph of their dependencies, the base root.
#![tactic(auto)]

mod boost;
mod finding;
mod graph;
mod job_list;
mod lost;
mod needed;
mod node_job;
mod numbering;
mod outline;
mod planning;
mod recipe_list;

pub use job_files::PlanError;
pub use planning::plan;
pub use recipe_list::recipes;
