//! How a run ends: its answer, the one line that is printed of a refusal or a fault, and the exit
//! status.
#![tactic(auto)]

mod answer;
mod answer_line;
mod blame;
mod ending;
mod kind_text;

pub use answer::Answer;
pub use answer_line::write_line;
pub use blame::{store_answer, tree_answer};
pub use ending::{Closed, Finished, exit_status};
