//! What is built and what comes of it: ports as jobs, packages, plans, statuses, and what a build is.
#![tactic(auto)]

mod baking;
mod depend;
mod digest;
mod flags;
mod job;
mod outcome;
mod package;
mod plan;
mod reason;
mod results;
mod shared;
mod skip;
mod steps;
mod store_files;
mod version;
mod which;

pub use baking::Baking;
pub use depend::{DepKind, Depend, Depends, Recorded, Recordeds};
pub use digest::{Digest, MaybeDigests, Recipes};
pub use flags::Flags;
pub use job::{Job, Jobs};
pub use outcome::{Outcome, Phase};
pub use package::{Package, Packages, weight};
pub use plan::{Edge, EdgeLists, Edges, Kept, MaybePackages, MaybeTexts, Numbers, Plan};
pub use reason::{Notice, Notices, Reason, Stale, Stales};
pub use results::{MaybeOutcomes, Partial, Results, Status, Statuses};
pub use shared::Shared;
pub use skip::cause;
pub use steps::{Command, Commands, Steps};
pub use store_files::{catalogue_file, file_name, is_package_file};
pub use version::Version;
pub use which::Which;
