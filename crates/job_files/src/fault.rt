// Why there is no plan.
ghost use Rattle.std.specs.Prelude.{◌≡◌};
ghost use Rattle.job_files.specs.declared.fault.PlanError.TheVariants.{NoMemory as Refused};

use bulk_base::{Path, Text, Texts};
use bulk_model::Which;
use dist_files::DistWhy;
use outside::Outer;
use std::alloc::AllocError;
use tree_index::PortKind;

/// Why there is no plan.
#[derive(Debug, Drop)]
pub enum PlanError {
    /// A needed node depends on what is not there.
    NoDepend {
        /// The node's name.
        port: Text,
        /// What it depends on, as its port writes it.
        origin: Text,
    },
    /// A needed node depends on a port that moved.
    MovedDepend {
        /// The node's name.
        port: Text,
        /// What it depends on, as its port writes it.
        old: Text,
        /// Where MOVED leads from there.
        new: Text,
    },
    /// A number passes its limit.
    Limit {
        /// What was counted.
        which: Which,
        /// How many there are.
        count: u64,
    },
    /// Needed nodes depend on one another in a circle.
    Loop {
        /// The names of its nodes: each depends on the next, and the last on the first, which is the least.
        ports: Texts,
    },
    /// The tree failed.
    TreeFault,
    /// A file of the tree is at fault.
    BadPort {
        /// The file's path.
        path: Text,
        /// The line's number, from 1; 0 for the whole file.
        line: u32,
        /// What is wrong.
        kind: PortKind,
    },
    /// A distfile is not the one that its port's list states.
    BadDist {
        /// The node's name.
        port: Text,
        /// The distfile.
        file: Path,
        /// What is wrong.
        why: DistWhy,
    },
    /// Want of memory.
    NoMemory,
}

impl From<AllocError> for PlanError {
    ghost from_gives = { λ _ e. e ≡ Refused };

    fn from(_: AllocError) -> PlanError {
        PlanError::NoMemory
    }
}

impl From<Outer> for PlanError {
    ghost use Rattle.job_files.specs.Faults.{tree_fault};

    ghost from_gives = { λ outer e. e ≡ tree_fault outer };

    fn from(outer: Outer) -> PlanError {
        match outer {
            Outer::Fault => PlanError::TreeFault,
            Outer::NoMemory => PlanError::NoMemory,
        }
    }
}
