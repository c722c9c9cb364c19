// What the refusals of the readers below are told as.
ghost use Rattle.std.specs.Prelude.{◌≡◌, true, false};
ghost use Rattle.run_answer.specs.Kind.{blames_tree, is_of_reading, is_refusal};
ghost use Rattle.run_plan.specs.Answering.{is_of_command};
ghost use Rattle.run_plan.specs.Told as told;

use bulk_base::{Path, Text};
use conf_file::ConfError;
use job_files::PlanError;
use origin_flavor::WantedError;
use run_answer::Answer;
use std::alloc::Global;
use tree_index::IndexError;

/// A fault of a file of settings; NoMemory where its path cannot be copied.
pub(crate) fn conf_answer(alloc: Global, path: &Path, fault: ConfError) -> Answer
    ensures told { is_refusal result ≡ true → result ≡ told.conf_answer path.now fault }
    ensures reading { is_of_reading result ≡ true }
    ensures quiet { blames_tree result ≡ false }
    ensures files { is_of_command result ≡ false }
{
    match fault {
        ConfError::BadLine { line, kind } => match path.text().copy(alloc) {
            Ok(path) => Answer::BadConf { path, line, kind },
            Err(_) => Answer::NoMemory,
        },
        ConfError::NoMemory => Answer::NoMemory,
    }
}

/// A refusal of the index.
pub(crate) fn index_answer(fault: IndexError) -> Answer
    ensures told { result ≡ told.index_answer fault }
    ensures files { is_of_command result ≡ false }
{
    match fault {
        IndexError::TreeFault => Answer::TreeFault,
        IndexError::BadPort { path, line, kind } => Answer::BadPort { path, line, kind },
        IndexError::Limit { which, count } => Answer::Limit { which, count },
        IndexError::DupName { a, b, name } => Answer::DupName { a, b, name },
        IndexError::NoMemory => Answer::NoMemory,
    }
}

/// A list's first bad line; NoMemory where its path cannot be copied.
fn list_answer(alloc: Global, path: &Text, line: u32) -> Answer
    ensures told { is_refusal result ≡ true → result ≡ Answer.BadList path.now line }
    ensures reading { is_of_reading result ≡ true }
    ensures quiet { blames_tree result ≡ false }
    ensures files { is_of_command result ≡ false }
{
    match path.copy(alloc) {
        Ok(path) => Answer::BadList { path, line },
        Err(_) => Answer::NoMemory,
    }
}

/// A refusal of the list with that path, or of a word.
pub(crate) fn wanted_answer(alloc: Global, path: &Text, fault: WantedError) -> Answer
    ensures told { is_refusal result ≡ true → result ≡ told.wanted_answer path.now fault }
    ensures reading { is_of_reading result ≡ true }
    ensures quiet { blames_tree result ≡ false }
    ensures files { is_of_command result ≡ false }
{
    match fault {
        WantedError::BadList { line } => list_answer(alloc, path, line),
        WantedError::NoOrigin { word } => Answer::NoOrigin { word },
        WantedError::NoFlavor { word } => Answer::NoFlavor { word },
        WantedError::Gone { word, reason } => Answer::Gone { word, reason },
        WantedError::MovedLoop { origins } => Answer::MovedLoop { origins },
        WantedError::NoMemory => Answer::NoMemory,
    }
}

/// A refusal of the plan.
pub(crate) fn plan_answer(fault: PlanError) -> Answer
    ensures told { result ≡ told.plan_answer fault }
    ensures files { is_of_command result ≡ false }
{
    match fault {
        PlanError::NoDepend { port, origin } => Answer::NoDepend { port, origin },
        PlanError::MovedDepend { port, old, new } => Answer::MovedDepend { port, old, new },
        PlanError::Limit { which, count } => Answer::Limit { which, count },
        PlanError::Loop { ports } => Answer::Loop { ports },
        PlanError::TreeFault => Answer::TreeFault,
        PlanError::BadPort { path, line, kind } => Answer::BadPort { path, line, kind },
        PlanError::BadDist { port, file, why } => Answer::BadDist { port, file, why },
        PlanError::NoMemory => Answer::NoMemory,
    }
}
