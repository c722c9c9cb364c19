// What the refusals of the tree's readers are told as.
ghost use Rattle.std.specs.Prelude.{◌≡◌, ◌≢◌, ℕ, true, false};
ghost use Rattle.one_port.specs.Causes.{blames_tree, is_refusal};
ghost use Rattle.one_port.specs.Decided.{is_of_reading};
ghost use Rattle.one_port.specs.TreeAnswers as told;

use crate::answer::Answer;
use bulk_base::{Path, Text};
use bulk_model::Which;
use conf_file::ConfError;
use origin_flavor::WantedError;
use outside::Outer;
use std::alloc::Global;
use tree_index::IndexError;

/// A failure of the tree, or want of memory.
pub(crate) fn tree_answer(outer: Outer) -> Answer
    ensures reading { is_of_reading result ≡ true }
    ensures refusal { is_refusal result ≡ false }
    ensures fault { blames_tree result ≡ true → outer ≡ Outer.Fault }
    ensures memory { blames_tree result ≡ false → outer ≡ Outer.NoMemory }
{
    match outer {
        Outer::Fault => Answer::TreeFault,
        Outer::NoMemory => Answer::NoMemory,
    }
}

/// A file that is not served yet.
pub(crate) fn not_yet(alloc: Global, path: &Text) -> Answer
    ensures told { is_refusal result ≡ true → result ≡ Answer.NotYet path.now }
    ensures reading { is_of_reading result ≡ true }
    ensures quiet { blames_tree result ≡ false }
{
    match path.copy(alloc) {
        Ok(path) => Answer::NotYet { path },
        Err(_) => Answer::NoMemory,
    }
}

/// A fault of a file of settings.
pub(crate) fn conf_answer(alloc: Global, path: &Path, fault: ConfError) -> Answer
    ensures told { is_refusal result ≡ true → result ≡ told.conf_answer path.now fault }
    ensures reading { is_of_reading result ≡ true }
    ensures quiet { blames_tree result ≡ false }
{
    match fault {
        ConfError::BadLine { line, kind } => match path.text().copy(alloc) {
            Ok(path) => Answer::BadConf { path, line, kind },
            Err(_) => Answer::NoMemory,
        },
        ConfError::NoMemory => Answer::NoMemory,
    }
}

fn limit_answer(alloc: Global, which: Which, count: u64) -> Answer
    ensures told { is_refusal result ≡ true → result ≡ told.limit_answer which count }
    ensures reading { is_of_reading result ≡ true }
    ensures quiet { blames_tree result ≡ false }
{
    match which {
        Which::FileBytes => match Text::literal(alloc, b"ports/MOVED") {
            Ok(path) => Answer::NotYet { path },
            Err(_) => Answer::NoMemory,
        },
        _ => Answer::Limit { which, count },
    }
}

/// A refusal of the index. A MOVED that is too large is not served yet.
pub(crate) fn index_answer(alloc: Global, fault: IndexError) -> Answer
    ensures told { is_refusal result ≡ true → result ≡ told.index_answer fault }
    ensures reading { is_of_reading result ≡ true }
    ensures fault { blames_tree result ≡ true → fault ≡ IndexError.TreeFault }
    ensures other { blames_tree result ≡ false → fault ≢ IndexError.TreeFault }
{
    match fault {
        IndexError::TreeFault => Answer::TreeFault,
        IndexError::BadPort { path, line, kind } => Answer::BadPort { path, line, kind },
        IndexError::Limit { which, count } => limit_answer(alloc, which, count),
        IndexError::DupName { a, b, name } => Answer::DupName { a, b, name },
        IndexError::NoMemory => Answer::NoMemory,
    }
}

/// A refusal of a word of the command, where no list file was read.
pub(crate) fn wanted_answer(fault: WantedError) -> Answer
    requires { (line : ℕ) → fault ≢ WantedError.BadList line }
    ensures told { is_refusal result ≡ true → result ≡ told.wanted_answer fault }
    ensures reading { is_of_reading result ≡ true }
    ensures quiet { blames_tree result ≡ false }
{
    match fault {
        WantedError::BadList { .. } => unreachable!(),
        WantedError::NoOrigin { word } => Answer::NoOrigin { word },
        WantedError::NoFlavor { word } => Answer::NoFlavor { word },
        WantedError::Gone { word, reason } => Answer::Gone { word, reason },
        WantedError::MovedLoop { origins } => Answer::MovedLoop { origins },
        WantedError::NoMemory => Answer::NoMemory,
    }
}
