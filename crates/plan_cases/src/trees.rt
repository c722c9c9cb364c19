// The trees of cases, and the nodes that words name.
ghost use Rattle.std.specs.Prelude.{◌<◌, length, IfOk};
ghost use Rattle.std.specs.List.{AllByRecursion};

use bulk_base::Text;
use bulk_model::Numbers;
use case_text::{CaseError, fails_of, files_of, words_of};
use conf_file::{ConfError, MakeConf, read_make};
use origin_flavor::{WantedError, wanted};
use outside::{MemError, MemTree};
use std::alloc::Global;
use tree_index::{Index, index};

fn no_make(alloc: Global) -> Result<MakeConf, CaseError> {
    match read_make(alloc, b"") {
        Ok(make) => Ok(make),
        Err(ConfError::BadLine { .. }) => Err(CaseError::Unfit),
        Err(ConfError::NoMemory) => Err(CaseError::NoMemory),
    }
}

/// A tree with these files, of which some calls fail.
pub(crate) fn tree_of(alloc: Global, files: &str, fails: &str) -> Result<MemTree, CaseError> {
    match MemTree::new(alloc, files_of(alloc, files)?, fails_of(alloc, fails, "")?) {
        Ok(tree) => Ok(tree),
        Err(MemError::NotFolder { .. }) => Err(CaseError::Unfit),
        Err(MemError::NoMemory) => Err(CaseError::NoMemory),
    }
}

/// The index of a tree that has one.
pub(crate) fn index_of(alloc: Global, tree: &mut MemTree) -> Result<Index, CaseError> {
    let make = no_make(alloc)?;
    match index(alloc, tree, &make, false) {
        Ok(index) => Ok(index),
        Err(_) => Err(CaseError::Unfit),
    }
}

fn wanted_of(alloc: Global, index: &Index, words: &[Text], all: bool) -> Result<Numbers, CaseError>
    ensures { IfOk result (AllByRecursion (λ n. n < length index.now.nodes)) }
{
    match wanted(alloc, index, None, words, all, false) {
        Ok(found) => Ok(found.nodes),
        Err(WantedError::NoMemory) => Err(CaseError::NoMemory),
        Err(_) => Err(CaseError::Unfit),
    }
}

/// The numbers of the nodes that a field names, or of all nodes, where it is `*`.
pub(crate) fn numbers_of(alloc: Global, index: &Index, field: &str) -> Result<Numbers, CaseError>
    ensures { IfOk result (AllByRecursion (λ n. n < length index.now.nodes)) }
{
    if field == "*" {
        return wanted_of(alloc, index, &[], true);
    }
    let words = words_of(alloc, field)?;
    wanted_of(alloc, index, words.as_slice(), false)
}
