// Trees in memory.
use crate::memory::{MemError, MemTree, Outer, Tree};
use bulk_base::{Files, Paths};
use case_text::{
    CaseError, fails_of, files_of, number_of, path_of, push_number, push_str, push_text,
};
use std::alloc::{AllocError, Global};

/// The tree of some files, in which some calls fail. Unfit where one file is a folder of another.
pub(crate) fn tree_of(alloc: Global, files: Files, fails: &str) -> Result<MemTree, CaseError> {
    match MemTree::new(alloc, files, fails_of(alloc, fails, "tree")?) {
        Ok(tree) => Ok(tree),
        Err(MemError::NotFolder { .. }) => Err(CaseError::Unfit),
        Err(MemError::NoMemory) => Err(CaseError::NoMemory),
    }
}

/// Puts paths at the end, or that the call failed.
pub(crate) fn push_paths(
    found: &Result<Paths, Outer>,
    out: &mut Vec<u8>,
) -> Result<(), AllocError> {
    match found {
        Ok(paths) => {
            push_str(out, "[")?;
            for path in paths {
                push_str(out, " ")?;
                push_text(out, path.text())?;
            }
            push_str(out, " ]")
        }
        Err(Outer::Fault) => push_str(out, "Fault"),
        Err(Outer::NoMemory) => push_str(out, "NoMemory"),
    }
}

/// Puts a file at the end, or that there is none, or that the call failed.
pub(crate) fn push_file(
    found: &Result<Option<Vec<u8>>, Outer>,
    out: &mut Vec<u8>,
) -> Result<(), AllocError> {
    match found {
        Ok(Some(bytes)) => {
            push_str(out, "=")?;
            out.extend_from_slice(bytes.as_slice())
        }
        Ok(None) => push_str(out, "none"),
        Err(Outer::Fault) => push_str(out, "Fault"),
        Err(Outer::NoMemory) => push_str(out, "NoMemory"),
    }
}

/// Puts at the end what a call of the tree answers.
fn push_call(
    alloc: Global,
    tree: &mut MemTree,
    call: &[&str],
    out: &mut Vec<u8>,
) -> Result<(), CaseError> {
    match call {
        ["names", folder] => Ok(push_paths(&tree.names(alloc, &path_of(alloc, folder)?), out)?),
        ["bytes", most, file] => {
            let found = tree.bytes(alloc, &path_of(alloc, file)?, number_of(most)?);
            Ok(push_file(&found, out)?)
        }
        _ => Err(CaseError::Unfit),
    }
}

fn push_calls(
    alloc: Global,
    tree: &mut MemTree,
    calls: &str,
    out: &mut Vec<u8>,
) -> Result<(), CaseError> {
    for call in calls.split(';') {
        let words: Vec<&str> = call.split(' ').collect(alloc)?;
        push_call(alloc, tree, words.as_slice(), out)?;
        push_str(out, "; ")?;
    }
    push_str(out, "faults ")?;
    Ok(push_number(alloc, out, tree.faults())?)
}

/// What the calls of a tree answer, one after another, and how many of them failed; or which file is a folder of another.
pub(crate) fn answer_tree(
    alloc: Global,
    files: &str,
    fails: &str,
    calls: &str,
    out: &mut Vec<u8>,
) -> Result<(), CaseError> {
    match MemTree::new(alloc, files_of(alloc, files)?, fails_of(alloc, fails, "")?) {
        Ok(mut tree) => push_calls(alloc, &mut tree, calls, out),
        Err(MemError::NotFolder { path }) => {
            push_str(out, "NotFolder ")?;
            Ok(push_text(out, path.text())?)
        }
        Err(MemError::NoMemory) => Err(CaseError::NoMemory),
    }
}
