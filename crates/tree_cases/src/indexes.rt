// Indexes of trees.
use crate::nodes::push_node;
use crate::refusals::push_refusal;
use bulk_base::Files;
use case_text::{CaseError, fails_of, files_of, push_number, push_str, push_text, words_of};
use conf_file::{ConfError, MakeConf, read_make};
use outside::{MemError, MemTree};
use std::alloc::{AllocError, Global};
use tree_index::{Index, IndexError, index};

fn make_bytes(files: &Files) -> &[u8] {
    for file in files {
        if file.path.bytes() == b"etc/make.conf".as_slice() {
            return file.bytes.as_slice();
        }
    }
    &[]
}

fn make_of(alloc: Global, files: &Files) -> Result<MakeConf, CaseError> {
    match read_make(alloc, make_bytes(files)) {
        Ok(make) => Ok(make),
        Err(ConfError::BadLine { .. }) => Err(CaseError::Unfit),
        Err(ConfError::NoMemory) => Err(CaseError::NoMemory),
    }
}

fn tree_of(alloc: Global, files: Files, fails: &str) -> Result<MemTree, CaseError> {
    match MemTree::new(alloc, files, fails_of(alloc, fails, "")?) {
        Ok(tree) => Ok(tree),
        Err(MemError::NotFolder { .. }) => Err(CaseError::Unfit),
        Err(MemError::NoMemory) => Err(CaseError::NoMemory),
    }
}

/// The index of a tree, and how often the tree failed.
pub(crate) fn index_of(
    alloc: Global,
    files: &str,
    fails: &str,
    try_broken: bool,
) -> Result<(Result<Index, IndexError>, u64), CaseError> {
    let files = files_of(alloc, files)?;
    let make = make_of(alloc, &files)?;
    let mut tree = tree_of(alloc, files, fails)?;
    let found = index(alloc, &mut tree, &make, try_broken);
    Ok((found, tree.faults()))
}

/// The index of a tree that has one.
pub(crate) fn good_index(alloc: Global, files: &str) -> Result<Index, CaseError> {
    let (found, _) = index_of(alloc, files, "", false)?;
    match found {
        Ok(index) => Ok(index),
        Err(_) => Err(CaseError::Unfit),
    }
}

/// Puts an index at the end: how many lines MOVED has, and the nodes.
fn push_index(alloc: Global, index: &Index, out: &mut Vec<u8>) -> Result<(), AllocError> {
    push_number(alloc, out, index.moved.lines().len() as u64)?;
    push_str(out, " moved;")?;
    let nodes = index.nodes.as_slice();
    if nodes.len() > 20 {
        return push_number(alloc, out, nodes.len() as u64);
    }
    for node in nodes {
        push_node(node, nodes, out)?;
    }
    Ok(())
}

/// Puts at the end what came of a tree; behind it, how often the tree failed, if it did.
fn push_found(
    alloc: Global,
    found: &Result<Index, IndexError>,
    faults: u64,
    out: &mut Vec<u8>,
) -> Result<(), AllocError> {
    match found {
        Ok(index) => push_index(alloc, index, out)?,
        Err(refusal) => push_refusal(alloc, refusal, out)?,
    }
    if faults == 0 {
        return Ok(());
    }
    push_str(out, "; faults ")?;
    push_number(alloc, out, faults)
}

/// The index of a tree, or its refusal; behind it, how often the tree failed, if it did.
pub(crate) fn answer_index(
    alloc: Global,
    files: &str,
    fails: &str,
    try_broken: bool,
    out: &mut Vec<u8>,
) -> Result<(), CaseError> {
    let (found, faults) = index_of(alloc, files, fails, try_broken)?;
    Ok(push_found(alloc, &found, faults, out)?)
}

fn push_there(
    alloc: Global,
    index: &Index,
    names: &str,
    out: &mut Vec<u8>,
) -> Result<(), CaseError> {
    for name in words_of(alloc, names)?.as_slice() {
        push_str(out, if index.names.holds(name) { "+" } else { "-" })?;
        push_text(out, name)?;
    }
    Ok(())
}

/// Which of some names are there.
pub(crate) fn answer_there(
    alloc: Global,
    files: &str,
    names: &str,
    out: &mut Vec<u8>,
) -> Result<(), CaseError> {
    push_there(alloc, &good_index(alloc, files)?, names, out)
}
