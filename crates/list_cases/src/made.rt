// Trees of numbers.
use bulk_base::{Path, Paths};
use bulk_model::Digest;
use case_text::{CaseError, number_of, path_of, push_number, push_str, push_text};
use outside::{MemTree, Outer, Tree};
use sha2::{Digest as _, Sha256};
use std::alloc::{AllocError, Global};
use tree_maker::make_tree;

fn fault_of(error: Outer) -> CaseError {
    match error {
        Outer::Fault => CaseError::Unfit,
        Outer::NoMemory => CaseError::NoMemory,
    }
}

fn tree_of(alloc: Global, number: &str, ports: &str) -> Result<MemTree, CaseError> {
    let number = number_of(number)?;
    let ports = number_of(ports)?;
    if ports > 8192 {
        return Err(CaseError::Unfit);
    }
    Ok(make_tree(alloc, number, ports as u32)?)
}

fn files_in(alloc: Global, tree: &mut MemTree) -> Result<Paths, CaseError> {
    let folder = path_of(alloc, "ports")?;
    match tree.names(alloc, &folder) {
        Ok(paths) => Ok(paths),
        Err(error) => Err(fault_of(error)),
    }
}

fn bytes_at(alloc: Global, tree: &mut MemTree, path: &Path) -> Result<Vec<u8>, CaseError> {
    match tree.bytes(alloc, path, u64::MAX) {
        Ok(Some(bytes)) => Ok(bytes),
        Ok(None) => Err(CaseError::Unfit),
        Err(error) => Err(fault_of(error)),
    }
}

/// Puts a file at the end: a line with its length and its path, and its bytes.
fn push_file(
    alloc: Global,
    path: &Path,
    bytes: &[u8],
    all: &mut Vec<u8>,
) -> Result<(), AllocError> {
    push_number(alloc, all, bytes.len() as u64)?;
    push_str(all, " ")?;
    push_text(all, path.text())?;
    push_str(all, "\n")?;
    all.extend_from_slice(bytes)
}

/// All files, one behind another, and how many bytes they have together.
fn push_files(
    alloc: Global,
    tree: &mut MemTree,
    paths: &Paths,
    all: &mut Vec<u8>,
) -> Result<u64, CaseError> {
    let mut size: u64 = 0;
    for path in paths {
        let bytes = bytes_at(alloc, tree, path)?;
        size = size.saturating_add(bytes.len() as u64);
        push_file(alloc, path, bytes.as_slice(), all)?;
    }
    Ok(size)
}

fn push_summary(
    alloc: Global,
    count: usize,
    size: u64,
    all: &[u8],
    out: &mut Vec<u8>,
) -> Result<(), AllocError> {
    let digest = Digest {
        bytes: Sha256::digest(all),
    };
    push_number(alloc, out, count as u64)?;
    push_str(out, " files, ")?;
    push_number(alloc, out, size)?;
    push_str(out, " bytes, sha256 ")?;
    push_text(out, &digest.hex(alloc)?)
}

fn push_tree(alloc: Global, tree: &mut MemTree, out: &mut Vec<u8>) -> Result<(), CaseError> {
    let paths = files_in(alloc, tree)?;
    let mut all = Vec::new(alloc);
    let size = push_files(alloc, tree, &paths, &mut all)?;
    Ok(push_summary(alloc, paths.len(), size, all.as_slice(), out)?)
}

/// The tree of a number with so many ports: how many files, their bytes, and the digest of all of
/// them.
pub(crate) fn answer_tree(
    alloc: Global,
    number: &str,
    ports: &str,
    out: &mut Vec<u8>,
) -> Result<(), CaseError> {
    let mut tree = tree_of(alloc, number, ports)?;
    push_tree(alloc, &mut tree, out)
}

fn push_one(
    alloc: Global,
    tree: &mut MemTree,
    path: &Path,
    out: &mut Vec<u8>,
) -> Result<(), CaseError> {
    let bytes = bytes_at(alloc, tree, path)?;
    Ok(out.extend_from_slice(bytes.as_slice())?)
}

/// One file of such a tree.
pub(crate) fn answer_file(
    alloc: Global,
    fields: [&str; 3],
    out: &mut Vec<u8>,
) -> Result<(), CaseError> {
    let path = path_of(alloc, fields[2])?;
    let mut tree = tree_of(alloc, fields[0], fields[1])?;
    push_one(alloc, &mut tree, &path, out)
}
