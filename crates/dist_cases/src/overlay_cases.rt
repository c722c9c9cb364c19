// Overlay trees over trees in memory.
use bulk_base::{Path, Paths, Sequence};
use case_text::{
    CaseError, fails_of, files_of, number_of, path_of, push_number, push_str, push_text,
};
use outside::{MemError, MemTree, Outer, Tree};
use overlay_tree::Overlay;
use std::alloc::{AllocError, Global};

/// The tree with the files of a field. The calls of `fails` fail whose parts begin with the tree's place.
fn tree_of(alloc: Global, place: usize, fails: &str, files: &str) -> Result<MemTree, CaseError> {
    let place = place.to_string(alloc)?;
    let fails = fails_of(alloc, fails, place.as_str())?;
    match MemTree::new(alloc, files_of(alloc, files)?, fails) {
        Ok(tree) => Ok(tree),
        Err(MemError::NotFolder { .. }) => Err(CaseError::Unfit),
        Err(MemError::NoMemory) => Err(CaseError::NoMemory),
    }
}

/// The tree of the first field with overlays of the others.
fn overlay_of(alloc: Global, fails: &str, trees: &[&str]) -> Result<Overlay<MemTree>, CaseError> {
    let Some((base, rest)) = trees.split_first() else {
        return Err(CaseError::Unfit);
    };
    let base = tree_of(alloc, 0, fails, base)?;
    let mut overlays = Sequence::new(alloc);
    let mut place = 1usize;
    for files in rest {
        overlays.push(tree_of(alloc, place, fails, files)?)?;
        place = place.saturating_add(1);
    }
    Ok(Overlay::new(base, overlays.into_vec()))
}

/// How often each tree failed, where one did.
fn push_faults(
    alloc: Global,
    overlay: Overlay<MemTree>,
    out: &mut Vec<u8>,
) -> Result<(), AllocError> {
    let (base, overlays) = overlay.into_parts();
    push_str(out, " [")?;
    push_number(alloc, out, base.faults())?;
    for tree in &overlays {
        push_str(out, " ")?;
        push_number(alloc, out, tree.faults())?;
    }
    push_str(out, "]")
}

fn push_names(answer: &Result<Paths, Outer>, out: &mut Vec<u8>) -> Result<(), AllocError> {
    match answer {
        Ok(paths) => {
            for path in paths.as_slice() {
                push_str(out, " ")?;
                push_text(out, path.text())?;
            }
            Ok(())
        }
        Err(Outer::Fault) => push_str(out, "fault"),
        Err(Outer::NoMemory) => Err(AllocError),
    }
}

/// The files below a folder, and the faults of each tree.
pub(crate) fn answer_names(
    alloc: Global,
    folder: &str,
    fails: &str,
    trees: &[&str],
    out: &mut Vec<u8>,
) -> Result<(), CaseError> {
    let folder = path_of(alloc, folder)?;
    let mut overlay = overlay_of(alloc, fails, trees)?;
    let answer = overlay.names(alloc, &folder);
    push_names(&answer, out)?;
    Ok(push_faults(alloc, overlay, out)?)
}

fn push_found(
    answer: &Result<Option<Vec<u8>>, Outer>,
    out: &mut Vec<u8>,
) -> Result<(), AllocError> {
    match answer {
        Ok(Some(bytes)) => out.extend_from_slice(bytes.as_slice()),
        Ok(None) => push_str(out, "none"),
        Err(Outer::Fault) => push_str(out, "fault"),
        Err(Outer::NoMemory) => Err(AllocError),
    }
}

fn read_file(
    alloc: Global,
    overlay: &mut Overlay<MemTree>,
    file: &Path,
    most: u64,
    out: &mut Vec<u8>,
) -> Result<(), AllocError> {
    let answer = overlay.bytes(alloc, file, most);
    push_found(&answer, out)
}

/// The first bytes of a file, and the faults of each tree.
pub(crate) fn answer_bytes(
    alloc: Global,
    [file, most]: [&str; 2],
    fails: &str,
    trees: &[&str],
    out: &mut Vec<u8>,
) -> Result<(), CaseError> {
    let file = path_of(alloc, file)?;
    let most = number_of(most)?;
    let mut overlay = overlay_of(alloc, fails, trees)?;
    read_file(alloc, &mut overlay, &file, most, out)?;
    Ok(push_faults(alloc, overlay, out)?)
}
