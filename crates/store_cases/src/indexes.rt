// Indexes of trees that have one.
use bulk_base::Files;
use case_text::{CaseError, files_of};
use conf_file::{MakeConf, read_make};
use outside::{MemTree, Tree};
use std::alloc::Global;
use tree_index::{Index, index};

fn make_of(alloc: Global, files: &Files) -> Result<MakeConf, CaseError> {
    let mut bytes: &[u8] = &[];
    for file in files {
        if file.path.bytes() == b"etc/make.conf".as_slice() {
            bytes = file.bytes.as_slice();
        }
    }
    match read_make(alloc, bytes) {
        Ok(make) => Ok(make),
        Err(_) => Err(CaseError::Unfit),
    }
}

fn indexed<T: Tree>(alloc: Global, tree: &mut T, make: &MakeConf) -> Result<Index, CaseError> {
    match index(alloc, tree, make, false) {
        Ok(found) => Ok(found),
        Err(_) => Err(CaseError::Unfit),
    }
}

/// The index of the tree of these files.
pub(crate) fn index_of_files(alloc: Global, files: Files) -> Result<Index, CaseError> {
    let make = make_of(alloc, &files)?;
    match MemTree::new(alloc, files, bulk_base::Sequence::new(alloc)) {
        Ok(mut tree) => indexed(alloc, &mut tree, &make),
        Err(_) => Err(CaseError::Unfit),
    }
}

/// The index of a field's tree. Unfit where it has none.
pub(crate) fn index_of(alloc: Global, field: &str) -> Result<Index, CaseError> {
    index_of_files(alloc, files_of(alloc, field)?)
}
