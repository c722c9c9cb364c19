// Stores as fields.
use crate::records::push_record;
use bulk_base::{Bytes, Sequence, Text};
use case_text::{CaseError, bytes_of, fails_of, push_number, push_str, push_text, text_of};
use outside::{Change, Item, Items, MemStore};
use pkg_store::{Loaded, StoreError, load_all};
use std::alloc::{AllocError, Global};

/// The bytes of a file that stands in a field behind `~`, as the words of a record, or behind `:`, as bytes.
fn file_bytes(
    alloc: Global,
    made: &[Item],
    part: &str,
) -> Result<Option<(Text, Vec<u8>)>, CaseError> {
    if let Some((name, spec)) = part.split_once('~') {
        let mut bytes = Vec::new(alloc);
        push_record(alloc, made, spec, &mut bytes)?;
        let own = spec.strip_prefix("old ").unwrap_or(spec);
        let own = own.split(' ').next().unwrap_or("");
        let file = format!(in alloc; "{own}.pkg")?;
        let name = if name.is_empty() { file.as_str() } else { name };
        return Ok(Some((text_of(alloc, name)?, bytes)));
    }
    match part.split_once(':') {
        Some((name, bytes)) => Ok(Some((text_of(alloc, name)?, bytes_of(alloc, bytes)?))),
        None => Ok(None),
    }
}

/// The files of a field, with `&` between: `NAME:BYTES`, or `NAME~WORDS` with a record that words spell. Where no name stands
/// before `~` the file is named after the record's package. A dependency's mark is that of a file before it.
pub(crate) fn items_of(alloc: Global, field: &str) -> Result<Items, CaseError> {
    let mut items = Sequence::new(alloc);
    for part in field.split('&') {
        if let Some((name, bytes)) = file_bytes(alloc, items.as_slice(), part)? {
            let bytes = Bytes::from_vec(bytes);
            items.push(Item { name, bytes })?;
        }
    }
    Ok(items)
}

/// The store of a field's files, whose planned calls fail.
pub(crate) fn store_of(alloc: Global, files: &str, fails: &str) -> Result<MemStore, CaseError> {
    let items = items_of(alloc, files)?;
    Ok(MemStore::new(alloc, items, fails_of(alloc, fails, "")?)?)
}

/// What a store of these files is read as.
pub(crate) fn loaded_of_items(alloc: Global, items: Items) -> Result<Loaded, CaseError> {
    let mut store = MemStore::new(alloc, items, Sequence::new(alloc))?;
    match load_all(alloc, &mut store) {
        Ok(loaded) => Ok(loaded),
        Err(_) => Err(CaseError::Unfit),
    }
}

/// What the store of a field's files is read as.
pub(crate) fn loaded_of(alloc: Global, files: &str) -> Result<Loaded, CaseError> {
    loaded_of_items(alloc, items_of(alloc, files)?)
}

/// Puts an error at the end.
pub(crate) fn push_error(
    alloc: Global,
    error: StoreError,
    out: &mut Vec<u8>,
) -> Result<(), AllocError> {
    match error {
        StoreError::Fault => push_str(out, "Fault"),
        StoreError::NoMemory => push_str(out, "NoMemory"),
        StoreError::Limit { which, count } => {
            push_str(out, format!(in alloc; "Limit {which:?} {count}")?.as_str())
        }
    }
}

/// Puts how often a store failed at the end.
pub(crate) fn push_faults(
    alloc: Global,
    store: &MemStore,
    out: &mut Vec<u8>,
) -> Result<(), AllocError> {
    push_str(out, "; faults ")?;
    push_number(alloc, out, store.faults())
}

/// Puts the changes of a store at the end, each with how many bytes were put.
pub(crate) fn push_changes(
    alloc: Global,
    store: &MemStore,
    out: &mut Vec<u8>,
) -> Result<(), AllocError> {
    push_str(out, "; journal")?;
    for change in store.journal() {
        match change {
            Change::Put { name, bytes } => {
                push_str(out, " put ")?;
                push_text(out, name)?;
                push_str(out, " ")?;
                push_number(alloc, out, bytes.len() as u64)?;
            }
            Change::Remove { name } => {
                push_str(out, " remove ")?;
                push_text(out, name)?;
            }
        }
    }
    Ok(())
}
