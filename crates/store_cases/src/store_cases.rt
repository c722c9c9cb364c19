// What a store's files hold, and its changes.
use crate::records::push_record;
use crate::stores::{push_changes, push_error, push_faults, store_of};
use bulk_model::{Package, Packages};
use case_text::{CaseError, push_str, push_text, push_texts, words_of};
use outside::{MemStore, Outer, Store};
use pkg_record::{Record, read};
use pkg_store::{Loaded, delete, load_all, package_names, save};
use std::alloc::{AllocError, Global};

/// The names of a store's package files.
pub(crate) fn answer_names(
    alloc: Global,
    files: &str,
    fails: &str,
    out: &mut Vec<u8>,
) -> Result<(), CaseError> {
    let mut store = store_of(alloc, files, fails)?;
    match package_names(alloc, &mut store) {
        Ok(names) => {
            push_str(out, "names")?;
            push_texts(out, names.as_slice())?;
        }
        Err(error) => push_error(alloc, error, out)?,
    }
    Ok(push_faults(alloc, &store, out)?)
}

fn push_packages(packages: &Packages, out: &mut Vec<u8>) -> Result<(), AllocError> {
    push_str(out, "packages")?;
    for made in packages {
        push_str(out, " ")?;
        push_text(out, &made.get().name)?;
    }
    Ok(())
}

fn push_loaded(loaded: &Loaded, out: &mut Vec<u8>) -> Result<(), AllocError> {
    push_packages(&loaded.packages, out)?;
    push_str(out, "; old")?;
    push_texts(out, loaded.old.as_slice())?;
    push_str(out, "; damaged")?;
    push_texts(out, loaded.damaged.as_slice())
}

/// What a store's files hold.
pub(crate) fn answer_load(
    alloc: Global,
    files: &str,
    fails: &str,
    out: &mut Vec<u8>,
) -> Result<(), CaseError> {
    let mut store = store_of(alloc, files, fails)?;
    match load_all(alloc, &mut store) {
        Ok(loaded) => push_loaded(&loaded, out)?,
        Err(error) => push_error(alloc, error, out)?,
    }
    Ok(push_faults(alloc, &store, out)?)
}

fn package_of(alloc: Global, spec: &str) -> Result<Package, CaseError> {
    let mut record = Vec::new(alloc);
    push_record(alloc, &[], spec, &mut record)?;
    match read(alloc, record.as_slice()) {
        Ok(Record::New(made)) => Ok(made),
        _ => Err(CaseError::Unfit),
    }
}

fn push_ended(ended: Result<(), Outer>, out: &mut Vec<u8>) -> Result<(), AllocError> {
    push_str(
        out,
        match ended {
            Ok(()) => "Ok",
            Err(Outer::Fault) => "Fault",
            Err(Outer::NoMemory) => "NoMemory",
        },
    )
}

/// Puts how a change ended at the end, with what the store has and how it came there.
fn push_changed(
    alloc: Global,
    ended: Result<(), Outer>,
    store: &mut MemStore,
    out: &mut Vec<u8>,
) -> Result<(), CaseError> {
    push_ended(ended, out)?;
    push_changes(alloc, store, out)?;
    push_str(out, "; left")?;
    match store.names(alloc) {
        Ok(names) => push_texts(out, names.as_slice())?,
        Err(_) => return Err(CaseError::Unfit),
    }
    Ok(push_faults(alloc, store, out)?)
}

/// What the put of a package changes.
pub(crate) fn answer_save(
    alloc: Global,
    files: &str,
    spec: &str,
    fails: &str,
    out: &mut Vec<u8>,
) -> Result<(), CaseError> {
    let made = package_of(alloc, spec)?;
    let mut store = store_of(alloc, files, fails)?;
    let ended = save(alloc, &mut store, &made);
    push_changed(alloc, ended, &mut store, out)
}

/// What the removal of some names changes.
pub(crate) fn answer_delete(
    alloc: Global,
    files: &str,
    names: &str,
    fails: &str,
    out: &mut Vec<u8>,
) -> Result<(), CaseError> {
    let names = words_of(alloc, names)?;
    let mut store = store_of(alloc, files, fails)?;
    let ended = delete(alloc, &mut store, names.as_slice());
    push_changed(alloc, ended, &mut store, out)
}
