// A store read as packages.
ghost use Rattle.std.specs.Prelude.{◌≡◌, ◌≢◌, ◌+◌, ◌^◌, ◌<◌, ◌≤◌, ℕ, List, [], ◌∷◌, filter, length, Some, Ok, Err, IsTrue, IfOk, IfErr, OnOk};
ghost use Rattle.std.specs.List.{list_all};
ghost use Rattle.outside.specs.Changes.{IsUnchanged};
ghost use Rattle.outside.specs.Contents.{IsAscending};
ghost use Rattle.bulk_model.specs.FileNames.{is_package_file as has_ending};
ghost use Rattle.bulk_model.specs.Limits.{most as most_of};
ghost use Rattle.pkg_store.specs.Faults.{IsCaused};
ghost use Rattle.pkg_store.specs.Loading.{names_in, loaded_in};
ghost use Rattle.pkg_store.specs.Reading as reading;

use crate::fault::StoreError;
use crate::found::Found;
use crate::loaded::Loaded;
use bulk_base::{NoMemory, Sequence, Text, Texts};
use bulk_model::{Which, is_package_file};
use outside::Store;
use std::alloc::Global;

/// The names of package files among some names.
fn package_files(alloc: Global, names: &[Text]) -> Result<Texts, NoMemory>
    ensures { IfOk result (λ files. files ≡ filter has_ending names.now) }
{
    let mut files = Sequence::new(alloc);
    for name in names {
        if is_package_file(name) {
            files.push(name.copy(alloc)?)?;
        }
    }
    Ok(files)
}

/// The names of a store's package files, in byte order: those that end in `.pkg` (docs/FORMATS.md, "The store"). No file is
/// read.
///
/// Fault where the store failed; Limit of StoreNames, with their count, exactly where there are more than 65,535; NoMemory for
/// want of memory alone. One listing, and a copy of each of these names.
pub fn package_names<S: Store>(alloc: Global, store: &mut S) -> Result<Texts, StoreError>
    // What a store that tells has.
    ensures ok { IsTrue S.tells → IfOk result (λ names. names_in (S.content store.old) ≡ Ok names) }
    ensures refused { IsTrue S.tells → IfErr result (λ e. e ≢ StoreError.NoMemory
        → e ≢ StoreError.Fault → names_in (S.content store.old) ≡ Err e) }
    // What any store has.
    ensures ascending { IfOk result IsAscending }
    ensures files { IfOk result (λ files. IsTrue (list_all has_ending files)) }
    ensures few { IfOk result (λ names. length names ≤ most_of Which.StoreNames) }
    // Nothing is changed.
    ensures same { IsUnchanged (S.content store.old) (S.content store.new)
        (S.journal store.old) (S.journal store.new) }
    ensures cause { IsCaused (S.faults store.old) (S.faults store.new) result }
{
    let names = store.names(alloc)?;
    let files = package_files(alloc, names.as_slice())?;
    let count = files.len() as u64;
    if count > Which::StoreNames.most() {
        return Err(StoreError::Limit {
            which: Which::StoreNames,
            count,
        });
    }
    Ok(files)
}

/// Adds a file with these bytes, of which one may be more than may be read.
fn take_in(alloc: Global, file: &Text, bytes: &[u8], found: &mut Found) -> Result<(), StoreError>
    ensures ok { OnOk result (reading.bytes_read file.now found.old (Some bytes.now) ≡ Ok found.new) }
    ensures refused { IfErr result (λ e. e ≢ StoreError.NoMemory
        → reading.bytes_read file.now found.old (Some bytes.now) ≡ Err e) }
    ensures quiet { IfErr result (λ e. e ≢ StoreError.Fault) }
{
    if bytes.len() as u64 > found.left {
        return Err(StoreError::Limit {
            which: Which::StoreBytes,
            count: Which::StoreBytes.most() + 1,
        });
    }
    found.add(alloc, file, bytes)?;
    Ok(())
}

/// Reads one file, of which no more is asked for than one byte beyond those that may be read.
fn read_file<S: Store>(
    alloc: Global,
    store: &mut S,
    file: &Text,
    found: &mut Found,
) -> Result<(), StoreError>
    requires { found.old.left + 1 < 2 ^ 64 }
    ensures ok { IsTrue S.tells
        → OnOk result (reading.file_read (S.content store.old) found.old file.now ≡ Ok found.new) }
    ensures refused { IsTrue S.tells → IfErr result (λ e. e ≢ StoreError.NoMemory
        → e ≢ StoreError.Fault
        → reading.file_read (S.content store.old) found.old file.now ≡ Err e) }
    ensures form { OnOk result ((files : List (List ℕ)) → reading.MayRead found.old (file.now ∷ files)
        → reading.MayRead found.new files) }
    ensures less { OnOk result (found.new.left ≤ found.old.left) }
    ensures same { IsUnchanged (S.content store.old) (S.content store.new)
        (S.journal store.old) (S.journal store.new) }
    ensures cause { IsCaused (S.faults store.old) (S.faults store.new) result }
{
    let most = found.left + 1;
    match store.get(alloc, file, most)? {
        None => Ok(()),
        Some(bytes) => take_in(alloc, file, bytes.as_slice(), found),
    }
}

/// Reads files one after another.
fn read_files<S: Store>(
    alloc: Global,
    store: &mut S,
    files: &[Text],
    found: &mut Found,
) -> Result<(), StoreError>
    requires { found.old.left + 1 < 2 ^ 64 }
    ensures ok { IsTrue S.tells
        → OnOk result (reading.files_read (S.content store.old) files.now found.old ≡ Ok found.new) }
    ensures refused { IsTrue S.tells → IfErr result (λ e. e ≢ StoreError.NoMemory
        → e ≢ StoreError.Fault
        → reading.files_read (S.content store.old) files.now found.old ≡ Err e) }
    ensures form { OnOk result (reading.MayRead found.old files.now → reading.MayRead found.new []) }
    ensures same { IsUnchanged (S.content store.old) (S.content store.new)
        (S.journal store.old) (S.journal store.new) }
    ensures cause { IsCaused (S.faults store.old) (S.faults store.new) result }
{
    for file in files {
        read_file(alloc, store, file, found)?;
    }
    Ok(())
}

/// A store read as packages (docs/FORMATS.md, "The store"): the packages of its package files, in the order of the files' names;
/// the files that hold records of version 1; and the damaged ones, which are refused as records, or hold a record, of either
/// version, under another name than their own. Names without `.pkg` are left alone, and a file that is gone when it is read is
/// left out.
///
/// Fault where the store failed. Limit of StoreNames, with the count of the package files, exactly where there are more than
/// 65,535, before any is read; else Limit of StoreBytes, with 2,147,483,649, exactly where they have more than 2,147,483,648 bytes
/// together, at the file at which the sum passes, of which no more is asked for than what remains and one byte. NoMemory for want of
/// memory alone.
///
/// One listing, one reading of each file, and what `read` of pkg_record costs.
pub fn load_all<S: Store>(alloc: Global, store: &mut S) -> Result<Loaded, StoreError>
    // What a store that tells holds.
    ensures ok { IsTrue S.tells → IfOk result (λ loaded. loaded_in (S.content store.old) ≡ Ok loaded) }
    ensures refused { IsTrue S.tells → IfErr result (λ e. e ≢ StoreError.NoMemory
        → e ≢ StoreError.Fault → loaded_in (S.content store.old) ≡ Err e) }
    // Nothing is changed.
    ensures same { IsUnchanged (S.content store.old) (S.content store.new)
        (S.journal store.old) (S.journal store.new) }
    ensures cause { IsCaused (S.faults store.old) (S.faults store.new) result }
{
    let files = package_names(alloc, store)?;
    let mut found = Found::new(alloc, Which::StoreBytes.most());
    read_files(alloc, store, files.as_slice(), &mut found)?;
    Ok(found.into_loaded())
}
