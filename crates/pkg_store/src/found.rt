// What the files of a store that were read so far hold.
ghost use Rattle.std.specs.Prelude.{◌≡◌, ◌≤◌, [], length, bytes_eq, IfOk, OnOk};
ghost use Rattle.bulk_model.specs.FileNames.{package_file};
ghost use Rattle.pkg_record.specs.Reading.{record_of};
ghost use Rattle.pkg_record.specs.Stored.{name_told, own_record};
ghost use Rattle.pkg_store.specs.Reading as files;

use crate::loaded::Loaded;
use bulk_base::{NoMemory, Sequence, Text, Texts};
use bulk_model::{Packages, Shared, file_name};
use pkg_record::{Record, RecordError, read};
use std::alloc::{AllocError, Global};

/// What was found so far.
#[derive(Drop)]
pub(crate) struct Found {
    pub(crate) packages: Packages,
    pub(crate) old_files: Texts,
    pub(crate) damaged: Texts,
    /// How many bytes more may be read.
    pub(crate) left: u64,
}

/// The name that a record tells.
fn name_of(told: &Record) -> &Text
    ensures { result.now ≡ name_told told.now }
{
    match told {
        Record::New(built) => &built.name,
        Record::Old { name } => name,
    }
}

/// Whether a file is named after the name that a record tells.
fn is_own(alloc: Global, file: &Text, told: &Record) -> Result<bool, NoMemory>
    ensures { IfOk result (λ own. own ≡ bytes_eq file.now (package_file (name_told told.now))) }
{
    Ok(*file == file_name(alloc, name_of(told))?)
}

/// The record that bytes are; none where they are refused.
fn record_in(alloc: Global, bytes: &[u8]) -> Result<Option<Record>, NoMemory>
    ensures { IfOk result (λ told. told ≡ files.record_if_any (record_of bytes.now)) }
{
    match read(alloc, bytes) {
        Ok(told) => Ok(Some(told)),
        Err(RecordError::NoMemory) => Err(AllocError),
        Err(_) => Ok(None),
    }
}

/// The record of its own name that a file holds.
fn own_record_in(alloc: Global, file: &Text, bytes: &[u8]) -> Result<Option<Record>, NoMemory>
    ensures { IfOk result (λ told. told ≡ own_record file.now (record_of bytes.now)) }
{
    match record_in(alloc, bytes)? {
        Some(told) => {
            if is_own(alloc, file, &told)? {
                Ok(Some(told))
            } else {
                Ok(None)
            }
        }
        None => Ok(None),
    }
}

impl Found {
    /// Nothing yet, and so many bytes may be read.
    pub(crate) fn new(alloc: Global, left: u64) -> Found
        ensures { result ≡ record { packages = []; old_files = []; damaged = []; left = left } }
    {
        Found {
            packages: Sequence::new(alloc),
            old_files: Sequence::new(alloc),
            damaged: Sequence::new(alloc),
            left,
        }
    }

    /// Adds a file by the record of its own name that it holds.
    fn put(&mut self, alloc: Global, file: &Text, told: Option<Record>) -> Result<(), NoMemory>
        ensures { OnOk result (self.new ≡ files.with_record file.now told self.old) }
    {
        match told {
            Some(Record::New(built)) => self.packages.push(Shared::new(alloc, built)?),
            Some(Record::Old { .. }) => self.old_files.push(file.copy(alloc)?),
            None => self.damaged.push(file.copy(alloc)?),
        }
    }

    /// Adds a file with these bytes.
    pub(crate) fn add(&mut self, alloc: Global, file: &Text, bytes: &[u8]) -> Result<(), NoMemory>
        requires { length bytes.now ≤ self.old.left }
        ensures { OnOk result (self.new ≡ files.with_file file.now bytes.now self.old) }
    {
        let told = own_record_in(alloc, file, bytes)?;
        self.put(alloc, file, told)?;
        self.left -= bytes.len() as u64;
        Ok(())
    }

    /// What was found, where all is in order.
    pub(crate) fn into_loaded(self) -> Loaded
        requires { files.MayRead self [] }
        ensures { result ≡ files.loaded_of self }
    {
        let Found {
            packages,
            old_files,
            damaged,
            left: _,
        } = self;
        Loaded {
            packages,
            old: old_files,
            damaged,
        }
    }
}
