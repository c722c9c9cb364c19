// A package store on a disk.
ghost use Rattle.std.specs.Prelude.{◌≡◌, ◌↔◌, ◌≤◌, IfOk, IfSome, vec_len};
ghost use Rattle.outside.specs.Contents.{IsAscending};

use crate::fault::{noted, outer};
use crate::listing::ascending;
use crate::place::{first_bytes, pass_absent, pass_no_name, place};
use bulk_base::{Sequence, Text, TextError, Texts};
use outside::{Outer, Store};
use std::alloc::Global;
use std::fs;
use std::fs::DirEntry;
use std::rt::Files;

/// A package store in a folder of a disk: the plain files that stand directly there, links followed.
#[derive(Drop)]
pub struct DirStore<R: Files + AllocGlobal + Clone + Drop> {
    rt: R,
    folder: String,
    faults: u64,
}

impl<R: Files + AllocGlobal + Clone + Drop> DirStore<R> {
    /// The store in a folder, which may be absent: the first file that is put makes it.
    pub fn new(rt: R, folder: String) -> DirStore<R>
        ensures folder { result.folder ≡ folder }
        ensures faults { result.faults ≡ 0 }
    {
        DirStore {
            rt,
            folder,
            faults: 0,
        }
    }

    fn listed(&self, alloc: Global) -> Result<Texts, Outer>
        ensures { IfOk result IsAscending }
    {
        let mut found = Vec::new(alloc);
        match fs::read_dir(&self.rt, self.folder.as_str()) {
            Ok(entries) => {
                for entry in entries {
                    let entry = entry.map_err(outer)?;
                    self.meet(alloc, &entry, &mut found)?;
                }
            }
            Err(error) => pass_no_name(&self.rt, self.folder.as_str(), error)?,
        }
        ascending(found)
    }

    /// Keeps the name of an entry that is a plain file. A name that is no text is a fault.
    fn meet(&self, alloc: Global, entry: &DirEntry<R>, found: &mut Vec<Text>) -> Result<(), Outer> {
        let name = Text::from_bytes(alloc, entry.file_name().as_bytes()).map_err(no_text)?;
        let what = fs::metadata(&self.rt, entry.path()).map_err(outer)?;
        if what.is_file() {
            found.push(name)?;
        }
        Ok(())
    }

    fn read(&self, alloc: Global, name: &Text, most: u64) -> Result<Option<Vec<u8>>, Outer>
        ensures { IfOk result (λ found. IfSome found (λ bytes. vec_len bytes ≤ most)) }
    {
        let place = place(alloc, self.folder.as_str(), name.as_str())?;
        first_bytes(&self.rt, place.as_str(), most)
    }

    fn write(&self, alloc: Global, name: &Text, bytes: &[u8]) -> Result<(), Outer> {
        let place = place(alloc, self.folder.as_str(), name.as_str())?;
        let fresh = format!(in alloc; "{place}.new")?;
        fs::create_dir_all(&self.rt, self.folder.as_str()).map_err(outer)?;
        fs::write(&self.rt, fresh.as_str(), bytes).map_err(outer)?;
        fs::rename(&self.rt, fresh.as_str(), place.as_str()).map_err(outer)
    }

    fn delete(&self, alloc: Global, name: &Text) -> Result<(), Outer> {
        let place = place(alloc, self.folder.as_str(), name.as_str())?;
        match fs::remove_file(&self.rt, place.as_str()) {
            Ok(()) => Ok(()),
            Err(error) => pass_absent(&self.rt, place.as_str(), error),
        }
    }
}

impl<R: Files + AllocGlobal + Clone + Drop> Store for DirStore<R> {
    ghost use Rattle.std.specs.Prelude.{false, []};
    ghost use Rattle.std.specs.FinMap.{empty};

    ghost tells = { false };

    ghost content = { λ _. empty };

    ghost journal = { λ _. [] };

    ghost faults = { λ s. s.faults };

    fn names(&mut self, alloc: Global) -> Result<Texts, Outer> {
        let listed = self.listed(alloc);
        noted(&mut self.faults, listed)
    }

    fn get(&mut self, alloc: Global, name: &Text, most: u64) -> Result<Option<Vec<u8>>, Outer> {
        let read = self.read(alloc, name, most);
        noted(&mut self.faults, read)
    }

    fn put(&mut self, alloc: Global, name: &Text, bytes: &[u8]) -> Result<(), Outer> {
        let written = self.write(alloc, name, bytes);
        noted(&mut self.faults, written)
    }

    fn remove(&mut self, alloc: Global, name: &Text) -> Result<(), Outer> {
        let deleted = self.delete(alloc, name);
        noted(&mut self.faults, deleted)
    }
}

fn no_text(error: TextError) -> Outer
    ensures { result ≡ Outer.NoMemory ↔ error ≡ TextError.NoMemory }
{
    match error {
        TextError::NotText => Outer::Fault,
        TextError::NoMemory => Outer::NoMemory,
    }
}
