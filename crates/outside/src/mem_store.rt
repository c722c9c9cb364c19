// A package store in memory.
ghost use Rattle.std.specs.Prelude.{◌≡◌, ◌≤◌, ◌↔◌, true, IsTrue, IsErrOf, IfOk, IfSome, OnOk, OnErr, [], vec_len};
ghost use Rattle.std.specs.Option.{option_map};
ghost use Rattle.std.specs.FinMap.{keys};
ghost use Rattle.outside.specs.Contents.{IsAscending, first_bytes};
ghost use Rattle.outside.specs.Changes.{Made, Removed, IsUnchanged, replayed};
ghost use Rattle.outside.specs.Given.{content_of_items};
ghost use Rattle.outside.specs.InMemory.{stopped};
ghost use Rattle.outside.specs.Failures.{fresh, fails_next, counted};
ghost use Rattle.outside.specs.Faults.{HasCause};
ghost use Rattle.outside.specs.declared.change.Change.TheVariants.{Put as ToPut};

use crate::change::Change;
use crate::failure::{CallKind, Fails, Failures};
use crate::item::Items;
use crate::kept_files::KeptFiles;
use crate::outer::Outer;
use crate::store::Store;
use bulk_base::{NoMemory, Sequence, Text, Texts};
use std::alloc::Global;
use std::marker::Model;

/// A package store in memory, which tells its content and its journal and fails where it is planned to. A put or a
/// removal that fails leaves all as it was.
#[derive(Drop)]
pub struct MemStore {
    kept: KeptFiles,
    failures: Failures,
}

impl Model for MemStore {
    ghost use Rattle.outside.specs.InMemory.{StoreState, store_code};

    ghost Value = { StoreState };

    ghost coded = { store_code };

    ghost view = { λ s. record { first = s.kept.first; journal = s.kept.journal; content = s.kept.content; failing = s.failures } };
}

impl MemStore {
    /// A store with these files, of equal names the last, and with an empty journal. The calls in `fails` fail.
    pub fn new(alloc: Global, items: Items, fails: Fails) -> Result<MemStore, NoMemory>
        ensures { IfOk result (λ store. store ≡ record { first = content_of_items items; journal = []; content = content_of_items items; failing = fresh fails }) }
    {
        Ok(MemStore {
            kept: KeptFiles::from_items(alloc, items)?,
            failures: Failures::new(fails),
        })
    }

    /// The changes that took effect, in order: they lead from what was handed in to what the store holds.
    pub fn journal(&self) -> &[Change]
        ensures same { result.now ≡ self.now.journal }
        ensures replays { self.now.content ≡ replayed self.now.journal self.now.first }
    {
        self.kept.changes()
    }

    /// The store that a stop behind so many changes leaves: its content is the one behind these, its journal is empty,
    /// and none of its calls fails. None exactly where fewer changes were made since this store was made. NoMemory for
    /// want of memory alone. Costs a copy of the store, and O(log n) comparisons for each change.
    pub fn stopped(&self, alloc: Global, changes: u64) -> Result<Option<MemStore>, NoMemory>
        ensures { IfOk result (λ store. store ≡ stopped self.now changes) }
    {
        if changes > self.kept.changes().len() as u64 {
            return Ok(None);
        }
        Ok(Some(MemStore {
            kept: self.kept.after(alloc, changes as usize)?,
            failures: Failures::new(Sequence::new(alloc)),
        }))
    }

    /// How many calls failed: none where none was planned to.
    pub fn faults(&self) -> u64
        ensures count { result ≡ self.now.failing.faults }
        ensures none { self.now.failing.planned ≡ [] → result ≡ 0 }
    {
        self.failures.faults()
    }
}

impl Store for MemStore {
    ghost tells = { true };

    ghost content = { λ store. store.content };

    ghost journal = { λ store. store.journal };

    ghost faults = { λ store. store.failing.faults };

    fn names(&mut self, alloc: Global) -> Result<Texts, Outer>
        ensures ascending { IfOk result IsAscending }
        ensures told { IfOk result (λ names. names ≡ keys self.old.content) }
        ensures same { IsUnchanged self.old.content self.new.content self.old.journal self.new.journal }
        ensures first { self.new.first ≡ self.old.first }
        ensures fault { IsErrOf result Outer.Fault ↔ IsTrue (fails_next CallKind.Names self.old.failing) }
        ensures counted { self.new.failing ≡ counted CallKind.Names self.old.failing }
        ensures cause { HasCause self.old.failing.faults self.new.failing.faults result }
    {
        if self.failures.fails(CallKind::Names) {
            return Err(Outer::Fault);
        }
        Ok(self.kept.names(alloc)?)
    }

    fn get(&mut self, alloc: Global, name: &Text, most: u64) -> Result<Option<Vec<u8>>, Outer>
        ensures within { IfOk result (λ found. IfSome found (λ bytes. vec_len bytes ≤ most)) }
        ensures told { IfOk result (λ found. option_map (λ b. b.items) found ≡ first_bytes most name.now self.old.content) }
        ensures same { IsUnchanged self.old.content self.new.content self.old.journal self.new.journal }
        ensures first { self.new.first ≡ self.old.first }
        ensures fault { IsErrOf result Outer.Fault ↔ IsTrue (fails_next CallKind.Get self.old.failing) }
        ensures counted { self.new.failing ≡ counted CallKind.Get self.old.failing }
        ensures cause { HasCause self.old.failing.faults self.new.failing.faults result }
    {
        if self.failures.fails(CallKind::Get) {
            return Err(Outer::Fault);
        }
        Ok(self.kept.first_bytes(alloc, name, most)?)
    }

    fn put(&mut self, alloc: Global, name: &Text, bytes: &[u8]) -> Result<(), Outer>
        ensures told { Made (ToPut name.now bytes.now) self.old.content self.new.content self.old.journal self.new.journal result }
        ensures err { OnErr result (IsUnchanged self.old.content self.new.content self.old.journal self.new.journal) }
        ensures first { self.new.first ≡ self.old.first }
        ensures fault { IsErrOf result Outer.Fault ↔ IsTrue (fails_next CallKind.Put self.old.failing) }
        ensures counted { self.new.failing ≡ counted CallKind.Put self.old.failing }
        ensures cause { HasCause self.old.failing.faults self.new.failing.faults result }
    {
        if self.failures.fails(CallKind::Put) {
            return Err(Outer::Fault);
        }
        self.kept.put(alloc, name, bytes)?;
        Ok(())
    }

    fn remove(&mut self, alloc: Global, name: &Text) -> Result<(), Outer>
        ensures told { Removed name.now self.old.content self.new.content self.old.journal self.new.journal result }
        ensures err { OnErr result (IsUnchanged self.old.content self.new.content self.old.journal self.new.journal) }
        ensures first { self.new.first ≡ self.old.first }
        ensures fault { IsErrOf result Outer.Fault ↔ IsTrue (fails_next CallKind.Remove self.old.failing) }
        ensures counted { self.new.failing ≡ counted CallKind.Remove self.old.failing }
        ensures cause { HasCause self.old.failing.faults self.new.failing.faults result }
    {
        if self.failures.fails(CallKind::Remove) {
            return Err(Outer::Fault);
        }
        self.kept.remove(alloc, name)?;
        Ok(())
    }
}
