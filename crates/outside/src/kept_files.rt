// Files under names in memory, with the changes that led to them.
ghost use Rattle.std.specs.Prelude.{◌≡◌, ◌≤◌, length, take, IfOk, IfSome, OnOk, OnErr, vec_len};
ghost use Rattle.std.specs.Option.{option_map};
ghost use Rattle.std.specs.FinMap.{keys};
ghost use Rattle.outside.specs.Contents.{IsAscending, first_bytes};
ghost use Rattle.outside.specs.Given.{content_of_items};
ghost use Rattle.outside.specs.Changes.{TookEffect, changed, replayed};
ghost use Rattle.outside.specs.InMemory.{unchanged};
ghost use Rattle.outside.specs.Kept.{WasRemoved};
ghost use Rattle.outside.specs.declared.change.Change.TheVariants.{Put as ToPut};

use crate::change::Change;
use crate::folder::front;
use crate::item::Items;
use bulk_base::{Bytes, NoMemory, Text, TextMap, Texts};
use std::alloc::Global;
use std::marker::Model;

/// Files under names in memory, with those at the beginning and the changes since: what there is now is what the
/// changes make of what there was first.
#[derive(Drop)]
pub(crate) struct KeptFiles {
    first: TextMap<Bytes>,
    changes: Vec<Change>,
    files: TextMap<Bytes>,
}

impl Model for KeptFiles {
    ghost use Rattle.std.specs.Prelude.{◌≡◌};
    ghost use Rattle.outside.specs.Changes.{replayed};
    ghost use Rattle.outside.specs.InMemory.{History, history_code};

    ghost Value = { History };

    ghost coded = { history_code };

    ghost view = { λ k. record { first = k.first; journal = k.changes.items; content = k.files } };

    ghost invariant = { λ k. k.files ≡ replayed k.changes.items k.first };
}

// A copy of the files; of equal names the last counts.
fn copied(alloc: Global, items: &Items) -> Result<TextMap<Bytes>, NoMemory>
    ensures { IfOk result (λ content. content ≡ content_of_items items.now) }
{
    let mut content = TextMap::new(alloc);
    for item in items.as_slice() {
        content.insert(
            item.name.copy(alloc)?,
            Bytes::from_slice(alloc, item.bytes.as_slice())?,
        )?;
    }
    Ok(content)
}

// Makes a change.
fn make_change(alloc: Global, files: &mut TextMap<Bytes>, change: &Change) -> Result<(), NoMemory>
    ensures { OnOk result (files.new ≡ changed change.now files.old) }
{
    match change {
        Change::Put { name, bytes } => {
            let bytes = Bytes::from_slice(alloc, bytes.as_slice())?;
            files.insert(name.copy(alloc)?, bytes)?;
        }
        Change::Remove { name } => {
            files.remove(name);
        }
    }
    Ok(())
}

impl KeptFiles {
    /// The files handed in, of equal names the last, and no change yet.
    pub(crate) fn from_items(alloc: Global, items: Items) -> Result<KeptFiles, NoMemory>
        ensures { IfOk result (λ kept. kept ≡ unchanged (content_of_items items)) }
    {
        Ok(KeptFiles {
            first: copied(alloc, &items)?,
            changes: Vec::new(alloc),
            files: copied(alloc, &items)?,
        })
    }

    /// The changes since the beginning, in order.
    pub(crate) fn changes(&self) -> &[Change]
        ensures same { result.now ≡ self.now.journal }
        ensures replays { self.now.content ≡ replayed self.now.journal self.now.first }
    {
        self.changes.as_slice()
    }

    /// The files after so many of the changes, with no change since. So many changes were made.
    pub(crate) fn after(&self, alloc: Global, changes: usize) -> Result<KeptFiles, NoMemory>
        requires { changes ≤ length self.now.journal }
        ensures { IfOk result (λ kept. kept ≡ unchanged (replayed (take changes self.now.journal) self.now.first)) }
    {
        let mut files = self.first.copy(alloc)?;
        for change in &self.changes.as_slice()[..changes] {
            make_change(alloc, &mut files, change)?;
        }
        Ok(KeptFiles {
            first: files.copy(alloc)?,
            changes: Vec::new(alloc),
            files,
        })
    }

    /// All names, in byte order, each once.
    pub(crate) fn names(&self, alloc: Global) -> Result<Texts, NoMemory>
        ensures ascending { IfOk result IsAscending }
        ensures told { IfOk result (λ names. names ≡ keys self.now.content) }
    {
        let names = self.files.keys(alloc)?;
        Ok(names)
    }

    /// The first `most` bytes of a file; None where there is none of that name.
    pub(crate) fn first_bytes(
        &self,
        alloc: Global,
        name: &Text,
        most: u64,
    ) -> Result<Option<Vec<u8>>, NoMemory>
        ensures within { IfOk result (λ found. IfSome found (λ bytes. vec_len bytes ≤ most)) }
        ensures told { IfOk result (λ found. option_map (λ b. b.items) found ≡ first_bytes most name.now self.now.content) }
    {
        match self.files.get(name) {
            Some(bytes) => Ok(Some(front(alloc, bytes.as_slice(), most)?)),
            None => Ok(None),
        }
    }

    /// Puts a file under a name, in place of the one that was there. On an error nothing changed.
    pub(crate) fn put(&mut self, alloc: Global, name: &Text, bytes: &[u8]) -> Result<(), NoMemory>
        ensures first { self.new.first ≡ self.old.first }
        ensures ok { OnOk result (TookEffect (ToPut name.now bytes.now) self.old.content self.new.content self.old.journal self.new.journal) }
        ensures err { OnErr result (self.new ≡ self.old) }
    {
        let change = Change::Put {
            name: name.copy(alloc)?,
            bytes: Bytes::from_slice(alloc, bytes)?,
        };
        let name = name.copy(alloc)?;
        let bytes = Bytes::from_slice(alloc, bytes)?;
        self.changes.push(change)?;
        if let Err(refused) = self.files.insert(name, bytes) {
            self.changes.pop();
            return Err(refused);
        }
        Ok(())
    }

    /// Removes the file of a name; nothing changes where there is none, and on an error.
    pub(crate) fn remove(&mut self, alloc: Global, name: &Text) -> Result<(), NoMemory>
        ensures first { self.new.first ≡ self.old.first }
        ensures ok { OnOk result (WasRemoved name.now self.old.content self.new.content self.old.journal self.new.journal) }
        ensures err { OnErr result (self.new ≡ self.old) }
    {
        if self.files.get(name).is_none() {
            return Ok(());
        }
        self.changes.push(Change::Remove {
            name: name.copy(alloc)?,
        })?;
        self.files.remove(name);
        Ok(())
    }
}
