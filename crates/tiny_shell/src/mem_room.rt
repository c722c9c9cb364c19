// A room in memory.
ghost use Rattle.std.specs.Prelude.{◌≡◌, ◌≤◌, ◌<◌, ◌↔◌, true, IsTrue, IsErrOf, IfOk, IfSome, OnOk, OnErr, [], ◌∷◌, ◌++◌, length, vec_len};
ghost use Rattle.std.specs.Option.{option_map};
ghost use Rattle.std.specs.FinMap.{empty, insert};
ghost use Rattle.outside.specs.Contents.{IsListing, IsFree, files_below, first_bytes};
ghost use Rattle.outside.specs.Outcomes.{GrewByAtMost};
ghost use Rattle.outside.specs.Failures.{fresh, fails_next, counted};
ghost use Rattle.outside.specs.Faults.{HasCause};
ghost use Rattle.tiny_shell.specs.Programs.{mem_runs};

use crate::program;
use bulk_base::{Bytes, NoMemory, Path, Paths, Sequence, Text, Texts};
use outside::{CallKind, Fails, Failures, Folder, Outer, Room, Ways};
use std::alloc::Global;
use std::marker::Model;

/// The ways of rooms in memory: the programs `true`, `false`, `exit`, `put`, `cp` and `list` (docs/FORMATS.md).
pub struct MemWays;

impl Ways for MemWays {
    ghost tells = { true };

    ghost runs = { mem_runs };
}

/// A room in memory, which tells what its folder holds and fails where it is planned to. No path in its folder is a
/// folder of another. A call that ends otherwise than well leaves all as it was.
#[derive(Drop)]
pub struct MemRoom {
    folder: Folder,
    begun: Texts,
    failures: Failures,
}

impl Model for MemRoom {
    ghost use Rattle.tiny_shell.specs.RoomState.{RoomState, room_code};

    ghost Value = { RoomState };

    ghost coded = { room_code };

    ghost view = { λ r. record { folder = r.folder; begun = r.begun; failing = r.failures } };
}

impl MemRoom {
    /// A room with an empty folder, in which no build began. The calls in `fails` fail.
    pub fn new(alloc: Global, fails: Fails) -> Result<MemRoom, NoMemory>
        ensures { IfOk result (λ room. room ≡ record { folder = empty; begun = []; failing = fresh fails }) }
    {
        Ok(MemRoom {
            folder: Folder::new(alloc),
            begun: Sequence::new(alloc),
            failures: Failures::new(fails),
        })
    }

    /// The names that were given to `clear`, in order.
    pub fn begun(&self) -> &[Text]
        ensures { result.now ≡ self.now.begun }
    {
        self.begun.as_slice()
    }

    /// How many calls failed: none where none was planned to.
    pub fn faults(&self) -> u64
        ensures count { result ≡ self.now.failing.faults }
        ensures none { self.now.failing.planned ≡ [] → result ≡ 0 }
    {
        self.failures.faults()
    }
}

impl Room for MemRoom {
    type Ways = MemWays;

    ghost folder = { λ room. room.folder };

    ghost begun = { λ room. room.begun };

    ghost faults = { λ room. room.failing.faults };

    fn clear(&mut self, alloc: Global, name: &Text) -> Result<(), Outer>
        ensures emptied { OnOk result (self.new.folder ≡ empty) }
        ensures begun { OnOk result (self.new.begun ≡ self.old.begun ++ name.now ∷ []) }
        ensures begun_err { OnErr result (GrewByAtMost name.now self.old.begun self.new.begun) }
        ensures err { OnErr result ((self.new.folder ≡ self.old.folder) × (self.new.begun ≡ self.old.begun)) }
        ensures fault { IsErrOf result Outer.Fault ↔ IsTrue (fails_next CallKind.Clear self.old.failing) }
        ensures counted { self.new.failing ≡ counted CallKind.Clear self.old.failing }
        ensures cause { HasCause self.old.failing.faults self.new.failing.faults result }
    {
        if self.failures.fails(CallKind::Clear) {
            return Err(Outer::Fault);
        }
        self.begun.push(name.copy(alloc)?)?;
        self.folder = Folder::new(alloc);
        Ok(())
    }

    fn put(&mut self, alloc: Global, path: &Path, bytes: &[u8]) -> Result<(), Outer>
        requires { IsFree path.now self.old.folder }
        ensures told { OnOk result (self.new.folder ≡ insert self.old.folder path.now bytes.now) }
        ensures begun { self.new.begun ≡ self.old.begun }
        ensures err { OnErr result (self.new.folder ≡ self.old.folder) }
        ensures fault { IsErrOf result Outer.Fault ↔ IsTrue (fails_next CallKind.Put self.old.failing) }
        ensures counted { self.new.failing ≡ counted CallKind.Put self.old.failing }
        ensures cause { HasCause self.old.failing.faults self.new.failing.faults result }
    {
        if self.failures.fails(CallKind::Put) {
            return Err(Outer::Fault);
        }
        let path = path.copy(alloc)?;
        let bytes = Bytes::from_slice(alloc, bytes)?;
        self.folder.put(path, bytes)?;
        Ok(())
    }

    fn run(&mut self, alloc: Global, words: &[Text]) -> Result<u8, Outer>
        requires { 0 < length words.now }
        ensures status { IfOk result (λ status. status ≡ (mem_runs words.now self.old.folder).0) }
        ensures after { OnOk result (self.new.folder ≡ (mem_runs words.now self.old.folder).1) }
        ensures begun { self.new.begun ≡ self.old.begun }
        ensures err { OnErr result (self.new.folder ≡ self.old.folder) }
        ensures fault { IsErrOf result Outer.Fault ↔ IsTrue (fails_next CallKind.Run self.old.failing) }
        ensures counted { self.new.failing ≡ counted CallKind.Run self.old.failing }
        ensures cause { HasCause self.old.failing.faults self.new.failing.faults result }
    {
        if self.failures.fails(CallKind::Run) {
            return Err(Outer::Fault);
        }
        Ok(program::run(&mut self.folder, alloc, words)?)
    }

    fn names(&mut self, alloc: Global, below: &Path) -> Result<Paths, Outer>
        ensures listing { IfOk result (IsListing below.now) }
        ensures told { IfOk result (λ paths. paths ≡ files_below below.now self.old.folder) }
        ensures same { self.new.folder ≡ self.old.folder }
        ensures begun { self.new.begun ≡ self.old.begun }
        ensures fault { IsErrOf result Outer.Fault ↔ IsTrue (fails_next CallKind.Names self.old.failing) }
        ensures counted { self.new.failing ≡ counted CallKind.Names self.old.failing }
        ensures cause { HasCause self.old.failing.faults self.new.failing.faults result }
    {
        if self.failures.fails(CallKind::Names) {
            return Err(Outer::Fault);
        }
        Ok(self.folder.names(alloc, below)?)
    }

    fn take(&mut self, alloc: Global, file: &Path, most: u64) -> Result<Option<Vec<u8>>, Outer>
        ensures within { IfOk result (λ found. IfSome found (λ bytes. vec_len bytes ≤ most)) }
        ensures told { IfOk result (λ found. option_map (λ b. b.items) found ≡ first_bytes most file.now self.old.folder) }
        ensures same { self.new.folder ≡ self.old.folder }
        ensures begun { self.new.begun ≡ self.old.begun }
        ensures fault { IsErrOf result Outer.Fault ↔ IsTrue (fails_next CallKind.Take self.old.failing) }
        ensures counted { self.new.failing ≡ counted CallKind.Take self.old.failing }
        ensures cause { HasCause self.old.failing.faults self.new.failing.faults result }
    {
        if self.failures.fails(CallKind::Take) {
            return Err(Outer::Fault);
        }
        Ok(self.folder.first_bytes(alloc, file, most)?)
    }
}
