// A ports tree in memory.
ghost use Rattle.std.specs.Prelude.{◌≡◌, ◌≤◌, ◌↔◌, true, IsTrue, IsErrOf, IfOk, IfErr, IfSome, OnOk, Some, None, [], vec_len};
ghost use Rattle.std.specs.Option.{option_map};
ghost use Rattle.std.specs.FinMap.{keys};
ghost use Rattle.outside.specs.Contents.{IsListing, files_below, first_bytes};
ghost use Rattle.outside.specs.Given.{content_of, first_folder};
ghost use Rattle.outside.specs.Errors.{IfNotFolder};
ghost use Rattle.outside.specs.Failures.{fresh, fails_next, counted};
ghost use Rattle.outside.specs.Faults.{HasCause};

use crate::failure::{CallKind, Fails, Failures};
use crate::folder::Folder;
use crate::mem_error::MemError;
use crate::outer::Outer;
use crate::tree::Tree;
use bulk_base::{Files, Path, Paths};
use std::alloc::Global;
use std::marker::Model;

/// A ports tree in memory, which tells its content and fails where it is planned to.
#[derive(Drop)]
pub struct MemTree {
    folder: Folder,
    failures: Failures,
}

impl Model for MemTree {
    ghost use Rattle.outside.specs.InMemory.{TreeState, tree_code};

    ghost Value = { TreeState };

    ghost coded = { tree_code };

    ghost view = { λ t. record { content = t.folder; failing = t.failures } };
}

impl MemTree {
    /// A tree with these files, of equal paths the last. NotFolder exactly where one path is a folder of another,
    /// with the least such folder. The calls in `fails` fail.
    pub fn new(alloc: Global, files: Files, fails: Fails) -> Result<MemTree, MemError>
        ensures tree { IfOk result (λ tree. tree ≡ record { content = content_of files; failing = fresh fails }) }
        ensures apart { OnOk result (first_folder (keys (content_of files)) ≡ None) }
        ensures not_folder { IfErr result (IfNotFolder (λ path. first_folder (keys (content_of files)) ≡ Some path)) }
    {
        Ok(MemTree {
            folder: Folder::from_files(alloc, files)?,
            failures: Failures::new(fails),
        })
    }

    /// How many calls failed: none where none was planned to.
    pub fn faults(&self) -> u64
        ensures count { result ≡ self.now.failing.faults }
        ensures none { self.now.failing.planned ≡ [] → result ≡ 0 }
    {
        self.failures.faults()
    }
}

impl Tree for MemTree {
    ghost tells = { true };

    ghost content = { λ tree. tree.content };

    ghost faults = { λ tree. tree.failing.faults };

    fn names(&mut self, alloc: Global, folder: &Path) -> Result<Paths, Outer>
        ensures listing { IfOk result (IsListing folder.now) }
        ensures told { IfOk result (λ paths. paths ≡ files_below folder.now self.old.content) }
        ensures same { self.new.content ≡ self.old.content }
        ensures fault { IsErrOf result Outer.Fault ↔ IsTrue (fails_next CallKind.Names self.old.failing) }
        ensures counted { self.new.failing ≡ counted CallKind.Names self.old.failing }
        ensures cause { HasCause self.old.failing.faults self.new.failing.faults result }
    {
        if self.failures.fails(CallKind::Names) {
            return Err(Outer::Fault);
        }
        Ok(self.folder.names(alloc, folder)?)
    }

    fn bytes(&mut self, alloc: Global, file: &Path, most: u64) -> Result<Option<Vec<u8>>, Outer>
        ensures within { IfOk result (λ found. IfSome found (λ bytes. vec_len bytes ≤ most)) }
        ensures told { IfOk result (λ found. option_map (λ b. b.items) found ≡ first_bytes most file.now self.old.content) }
        ensures same { self.new.content ≡ self.old.content }
        ensures fault { IsErrOf result Outer.Fault ↔ IsTrue (fails_next CallKind.Bytes self.old.failing) }
        ensures counted { self.new.failing ≡ counted CallKind.Bytes self.old.failing }
        ensures cause { HasCause self.old.failing.faults self.new.failing.faults result }
    {
        if self.failures.fails(CallKind::Bytes) {
            return Err(Outer::Fault);
        }
        Ok(self.folder.first_bytes(alloc, file, most)?)
    }
}
