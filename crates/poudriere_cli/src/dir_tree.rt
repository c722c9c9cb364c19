// A ports tree on a disk.
ghost use Rattle.std.specs.Prelude.{◌≡◌};

use crate::fault::noted;
use crate::folder_files::{first_bytes_of, listed};
use bulk_base::{Path, Paths};
use outside::{Outer, Tree};
use std::alloc::Global;
use std::rt::Files;

/// A ports tree in a folder of a disk, links followed.
#[derive(Drop)]
pub struct DirTree<R: Files + AllocGlobal + Clone + Drop> {
    rt: R,
    folder: String,
    faults: u64,
}

impl<R: Files + AllocGlobal + Clone + Drop> DirTree<R> {
    /// The tree in a folder, which may be absent.
    pub fn new(rt: R, folder: String) -> DirTree<R>
        ensures folder { result.folder ≡ folder }
        ensures faults { result.faults ≡ 0 }
    {
        DirTree {
            rt,
            folder,
            faults: 0,
        }
    }
}

impl<R: Files + AllocGlobal + Clone + Drop> Tree for DirTree<R> {
    ghost use Rattle.std.specs.Prelude.{false};
    ghost use Rattle.std.specs.FinMap.{empty};

    ghost tells = { false };

    ghost content = { λ _. empty };

    ghost faults = { λ s. s.faults };

    fn names(&mut self, _alloc: Global, folder: &Path) -> Result<Paths, Outer> {
        let listed = listed(&self.rt, self.folder.as_str(), folder);
        noted(&mut self.faults, listed)
    }

    fn bytes(&mut self, alloc: Global, file: &Path, most: u64) -> Result<Option<Vec<u8>>, Outer> {
        let read = first_bytes_of(&self.rt, alloc, self.folder.as_str(), file, most);
        noted(&mut self.faults, read)
    }
}
