// The trees of an overlay, one at a time.
ghost use Rattle.std.specs.Prelude.{◌≡◌, ◌≤◌, ◌<◌, ◌+◌, ◌∷◌, ℕ, List, map, length, slice_index_or, take, IsTrue, IfOk, IfSome, vec_len};
ghost use Rattle.std.specs.Option.{option_map};
ghost use Rattle.std.specs.FinMap.{empty, get};
ghost use Rattle.std.specs.List.{list_all};
ghost use Rattle.outside.specs.Contents.{IsListing, has_no_folder, files_below, first_bytes};
ghost use Rattle.outside.specs.Faults.{HasCause};
ghost use Rattle.overlay_tree.specs.Listed.{total};
ghost use Rattle.overlay_tree.specs.Merged.{joined_file, last_file};

use crate::overlay::Overlay;
use crate::pieces::put_behind;
use bulk_base::{Path, Paths, Sequence};
use outside::{Outer, Tree};
use std::alloc::Global;

impl<T: Tree> Overlay<T> {
    /// How many trees there are.
    pub(crate) fn len(&self) -> usize
        ensures { result ≡ length self.now }
    {
        1 + self.overlays.len()
    }

    /// The files below a folder in the tree at a place.
    pub(crate) fn names_at(
        &mut self,
        alloc: Global,
        at: usize,
        folder: &Path,
    ) -> Result<Paths, Outer>
        requires { at < length self.old }
        ensures listing { IfOk result (IsListing folder.now) }
        ensures told { IsTrue T.tells → IfOk result (λ paths. paths ≡ files_below folder.now (slice_index_or (map T.content self.old) at empty)) }
        ensures same { map T.content self.new ≡ map T.content self.old }
        ensures cause { HasCause (total T.faults self.old) (total T.faults self.new) result }
    {
        if at == 0 {
            self.base.names(alloc, folder)
        } else {
            self.overlays[at - 1].names(alloc, folder)
        }
    }

    /// The first `most` bytes of a file in the tree at a place.
    pub(crate) fn bytes_at(
        &mut self,
        alloc: Global,
        at: usize,
        file: &Path,
        most: u64,
    ) -> Result<Option<Vec<u8>>, Outer>
        requires { at < length self.old }
        ensures within { IfOk result (λ found. IfSome found (λ bytes. vec_len bytes ≤ most)) }
        ensures told { IsTrue T.tells → IfOk result (λ found. option_map (λ b. b.items) found ≡ first_bytes most file.now (slice_index_or (map T.content self.old) at empty)) }
        ensures same { map T.content self.new ≡ map T.content self.old }
        ensures cause { HasCause (total T.faults self.old) (total T.faults self.new) result }
    {
        if at == 0 {
            self.base.bytes(alloc, file, most)
        } else {
            self.overlays[at - 1].bytes(alloc, file, most)
        }
    }
}

impl<T: Tree> Overlay<T> {
    /// The files below a folder in each tree, the base's first.
    pub(crate) fn lists_below(
        &mut self,
        alloc: Global,
        folder: &Path,
    ) -> Result<Sequence<Paths>, Outer>
        ensures apart { IfOk result (λ lists. IsTrue (list_all has_no_folder lists)) }
        ensures told { IsTrue T.tells → IfOk result (λ lists. lists ≡ map (files_below folder.now) (map T.content self.old)) }
        ensures same { map T.content self.new ≡ map T.content self.old }
        ensures cause { HasCause (total T.faults self.old) (total T.faults self.new) result }
    {
        let mut lists = Sequence::new(alloc);
        for at in 0..self.len() {
            lists.push(self.names_at(alloc, at, folder)?)?;
        }
        Ok(lists)
    }

    /// The place of the last tree that has any file below a folder; that of the base, where no overlay has one.
    pub(crate) fn last_with(&mut self, alloc: Global, folder: &Path) -> Result<usize, Outer>
        ensures within { IfOk result (λ at. at < length self.old) }
        ensures told { IsTrue T.tells → IfOk result (λ at. (path : List ℕ) → last_file folder.now (map T.content self.old) path ≡ get (slice_index_or (map T.content self.old) at empty) path) }
        ensures same { map T.content self.new ≡ map T.content self.old }
        ensures cause { HasCause (total T.faults self.old) (total T.faults self.new) result }
    {
        let mut at = self.overlays.len();
        while at > 0 {
            if !self.names_at(alloc, at, folder)?.is_empty() {
                return Ok(at);
            }
            at -= 1;
        }
        Ok(0)
    }

    /// The first `most` bytes of a file in all trees that have it, a line feed between each two.
    pub(crate) fn joined_bytes(
        &mut self,
        alloc: Global,
        file: &Path,
        most: u64,
    ) -> Result<Option<Vec<u8>>, Outer>
        ensures within { IfOk result (λ found. IfSome found (λ bytes. vec_len bytes ≤ most)) }
        ensures told { IsTrue T.tells → IfOk result (λ found. option_map (λ b. b.items) found ≡ option_map (take most) (joined_file (map T.content self.old) file.now)) }
        ensures same { map T.content self.new ≡ map T.content self.old }
        ensures cause { HasCause (total T.faults self.old) (total T.faults self.new) result }
    {
        let mut found = None;
        for at in 0..self.len() {
            if let Some(piece) = self.bytes_at(alloc, at, file, most)? {
                found = Some(put_behind(found, piece, most)?);
            }
        }
        Ok(found)
    }
}
