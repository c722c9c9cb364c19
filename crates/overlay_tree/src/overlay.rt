// A ports tree with overlays over it.
ghost use Rattle.std.specs.Prelude.{◌≡◌, ◌≤◌, ◌<◌, ◌==◌, ◌||◌, false, ◌∷◌, ℕ, List, map, length, take, IsTrue, IfOk, IfSome, vec_len};
ghost use Rattle.std.specs.Option.{option_map};
ghost use Rattle.outside.specs.Contents.{IsListing, files_below, first_bytes};
ghost use Rattle.outside.specs.Faults.{HasCause};
ghost use Rattle.overlay_tree.specs.Merged.{merged, last_file};
ghost use Rattle.overlay_tree.specs.Places as places;
ghost use Rattle.overlay_tree.specs.Listed.{total};

use crate::merging::merge;
use crate::placing::{is_base, is_in_base, is_in_ports, is_joined, is_port_file, port_of};
use bulk_base::{Path, Paths, Sequence};
use outside::{Outer, Tree};
use std::alloc::Global;
use std::marker::Model;

/// A ports tree with overlays over it, itself a tree. Contracts see it as the list of its trees, the base first, then the
/// overlays from the lowest to the uppermost.
///
/// With at least one overlay, what is below `etc/`, `base/` and `distfiles/` is the base's; the lists of categories and of
/// ports and MOVED are those of all trees, one behind the other; the files of a port are those of the last tree that has
/// any file in the port's folder; nothing else is there (docs/FORMATS.md). Without one it is as its base.
#[derive(Drop)]
pub struct Overlay<T> {
    pub(crate) base: T,
    pub(crate) overlays: Vec<T>,
}

impl<T> Model for Overlay<T> {
    ghost use Rattle.std.specs.Prelude.{List, ◌∷◌};
    ghost use Rattle.std.specs.Coded.{coded_list};

    ghost Value = { List T };

    ghost coded = { coded_list T.code };

    ghost view = { λ o. o.base ∷ o.overlays.items };
}

impl<T> Overlay<T> {
    /// A base with overlays over it, the first of them the lowest. Takes no memory.
    pub fn new(base: T, overlays: Vec<T>) -> Overlay<T>
        ensures { result ≡ base ∷ overlays.items }
    {
        Overlay { base, overlays }
    }

    /// The base and the overlays. Takes no memory.
    pub fn into_parts(self) -> (T, Vec<T>)
        ensures { result.0 ∷ result.1.items ≡ self }
    {
        let Overlay { base, overlays } = self;
        (base, overlays)
    }

    // Whether the base alone says what is below a folder.
    fn is_base_folder(&self, folder: &Path) -> bool
        ensures base { result ≡ (length self.now == 1 || places.is_base folder.now) }
        ensures laid { result ≡ false → 1 < length self.now }
        ensures some { 0 < length self.now }
    {
        self.overlays.is_empty() || is_base(folder.bytes())
    }

    // Whether the base alone says what is at a path.
    fn is_base_file(&self, file: &Path) -> bool
        ensures base { result ≡ (length self.now == 1 || places.is_in_base file.now) }
        ensures some { 0 < length self.now }
    {
        self.overlays.is_empty() || is_in_base(file.bytes())
    }
}

impl<T: Tree> Overlay<T> {
    /// The files below a folder that is `ports` or below it, where there is an overlay.
    fn port_names(&mut self, alloc: Global, folder: &Path) -> Result<Paths, Outer>
        requires place { IsTrue (places.is_in_ports folder.now) }
        requires laid { 1 < length self.old }
        ensures listing { IfOk result (IsListing folder.now) }
        ensures told { IsTrue T.tells → IfOk result (λ paths. paths ≡ files_below folder.now (merged (map T.content self.old))) }
        ensures same { map T.content self.new ≡ map T.content self.old }
        ensures cause { HasCause (total T.faults self.old) (total T.faults self.new) result }
    {
        let root = Path::of(alloc, port_of(folder.bytes()))?;
        let lists = self.lists_below(alloc, &root)?;
        Ok(merge(alloc, &lists, folder)?)
    }

    /// The first `most` bytes of a port's file, where there is an overlay.
    fn port_bytes(
        &mut self,
        alloc: Global,
        file: &Path,
        most: u64,
    ) -> Result<Option<Vec<u8>>, Outer>
        ensures within { IfOk result (λ found. IfSome found (λ bytes. vec_len bytes ≤ most)) }
        ensures told { IsTrue T.tells → IfOk result (λ found. option_map (λ b. b.items) found
            ≡ option_map (take most) (last_file (places.port_of file.now) (map T.content self.old) file.now)) }
        ensures same { map T.content self.new ≡ map T.content self.old }
        ensures cause { HasCause (total T.faults self.old) (total T.faults self.new) result }
    {
        let port = Path::of(alloc, port_of(file.bytes()))?;
        let at = self.last_with(alloc, &port)?;
        self.bytes_at(alloc, at, file, most)
    }
}

impl<T: Tree> Tree for Overlay<T> {
    ghost tells = { T.tells };

    ghost content = { λ trees. merged (map T.content trees) };

    ghost faults = { λ trees. total T.faults trees };

    fn names(&mut self, alloc: Global, folder: &Path) -> Result<Paths, Outer> {
        if self.is_base_folder(folder) {
            return self.names_at(alloc, 0, folder);
        }
        if is_in_ports(folder.bytes()) {
            return self.port_names(alloc, folder);
        }
        Ok(Sequence::new(alloc))
    }

    fn bytes(&mut self, alloc: Global, file: &Path, most: u64) -> Result<Option<Vec<u8>>, Outer> {
        if self.is_base_file(file) {
            return self.bytes_at(alloc, 0, file, most);
        }
        if is_joined(file.bytes()) {
            return self.joined_bytes(alloc, file, most);
        }
        if is_port_file(file.bytes()) {
            return self.port_bytes(alloc, file, most);
        }
        Ok(None)
    }
}
