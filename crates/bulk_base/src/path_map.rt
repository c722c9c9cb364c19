// A map from paths that contracts see as a finite map.
ghost use Rattle.std.specs.Prelude.{◌≡◌, ◌||◌, filter, OnOk, OnErr, IfOk};
ghost use Rattle.std.specs.Option.{option_copied};
ghost use Rattle.std.specs.Ordering.{nat_cmp};
ghost use Rattle.std.specs.Cmp.Lexicographic.{slice_cmp};
ghost use Rattle.std.specs.List.{list_any};
ghost use Rattle.std.specs.List.Sorted.{IsStrictlySortedBy};
ghost use Rattle.std.specs.FinMap as map;
ghost use Rattle.bulk_base.specs.Path.{is_below};

use crate::path::{Path, Paths};
use crate::sequence::{NoMemory, Sequence};
use crate::text::Text;
use std::alloc::Global;
use std::collections::BTreeMap;
use std::marker::Model;
use std::ops::Bound;

/// A map from paths to values. Contracts see it as a finite map from the paths' bytes, in byte order.
///
/// A look-up and a change take O(log n) comparisons.
#[derive(Drop)]
pub struct PathMap<V> {
    // By the paths' texts: a search begins at a folder and its slash, and that is no path.
    entries: BTreeMap<Text, V>,
}

impl<V> Model for PathMap<V> {
    ghost use Rattle.std.specs.Prelude.{List, ℕ};
    ghost use Rattle.std.specs.Ordering.{nat_cmp};
    ghost use Rattle.std.specs.Cmp.Lexicographic.{slice_cmp};
    ghost use Rattle.std.specs.FinMap as map;
    ghost use Rattle.std.specs.Coded.{coded_ℕ, coded_list};

    ghost Value = { map.FinMap (slice_cmp nat_cmp) V };

    ghost coded = { map.code (coded_list coded_ℕ) V.code };

    ghost view = { λ m. map.from_entries m.entries.entries };

    ghost use Rattle.std.specs.Prelude.{All};
    ghost use Rattle.std.specs.BTreeMap as tree;
    ghost use Rattle.bulk_base.specs.Path.{IsPath};

    ghost invariant = { λ m. All IsPath (tree.keys m.entries) };
}

impl<V> PathMap<V> {
    /// A map without entries; takes no memory.
    pub fn new(alloc: Global) -> PathMap<V>
        ensures { result ≡ map.empty }
    {
        PathMap {
            entries: BTreeMap::new(alloc),
        }
    }

    /// The value at a path; None where there is none.
    pub fn get(&self, key: &Path) -> Option<&V>
        ensures { option_copied result ≡ map.get self.now key.now }
    {
        self.entries.get(key.text())
    }

    /// Whether a path that has a value stands below a folder. NoMemory for want of memory alone. One look-up.
    pub fn has_below(&self, alloc: Global, folder: &Path) -> Result<bool, NoMemory>
        ensures { IfOk result (λ found. found ≡ list_any (is_below folder.now) (map.keys self.now)) }
    {
        let start = folder.with_slash(alloc)?;
        let mut rest = self
            .entries
            .range((Bound::Included(&start), Bound::Unbounded));
        match rest.next() {
            Some((key, _)) => Ok(key.bytes().starts_with(start.bytes())),
            None => Ok(false),
        }
    }

    fn has_text(&self, text: &Text) -> bool
        ensures { result ≡ map.contains_key self.now text.now }
    {
        self.entries.contains_key(text)
    }

    // Whether a folder of a path has a value.
    fn has_above(&self, alloc: Global, path: &Path) -> Result<bool, NoMemory>
        ensures { IfOk result (λ found. found ≡ list_any (λ other. is_below other path.now) (map.keys self.now)) }
    {
        let bytes = path.bytes();
        for at in 0..bytes.len() {
            if bytes[at] == b'/' && self.has_text(&path.front(alloc, at)?) {
                return Ok(true);
            }
        }
        Ok(false)
    }

    /// Whether a path is a folder of one that has a value, or below one. NoMemory for want of memory alone.
    ///
    /// One look-up for each folder of the path, and one for the first path below it.
    pub fn has_nested(&self, alloc: Global, path: &Path) -> Result<bool, NoMemory>
        ensures { IfOk result (λ nested. nested ≡ list_any (λ other. is_below path.now other || is_below other path.now) (map.keys self.now)) }
    {
        Ok(self.has_below(alloc, path)? || self.has_above(alloc, path)?)
    }

    /// All paths that have a value, in byte order, each once.
    pub fn keys(&self, alloc: Global) -> Result<Paths, NoMemory>
        ensures all { IfOk result (λ keys. keys ≡ map.keys self.now) }
        ensures order { IfOk result (IsStrictlySortedBy (slice_cmp nat_cmp)) }
    {
        let mut keys = Sequence::new(alloc);
        for key in self.entries.keys() {
            keys.push(Path::of_text(alloc, key)?)?;
        }
        Ok(keys)
    }

    /// The paths below a folder that have a value, in byte order, each once. One look-up, and the paths that are found.
    pub fn keys_below(&self, alloc: Global, folder: &Path) -> Result<Paths, NoMemory>
        ensures below { IfOk result (λ keys. keys ≡ filter (is_below folder.now) (map.keys self.now)) }
        ensures order { IfOk result (IsStrictlySortedBy (slice_cmp nat_cmp)) }
    {
        let start = folder.with_slash(alloc)?;
        let mut keys = Sequence::new(alloc);
        for (key, _) in self
            .entries
            .range((Bound::Included(&start), Bound::Unbounded))
        {
            if !key.bytes().starts_with(start.bytes()) {
                break;
            }
            keys.push(Path::of_text(alloc, key)?)?;
        }
        Ok(keys)
    }
}

impl<V: Drop> PathMap<V> {
    /// Gives a path a value, in place of the one that it had. On an error the map is as it was.
    pub fn insert(&mut self, key: Path, value: V) -> Result<(), NoMemory>
        ensures ok { OnOk result (self.new ≡ map.insert self.old key value) }
        ensures err { OnErr result (self.new ≡ self.old) }
    {
        self.entries.insert(key.into_text(), value)?;
        Ok(())
    }

    /// Takes a path's value away, and says whether there was one.
    pub fn remove(&mut self, key: &Path) -> bool
        ensures found { result ≡ map.contains_key self.old key.now }
        ensures removed { self.new ≡ map.remove self.old key.now }
    {
        self.entries.remove(key.text()).is_some()
    }
}
