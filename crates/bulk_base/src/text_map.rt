// A map from texts that contracts see as a finite map.
ghost use Rattle.std.specs.Prelude.{◌≡◌, OnOk, OnErr, IfOk};
ghost use Rattle.std.specs.Option.{option_copied};
ghost use Rattle.std.specs.FinMap as map;

use crate::sequence::{Bytes, NoMemory, Sequence};
use crate::text::{Text, Texts};
use std::alloc::Global;
use std::collections::BTreeMap;
use std::marker::Model;

/// A map from texts to values. Contracts see it as a finite map from the texts' bytes, in byte order.
///
/// A look-up and a change take O(log n) comparisons.
#[derive(Drop)]
pub struct TextMap<V> {
    entries: BTreeMap<Text, V>,
}

impl<V> Model for TextMap<V> {
    ghost use Rattle.std.specs.Prelude.{List, ℕ};
    ghost use Rattle.std.specs.Ordering.{nat_cmp};
    ghost use Rattle.std.specs.Cmp.Lexicographic.{slice_cmp};
    ghost use Rattle.std.specs.FinMap as map;
    ghost use Rattle.std.specs.Coded.{coded_ℕ, coded_list};

    ghost Value = { map.FinMap (slice_cmp nat_cmp) V };

    ghost coded = { map.code (coded_list coded_ℕ) V.code };

    ghost view = { λ m. map.from_entries m.entries.entries };
}

impl<V> TextMap<V> {
    /// A map without entries; takes no memory.
    pub fn new(alloc: Global) -> TextMap<V>
        ensures { result ≡ map.empty }
    {
        TextMap {
            entries: BTreeMap::new(alloc),
        }
    }

    /// The value at a text; None where there is none.
    pub fn get(&self, key: &Text) -> Option<&V>
        ensures { option_copied result ≡ map.get self.now key.now }
    {
        self.entries.get(key)
    }

    /// Takes a text's value out of the map; None where there is none. A look-up.
    pub fn take(&mut self, key: &Text) -> Option<V>
        ensures value { result ≡ map.get self.old key.now }
        ensures rest { self.new ≡ map.remove self.old key.now }
    {
        self.entries.remove(key)
    }

    /// All texts that have a value, in byte order.
    pub fn keys(&self, alloc: Global) -> Result<Texts, NoMemory>
        ensures { IfOk result (λ keys. keys ≡ map.keys self.now) }
    {
        let mut keys = Sequence::new(alloc);
        for key in self.entries.keys() {
            keys.push(key.copy(alloc)?)?;
        }
        Ok(keys)
    }
}

impl<V: Drop> TextMap<V> {
    /// Gives a text a value, in place of the one that it had. On an error the map is as it was.
    pub fn insert(&mut self, key: Text, value: V) -> Result<(), NoMemory>
        ensures ok { OnOk result (self.new ≡ map.insert self.old key value) }
        ensures err { OnErr result (self.new ≡ self.old) }
    {
        self.entries.insert(key, value)?;
        Ok(())
    }

    /// Takes a text's value away, and says whether there was one.
    pub fn remove(&mut self, key: &Text) -> bool
        ensures found { result ≡ map.contains_key self.old key.now }
        ensures removed { self.new ≡ map.remove self.old key.now }
    {
        self.entries.remove(key).is_some()
    }
}

impl TextMap<Bytes> {
    /// Another map with copies of the texts and the bytes. Costs their bytes, and O(log n) comparisons for each.
    pub fn copy(&self, alloc: Global) -> Result<TextMap<Bytes>, NoMemory>
        ensures { IfOk result (λ copied. copied ≡ self.now) }
    {
        let mut copied = TextMap::new(alloc);
        for (key, bytes) in self.entries.iter() {
            copied.insert(
                key.copy(alloc)?,
                Bytes::from_slice(alloc, bytes.as_slice())?,
            )?;
        }
        Ok(copied)
    }
}
