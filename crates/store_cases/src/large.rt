// Stores at their limits.
ghost use Rattle.std.specs.Prelude.{false};

use crate::stores::{push_error, push_faults};
use bulk_base::{Bytes, Sequence, Text, Texts};
use case_text::{CaseError, fails_of, number_of, push_number, push_str, text_of};
use outside::{Item, Items, MemStore, Outer, Store};
use pkg_store::{Loaded, StoreError, load_all};
use std::alloc::{AllocError, Global};

fn empty_item(alloc: Global, n: u64) -> Result<Item, CaseError> {
    let name = text_of(alloc, format!(in alloc; "n{n:06}.pkg")?.as_str())?;
    let bytes = Bytes::new(alloc);
    Ok(Item { name, bytes })
}

/// So many package files without a byte.
fn many_items(alloc: Global, count: u64) -> Result<Items, CaseError> {
    let mut items = Sequence::new(alloc);
    for n in 0..count {
        items.push(empty_item(alloc, n)?)?;
    }
    Ok(items)
}

fn push_read(
    alloc: Global,
    read: Result<Loaded, StoreError>,
    out: &mut Vec<u8>,
) -> Result<(), AllocError> {
    match read {
        Ok(loaded) => {
            push_str(out, "damaged ")?;
            push_number(alloc, out, loaded.damaged.len() as u64)
        }
        Err(error) => push_error(alloc, error, out),
    }
}

/// What so many package files without a byte are read as.
pub(crate) fn answer_many(
    alloc: Global,
    count: &str,
    fails: &str,
    out: &mut Vec<u8>,
) -> Result<(), CaseError> {
    let items = many_items(alloc, number_of(count)?)?;
    let mut store = MemStore::new(alloc, items, fails_of(alloc, fails, "")?)?;
    let read = load_all(alloc, &mut store);
    push_read(alloc, read, out)?;
    Ok(push_faults(alloc, &store, out)?)
}

/// A store each of whose files has so many line feeds, which it tells nobody, and which keeps how many bytes were asked for
/// last.
#[derive(Drop)]
struct Inflated {
    kept: MemStore,
    size: u64,
    asked: u64,
}

impl Store for Inflated {
    ghost tells = { false };

    ghost content = { λ s. s.kept.content };

    ghost journal = { λ s. s.kept.journal };

    ghost faults = { λ s. s.kept.failing.faults };

    fn names(&mut self, alloc: Global) -> Result<Texts, Outer> {
        self.kept.names(alloc)
    }

    fn get(&mut self, alloc: Global, name: &Text, most: u64) -> Result<Option<Vec<u8>>, Outer> {
        let _ = name;
        self.asked = most;
        let count = most.min(self.size);
        Ok(Some(vec![in alloc; b'\n'; count as usize]?))
    }

    fn put(&mut self, alloc: Global, name: &Text, bytes: &[u8]) -> Result<(), Outer> {
        self.kept.put(alloc, name, bytes)
    }

    fn remove(&mut self, alloc: Global, name: &Text) -> Result<(), Outer> {
        self.kept.remove(alloc, name)
    }
}

/// What so many package files with so many bytes each are read as, and how many bytes of the last one were asked for.
pub(crate) fn answer_big(
    alloc: Global,
    count: &str,
    size: &str,
    out: &mut Vec<u8>,
) -> Result<(), CaseError> {
    let items = many_items(alloc, number_of(count)?)?;
    let kept = MemStore::new(alloc, items, Sequence::new(alloc))?;
    let size = number_of(size)?;
    let mut store = Inflated {
        kept,
        size,
        asked: 0,
    };
    let read = load_all(alloc, &mut store);
    push_read(alloc, read, out)?;
    push_str(out, "; asked last ")?;
    Ok(push_number(alloc, out, store.asked)?)
}
