// Runs, and what they leave.
use crate::endings::push_closed;
use crate::memory::{MemRoom, MemSink, MemStore, MemTree, Outer, Store};
use crate::stores::{items_of, push_names};
use crate::trees::tree_of;
use bulk_base::{Text, Texts};
use case_text::{CaseError, fails_of, files_of, push_str, push_texts, text_of, words_of};
use one_port::{Closed, bulk_alone};
use std::alloc::{AllocError, Global};

/// How a run ended, and the objects that it leaves.
#[derive(Drop)]
struct Ran {
    closed: Closed,
    store: MemStore,
    room: MemRoom,
    out: MemSink,
}

fn close(
    alloc: Global,
    words: &[Text],
    tree: &mut MemTree,
    store: &mut MemStore,
    room: &mut MemRoom,
    out: &mut MemSink,
) -> Closed {
    bulk_alone(alloc, words, tree, store, room, out)
}

/// A run over a tree and a store.
fn run_over(
    alloc: Global,
    words: &[Text],
    tree: &mut MemTree,
    mut store: MemStore,
    fails: &str,
) -> Result<Ran, CaseError> {
    let mut room = MemRoom::new(alloc, fails_of(alloc, fails, "room")?)?;
    let mut out = MemSink::new(alloc, fails_of(alloc, fails, "sink")?)?;
    let closed = close(alloc, words, tree, &mut store, &mut room, &mut out);
    Ok(Ran {
        closed,
        store,
        room,
        out,
    })
}

fn run(
    alloc: Global,
    words: &[Text],
    files: &str,
    items: &str,
    fails: &str,
) -> Result<Ran, CaseError> {
    let items = items_of(alloc, items)?;
    let mut tree = tree_of(alloc, files_of(alloc, files)?, fails)?;
    let store = MemStore::new(alloc, items, fails_of(alloc, fails, "store")?)?;
    run_over(alloc, words, &mut tree, store, fails)
}

/// Puts at the end what came of a run.
fn push_ran(
    alloc: Global,
    ran: &Ran,
    names: &Result<Texts, Outer>,
    out: &mut Vec<u8>,
) -> Result<(), AllocError> {
    push_closed(alloc, &ran.closed, out)?;
    push_str(out, "; store ")?;
    push_names(names, out)?;
    push_str(out, "; begun")?;
    push_texts(out, ran.room.begun())?;
    push_str(out, "; ")?;
    out.extend_from_slice(ran.out.written())
}

fn push_ended(alloc: Global, ran: &mut Ran, out: &mut Vec<u8>) -> Result<(), AllocError> {
    let names = ran.store.names(alloc);
    push_ran(alloc, ran, &names, out)
}

/// A run over a tree and a store with empty files, in which some calls of each object fail: its status, how it ended, the names in the
/// store, the builds that were begun, and what was printed.
pub(crate) fn answer_run(
    alloc: Global,
    [words, files, store, fails]: [&str; 4],
    out: &mut Vec<u8>,
) -> Result<(), CaseError> {
    let words = words_of(alloc, words)?;
    let mut ran = run(alloc, words.as_slice(), files, store, fails)?;
    Ok(push_ended(alloc, &mut ran, out)?)
}

fn push_stored(
    alloc: Global,
    store: &mut MemStore,
    name: &str,
    out: &mut Vec<u8>,
) -> Result<(), CaseError> {
    let name = text_of(alloc, name)?;
    match store.get(alloc, &name, 1_000_000) {
        Ok(Some(bytes)) => Ok(out.extend_from_slice(bytes.as_slice())?),
        Ok(None) => Ok(push_str(out, "none")?),
        Err(_) => Err(CaseError::Unfit),
    }
}

/// What a run leaves in the store under a name.
pub(crate) fn answer_stored(
    alloc: Global,
    [words, files, name]: [&str; 3],
    out: &mut Vec<u8>,
) -> Result<(), CaseError> {
    let words = words_of(alloc, words)?;
    let mut ran = run(alloc, words.as_slice(), files, "", "")?;
    push_stored(alloc, &mut ran.store, name, out)
}
