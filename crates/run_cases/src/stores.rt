// Stores and sinks in memory.
use crate::memory::{Change, Item, Items, MemSink, MemStore, Outer, Sink, Store};
use crate::trees::push_file;
use bulk_base::{Bytes, Sequence, Text, Texts};
use case_text::{
    CaseError, bytes_of, fails_of, number_of, push_number, push_str, push_text, push_texts, text_of,
};
use std::alloc::{AllocError, Global};

fn item_of(alloc: Global, name: Text, bytes: &str) -> Result<Item, CaseError> {
    let bytes = Bytes::from_vec(bytes_of(alloc, bytes)?);
    Ok(Item { name, bytes })
}

/// The files of a store, with `&` between: each a name, `:` and its bytes.
pub(crate) fn items_of(alloc: Global, field: &str) -> Result<Items, CaseError> {
    let mut items = Sequence::new(alloc);
    for part in field.split('&') {
        if let Some((name, bytes)) = part.split_once(':') {
            items.push(item_of(alloc, text_of(alloc, name)?, bytes)?)?;
        }
    }
    Ok(items)
}

/// Puts names at the end, or that the call failed.
pub(crate) fn push_names(
    found: &Result<Texts, Outer>,
    out: &mut Vec<u8>,
) -> Result<(), AllocError> {
    match found {
        Ok(names) => {
            push_str(out, "[")?;
            push_texts(out, names.as_slice())?;
            push_str(out, " ]")
        }
        Err(Outer::Fault) => push_str(out, "Fault"),
        Err(Outer::NoMemory) => push_str(out, "NoMemory"),
    }
}

/// Puts at the end whether a call that changes something did.
pub(crate) fn push_done(done: &Result<(), Outer>, out: &mut Vec<u8>) -> Result<(), AllocError> {
    push_str(
        out,
        match done {
            Ok(()) => "Ok",
            Err(Outer::Fault) => "Fault",
            Err(Outer::NoMemory) => "NoMemory",
        },
    )
}

/// Puts the names at the end of the store that a stop behind so many changes leaves, or that there were fewer changes.
fn push_stopped(
    alloc: Global,
    store: &MemStore,
    changes: &str,
    out: &mut Vec<u8>,
) -> Result<(), CaseError> {
    match store.stopped(alloc, number_of(changes)?)? {
        Some(mut left) => Ok(push_names(&left.names(alloc), out)?),
        None => Ok(push_str(out, "fewer changes")?),
    }
}

/// Puts at the end what a call of the store answers.
fn push_call(
    alloc: Global,
    store: &mut MemStore,
    call: &[&str],
    out: &mut Vec<u8>,
) -> Result<(), CaseError> {
    match call {
        ["names"] => Ok(push_names(&store.names(alloc), out)?),
        ["get", most, name] => {
            let found = store.get(alloc, &text_of(alloc, name)?, number_of(most)?);
            Ok(push_file(&found, out)?)
        }
        ["put", name, bytes] => {
            let bytes = bytes_of(alloc, bytes)?;
            Ok(push_done(
                &store.put(alloc, &text_of(alloc, name)?, bytes.as_slice()),
                out,
            )?)
        }
        ["stopped", changes] => push_stopped(alloc, store, changes, out),
        ["remove", name] => Ok(push_done(&store.remove(alloc, &text_of(alloc, name)?), out)?),
        _ => Err(CaseError::Unfit),
    }
}

fn push_change(change: &Change, out: &mut Vec<u8>) -> Result<(), AllocError> {
    match change {
        Change::Put { name, bytes } => {
            push_str(out, " +")?;
            push_text(out, name)?;
            push_str(out, "=")?;
            out.extend_from_slice(bytes.as_slice())
        }
        Change::Remove { name } => {
            push_str(out, " -")?;
            push_text(out, name)
        }
    }
}

/// Puts at the end what the calls of a store answer, one after another.
fn push_calls(
    alloc: Global,
    store: &mut MemStore,
    calls: &str,
    out: &mut Vec<u8>,
) -> Result<(), CaseError> {
    for call in calls.split(';') {
        let words: Vec<&str> = call.split(' ').collect(alloc)?;
        push_call(alloc, store, words.as_slice(), out)?;
        push_str(out, "; ")?;
    }
    Ok(())
}

/// Puts at the end the journal of a store, and how many of its calls failed.
fn push_journal(alloc: Global, store: &MemStore, out: &mut Vec<u8>) -> Result<(), AllocError> {
    push_str(out, "journal")?;
    for change in store.journal() {
        push_change(change, out)?;
    }
    push_str(out, "; faults ")?;
    push_number(alloc, out, store.faults())
}

fn push_store(
    alloc: Global,
    store: &mut MemStore,
    calls: &str,
    out: &mut Vec<u8>,
) -> Result<(), CaseError> {
    push_calls(alloc, store, calls, out)?;
    Ok(push_journal(alloc, store, out)?)
}

/// What the calls of a store answer, one after another, its journal, and how many of them failed.
pub(crate) fn answer_store(
    alloc: Global,
    items: &str,
    fails: &str,
    calls: &str,
    out: &mut Vec<u8>,
) -> Result<(), CaseError> {
    let items = items_of(alloc, items)?;
    let mut store = MemStore::new(alloc, items, fails_of(alloc, fails, "")?)?;
    push_store(alloc, &mut store, calls, out)
}

/// Puts at the end whether a sink takes some pieces, what was written, and how many calls failed.
fn push_pieces(
    alloc: Global,
    sink: &mut MemSink,
    pieces: &str,
    out: &mut Vec<u8>,
) -> Result<(), CaseError> {
    for piece in pieces.split(';') {
        let bytes = bytes_of(alloc, piece)?;
        push_done(&sink.write(alloc, bytes.as_slice()), out)?;
        push_str(out, "; ")?;
    }
    push_str(out, "written ")?;
    out.extend_from_slice(sink.written())?;
    push_str(out, "; faults ")?;
    Ok(push_number(alloc, out, sink.faults())?)
}

/// Whether a sink takes some pieces, with `;` between, what was written, and how many calls failed.
pub(crate) fn answer_sink(
    alloc: Global,
    fails: &str,
    pieces: &str,
    out: &mut Vec<u8>,
) -> Result<(), CaseError> {
    let mut sink = MemSink::new(alloc, fails_of(alloc, fails, "")?)?;
    push_pieces(alloc, &mut sink, pieces, out)
}
