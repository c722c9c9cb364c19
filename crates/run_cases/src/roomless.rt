// Runs to which no room is handed.
use crate::endings::push_closed;
use crate::memory::{MemRoom, MemSink, MemStore, OpenGate};
use crate::trees::tree_of;
use bulk_base::{Sequence, Text};
use case_text::{CaseError, files_of, push_str, words_of};
use one_port::{Closed, Finished, poudriere};
use std::alloc::{AllocError, Global};
use std::sync::Wait;
use std::thread::Threads;

fn run<W: Threads + Wait + Sync>(
    rt: &W,
    alloc: Global,
    words: &[Text],
    sink: &mut MemSink,
) -> Result<Closed, CaseError> {
    let mut tree = tree_of(alloc, files_of(alloc, "")?, "")?;
    let store = MemStore::new(alloc, Sequence::new(alloc), Sequence::new(alloc))?;
    let rooms = Vec::<MemRoom>::new(alloc);
    let Finished {
        status,
        answer,
        store,
        rooms,
    } = poudriere(rt, alloc, words, &mut tree, store, rooms, &OpenGate, sink);
    drop((store, rooms));
    Ok(Closed { status, answer })
}

/// Puts at the end how a run ended, and what was printed.
fn push_printed(
    alloc: Global,
    closed: &Closed,
    sink: &MemSink,
    out: &mut Vec<u8>,
) -> Result<(), AllocError> {
    push_closed(alloc, closed, out)?;
    push_str(out, "; ")?;
    out.extend_from_slice(sink.written())
}

/// A run of some words without a room: its status, how it ended, and what was printed.
pub(crate) fn answer_roomless<W: Threads + Wait + Sync>(
    rt: &W,
    alloc: Global,
    words: &str,
    out: &mut Vec<u8>,
) -> Result<(), CaseError> {
    let words = words_of(alloc, words)?;
    let mut sink = MemSink::new(alloc, Sequence::new(alloc))?;
    let closed = run(rt, alloc, words.as_slice(), &mut sink)?;
    Ok(push_printed(alloc, &closed, &sink, out)?)
}
