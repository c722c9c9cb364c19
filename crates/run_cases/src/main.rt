//! Cases of runs over objects in memory, and of these objects: a line of standard input each, with fields between bars, and an
//! answer a line.
#![tactic(auto)]

mod endings;
mod gates;
mod memory;
mod roomless;
mod rooms;
mod runs;
mod stores;
mod trees;

use case_text::{CaseError, shown_answer};
use std::alloc::{AllocError, Global};
use std::io;
use std::sync::Wait;
use std::thread::Threads;

fn answer(alloc: Global, case: &[&str], out: &mut Vec<u8>) -> Result<(), CaseError> {
    match case {
        ["run", words, files, store, fails] => {
            runs::answer_run(alloc, [words, files, store, fails], out)
        }
        ["stored", words, files, name] => runs::answer_stored(alloc, [words, files, name], out),
        ["tree", files, fails, calls] => trees::answer_tree(alloc, files, fails, calls, out),
        ["store", items, fails, calls] => stores::answer_store(alloc, items, fails, calls, out),
        ["sink", fails, pieces] => stores::answer_sink(alloc, fails, pieces, out),
        ["room", fails, calls] => rooms::answer_room(alloc, fails, calls, out),
        ["gate", limit, builders] => gates::answer_gate(limit, builders, out),
        _ => Err(CaseError::Unfit),
    }
}

/// The line of an answer. An empty line and one that begins with `#` are headings, and answer themselves.
fn answer_line<W: Threads + Wait + Sync>(
    rt: &W,
    alloc: Global,
    line: &str,
) -> Result<String, AllocError> {
    if line.is_empty() || line.starts_with('#') {
        return line.to_string(alloc);
    }
    let mut out = Vec::new(alloc);
    let fields: Vec<&str> = line.split('|').collect(alloc)?;
    let answered = match fields.as_slice() {
        ["roomless", words] => roomless::answer_roomless(rt, alloc, words, &mut out),
        ["meeting", limit] => gates::answer_meeting(rt, limit, &mut out),
        case => answer(alloc, case, &mut out),
    };
    shown_answer(alloc, answered, out.as_slice())
}

fn main(rt: HostRuntime) -> io::Result<()> {
    let alloc = rt.alloc();
    for line in rt.lines(alloc) {
        let answer = answer_line(&rt, alloc, line?.as_str())?;
        println!(rt; "{answer}")?;
    }
    Ok(())
}
