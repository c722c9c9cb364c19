//! Cases of the queue of a plan's nodes and of one builder: a line of standard input each, with
//! fields between bars, and an answer a line.
#![tactic(auto)]

mod alone;
mod large;
mod queues;
mod scan;

use alone::{Shown, answer_plan};
use bucket_queue::queue_gives_order;
use case_text::{CaseError, shown_answer};
use std::alloc::{AllocError, Global};
use std::io;

fn answer(alloc: Global, case: &[&str], out: &mut Vec<u8>) -> Result<(), CaseError> {
    match case {
        ["queue", plan] => answer_plan(alloc, plan, Shown::Queue, out),
        ["mixed ends", count, seed] => queues::answer_mix(alloc, count, seed, out),
        ["alone", plan] => answer_plan(alloc, plan, Shown::Alone, out),
        ["finish", plan] => answer_plan(alloc, plan, Shown::Finish, out),
        ["many", shape, count] => large::answer_many(alloc, shape, count, out),
        ["made", shape, count] => large::answer_made(alloc, shape, count, out),
        _ => Err(CaseError::Unfit),
    }
}

/// The line of an answer. An empty line and one that begins with `#` are headings, and answer
/// themselves.
fn answer_line(alloc: Global, line: &str) -> Result<String, AllocError> {
    if line.is_empty() || line.starts_with('#') {
        return line.to_string(alloc);
    }
    let fields: Vec<&str> = line.split('|').collect(alloc)?;
    let mut out = Vec::new(alloc);
    let answered = answer(alloc, fields.as_slice(), &mut out);
    shown_answer(alloc, answered, out.as_slice())
}

fn main(rt: HostRuntime) -> io::Result<()> {
    queue_gives_order();
    let alloc = rt.alloc();
    for line in rt.lines(alloc) {
        let answer = answer_line(alloc, line?.as_str())?;
        println!(rt; "{answer}")?;
    }
    Ok(())
}
