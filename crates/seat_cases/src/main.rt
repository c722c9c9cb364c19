//! Cases of the claim table, also in threads: a line of standard input
//! each, with fields between bars, and an answer a line.
#![tactic(auto)]

mod crew;
mod looks;
mod two_seats;

use case_text::{CaseError, shown_answer};
use std::alloc::{AllocError, Global};
use std::io;
use std::thread::Threads;

fn answer<R: Threads + Sync>(
    rt: &R,
    alloc: Global,
    case: &[&str],
    out: &mut Vec<u8>,
) -> Result<(), CaseError> {
    match case {
        ["seats", plan, steps] => two_seats::answer_steps(alloc, plan, steps, out),
        ["crew", shape, count] => crew::answer_crew(rt, alloc, shape, count, out),
        _ => Err(CaseError::Unfit),
    }
}

/// The line of an answer. An empty line and one that begins with `#` are headings, and answer
/// themselves.
fn answer_line<R: Threads + Sync>(rt: &R, alloc: Global, line: &str) -> Result<String, AllocError> {
    if line.is_empty() || line.starts_with('#') {
        return line.to_string(alloc);
    }
    let fields: Vec<&str> = line.split('|').collect(alloc)?;
    let mut out = Vec::new(alloc);
    let answered = answer(rt, alloc, fields.as_slice(), &mut out);
    shown_answer(alloc, answered, out.as_slice())
}

fn main(rt: HostRuntime) -> io::Result<()> {
    let alloc = rt.alloc();
    for line in rt.lines(alloc) {
        let answer = answer_line(&rt, alloc, line?.as_str())?;
        println!(rt; "{answer}")?;
    }
    Ok(())
}
