//! Cases of catalogues, of the trees of numbers and of what a run and a dry run print: a line of
//! standard input each, with fields between bars, and an answer a line.
#![tactic(auto)]

mod catalogues;
mod made;
mod printed;

use case_text::{CaseError, shown_answer};
use std::alloc::{AllocError, Global};
use std::io;

fn answer(alloc: Global, case: &[&str], out: &mut Vec<u8>) -> Result<(), CaseError> {
    match case {
        ["tree", number, ports] => made::answer_tree(alloc, number, ports, out),
        ["file", number, ports, path] => made::answer_file(alloc, [number, ports, path], out),
        ["catalogue", records @ ..] => catalogues::answer_catalogue(alloc, records, out),
        ["lists", plan, deleted, moved] => {
            printed::answer_printed(alloc, [plan, deleted, moved], false, out)
        }
        ["dry lists", plan, deleted, moved] => {
            printed::answer_printed(alloc, [plan, deleted, moved], true, out)
        }
        ["skipped", shape, count] => printed::answer_skipped(alloc, shape, count, out),
        _ => Err(CaseError::Unfit),
    }
}

/// The line of an answer. An empty line and one that begins with `#` are headings, and answer
/// themselves.
fn answer_line(alloc: Global, line: &str) -> Result<String, AllocError> {
    if line.is_empty() || line.starts_with('#') {
        return line.to_string(alloc);
    }
    let fields: Vec<&str> = line.split('|').collect(alloc)?;
    let mut out = Vec::new(alloc);
    let answered = answer(alloc, fields.as_slice(), &mut out);
    shown_answer(alloc, answered, out.as_slice())
}

fn main(rt: HostRuntime) -> io::Result<()> {
    let alloc = rt.alloc();
    for line in rt.lines(alloc) {
        let answer = answer_line(alloc, line?.as_str())?;
        println!(rt; "{answer}")?;
    }
    Ok(())
}
