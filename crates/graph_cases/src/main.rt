//! Cases of dependency graphs, of their loops and of plans: a line of standard input each, with fields between bars, and an answer a
//! line.
#![tactic(auto)]

mod graphs;
mod loops;
mod making;
mod plans;
mod threes;
mod worked;

use case_text::{CaseError, shown_answer};
use loop_report::an_order_or_a_loop;
use std::alloc::{AllocError, Global};
use std::io;

fn answer(alloc: Global, case: &[&str], out: &mut Vec<u8>) -> Result<(), CaseError> {
    match case {
        ["graph", lists] => graphs::answer_graph(alloc, lists, out),
        ["reach", lists, from] => graphs::answer_reach(alloc, lists, from, out),
        ["loop", lists] => loops::answer_loop(alloc, lists, out),
        ["chain", count, closed_to] => loops::answer_chain(alloc, count, closed_to, out),
        ["installs for a chain", first, second, node] => {
            threes::answer_chain(alloc, [first, second, node], out)
        }
        ["installs for a fan", first, second, node] => {
            threes::answer_fan(alloc, [first, second, node], out)
        }
        ["collected", first, second] => threes::answer_collected(alloc, first, second, out),
        ["cause", "of a port that runs an ignored one"] => plans::answer_cause(alloc, out),
        _ => Err(CaseError::Unfit),
    }
}

/// The line of an answer. An empty line and one that begins with `#` are headings, and answer themselves.
fn answer_line(alloc: Global, line: &str) -> Result<String, AllocError> {
    if line.is_empty() || line.starts_with('#') {
        return line.to_string(alloc);
    }
    let fields: Vec<&str> = line.split('|').collect(alloc)?;
    let mut out = Vec::new(alloc);
    let answered = answer(alloc, fields.as_slice(), &mut out);
    shown_answer(alloc, answered, out.as_slice())
}

fn main(rt: HostRuntime) -> io::Result<()> {
    worked::examples();
    dep_graph::laws();
    an_order_or_a_loop();
    let alloc = rt.alloc();
    for line in rt.lines(alloc) {
        let answer = answer_line(alloc, line?.as_str())?;
        println!(rt; "{answer}")?;
    }
    Ok(())
}
