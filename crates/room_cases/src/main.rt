//! Cases of builds in a room in memory: a line of standard input each, with fields between bars, and
//! an answer a line. A line `tree` sets the tree that the lines below it speak of.
#![tactic(auto)]

mod builds;
mod kept;
mod packages;

use case_text::{CaseError, shown_answer};
use std::alloc::{AllocError, Global};
use std::io;

fn answer(alloc: Global, tree: &str, case: &[&str], out: &mut Vec<u8>) -> Result<(), CaseError> {
    match case {
        ["tree", _] => Ok(()),
        ["build", fails, words] => builds::answer_builds(alloc, tree, fails, words, out),
        _ => Err(CaseError::Unfit),
    }
}

/// The line of an answer. An empty line, one that begins with `#` and one that sets a tree answer
/// themselves.
fn answer_line(alloc: Global, tree: &str, line: &str) -> Result<String, AllocError> {
    if line.is_empty() || line.starts_with('#') {
        return line.to_string(alloc);
    }
    let fields: Vec<&str> = line.split('|').collect(alloc)?;
    let mut out = Vec::new(alloc);
    let answered = answer(alloc, tree, fields.as_slice(), &mut out);
    shown_answer(alloc, answered, out.as_slice())
}

fn main(rt: HostRuntime) -> io::Result<()> {
    let alloc = rt.alloc();
    let mut tree = String::new(alloc);
    for line in rt.lines(alloc) {
        let line = line?;
        if let Some(files) = line.as_str().strip_prefix("tree|") {
            tree = files.to_string(alloc)?;
        }
        let answer = answer_line(alloc, tree.as_str(), line.as_str())?;
        println!(rt; "{answer}")?;
    }
    Ok(())
}
