//! Cases of ports trees, of their indexes and of the nodes that words want: a line of standard input each, with fields between
//! bars, and an answer a line. A line `tree` sets the tree that the lines below it speak of.
#![tactic(auto)]

mod depending;
mod indexes;
mod nodes;
mod refusals;
mod wanting;

use case_text::{CaseError, shown_answer};
use std::alloc::{AllocError, Global};
use std::io;

fn answer(alloc: Global, tree: &str, case: &[&str], out: &mut Vec<u8>) -> Result<(), CaseError> {
    match case {
        ["tree", files] => indexes::answer_index(alloc, files, "", false, out),
        ["tried"] => indexes::answer_index(alloc, tree, "", true, out),
        ["failing", fails] => indexes::answer_index(alloc, tree, fails, false, out),
        ["depends", node] => depending::answer_depends(alloc, tree, node, out),
        ["there", names] => indexes::answer_there(alloc, tree, names, out),
        ["wanted", list, words, flags] => {
            wanting::answer_wanted(alloc, tree, [list, words, flags], out)
        }
        _ => Err(CaseError::Unfit),
    }
}

/// The line of an answer. An empty line and one that begins with `#` are headings, and answer themselves.
fn answer_line(alloc: Global, tree: &str, line: &str) -> Result<String, AllocError> {
    if line.is_empty() || line.starts_with('#') {
        return line.to_string(alloc);
    }
    let fields: Vec<&str> = line.split('|').collect(alloc)?;
    let mut out = Vec::new(alloc);
    let answered = answer(alloc, tree, fields.as_slice(), &mut out);
    shown_answer(alloc, answered, out.as_slice())
}

fn main(rt: HostRuntime) -> io::Result<()> {
    let alloc = rt.alloc();
    let mut tree = String::new(alloc);
    for line in rt.lines(alloc) {
        let line = line?;
        if let Some(files) = line.as_str().strip_prefix("tree|") {
            tree = files.to_string(alloc)?;
        }
        let answer = answer_line(alloc, tree.as_str(), line.as_str())?;
        println!(rt; "{answer}")?;
    }
    Ok(())
}
