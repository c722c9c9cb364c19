//! Cases of stores and of what in them is stale: a line of standard input each, with fields between bars, and an answer a
//! line.
#![tactic(auto)]

mod chains;
mod indexes;
mod large;
mod records;
mod stale_cases;
mod store_cases;
mod stores;

use case_text::{CaseError, shown_answer};
use std::alloc::{AllocError, Global};
use std::io;

fn answer(alloc: Global, case: &[&str], out: &mut Vec<u8>) -> Result<(), CaseError> {
    match case {
        ["names", files, fails] => store_cases::answer_names(alloc, files, fails, out),
        ["load", files, fails] => store_cases::answer_load(alloc, files, fails, out),
        ["save", files, spec, fails] => store_cases::answer_save(alloc, files, spec, fails, out),
        ["delete", files, names, fails] => {
            store_cases::answer_delete(alloc, files, names, fails, out)
        }
        ["many", count, fails] => large::answer_many(alloc, count, fails, out),
        ["big", count, size] => large::answer_big(alloc, count, size, out),
        ["stale", tree, files, asked, recipes] => {
            stale_cases::answer_stale(alloc, [tree, files], asked, recipes, out)
        }
        ["held", tree, files] => stale_cases::answer_held(alloc, tree, files, out),
        ["all", names] => stale_cases::answer_all(alloc, names, out),
        ["chain", count, version] => chains::answer_chain(alloc, count, version, out),
        _ => Err(CaseError::Unfit),
    }
}

/// The line of an answer. An empty line and one that begins with `#` are headings, and answer themselves.
fn answer_line(alloc: Global, line: &str) -> Result<String, AllocError> {
    if line.is_empty() || line.starts_with('#') {
        return line.to_string(alloc);
    }
    let fields: Vec<&str> = line.split('|').collect(alloc)?;
    let mut out = Vec::new(alloc);
    let answered = answer(alloc, fields.as_slice(), &mut out);
    shown_answer(alloc, answered, out.as_slice())
}

fn main(rt: HostRuntime) -> io::Result<()> {
    let alloc = rt.alloc();
    for line in rt.lines(alloc) {
        let answer = answer_line(alloc, line?.as_str())?;
        println!(rt; "{answer}")?;
    }
    Ok(())
}
