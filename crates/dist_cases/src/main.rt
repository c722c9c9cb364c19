//! Cases of lists of distfiles and of overlay trees: a line of standard input each, with fields between bars, and an answer
//! a line.
#![tactic(auto)]

mod distinfo_cases;
mod overlay_cases;

use case_text::{CaseError, shown_answer};
use std::alloc::{AllocError, Global};
use std::io;

fn answer(alloc: Global, case: &[&str], out: &mut Vec<u8>) -> Result<(), CaseError> {
    match case {
        ["distinfo", file] => distinfo_cases::answer_read(alloc, file, out),
        ["check", digest, size, file] => {
            distinfo_cases::answer_check(alloc, digest, size, file, out)
        }
        ["unnamed", names, files] => distinfo_cases::answer_unnamed(alloc, names, files, out),
        ["names", folder, fails, trees @ ..] => {
            overlay_cases::answer_names(alloc, folder, fails, trees, out)
        }
        ["bytes", file, most, fails, trees @ ..] => {
            overlay_cases::answer_bytes(alloc, [file, most], fails, trees, out)
        }
        _ => Err(CaseError::Unfit),
    }
}

/// The line of an answer. An empty line and one that begins with `#` are headings, and answer themselves.
fn answer_line(alloc: Global, line: &str) -> Result<String, AllocError> {
    if line.is_empty() || line.starts_with('#') {
        return line.to_string(alloc);
    }
    let fields: Vec<&str> = line.split('|').collect(alloc)?;
    let mut out = Vec::new(alloc);
    let answered = answer(alloc, fields.as_slice(), &mut out);
    shown_answer(alloc, answered, out.as_slice())
}

fn main(rt: HostRuntime) -> io::Result<()> {
    let alloc = rt.alloc();
    for line in rt.lines(alloc) {
        let answer = answer_line(alloc, line?.as_str())?;
        println!(rt; "{answer}")?;
    }
    Ok(())
}
