//! Cases of the words of a command line: a line of standard input each, with words between bars, and an answer a line.
#![tactic(auto)]

mod answers;

use answers::push_asked;
use bulk_base::{Sequence, Texts};
use case_text::{CaseError, shown_answer, text_of};
use command_words::read_words;
use std::alloc::{AllocError, Global};
use std::io;

/// The words of a case: each field is one, also an empty one.
fn words_of(alloc: Global, fields: &[&str]) -> Result<Texts, CaseError> {
    let mut words = Sequence::new(alloc);
    for field in fields {
        words.push(text_of(alloc, field)?)?;
    }
    Ok(words)
}

fn answer(alloc: Global, case: &[&str], out: &mut Vec<u8>) -> Result<(), CaseError> {
    let ["read", fields @ ..] = case else {
        return Err(CaseError::Unfit);
    };
    let words = words_of(alloc, fields)?;
    let asked = read_words(alloc, words.as_slice())?;
    push_asked(alloc, out, &asked)?;
    Ok(())
}

/// The line of an answer. An empty line and one that begins with `#` are headings, and answer themselves.
fn answer_line(alloc: Global, line: &str) -> Result<String, AllocError> {
    if line.is_empty() || line.starts_with('#') {
        return line.to_string(alloc);
    }
    let fields: Vec<&str> = line.split('|').collect(alloc)?;
    let mut out = Vec::new(alloc);
    let answered = answer(alloc, fields.as_slice(), &mut out);
    shown_answer(alloc, answered, out.as_slice())
}

fn main(rt: HostRuntime) -> io::Result<()> {
    let alloc = rt.alloc();
    for line in rt.lines(alloc) {
        let answer = answer_line(alloc, line?.as_str())?;
        println!(rt; "{answer}")?;
    }
    Ok(())
}
