// Plans of words over a tree.
use crate::outcome::push_planned;
use bulk_base::{Sequence, Text, Texts};
use case_text::{CaseError, fails_of, files_of, number_of, push_number, push_str, text_of};
use command_words::{CommandName, usage_line};
use outside::{MemError, MemTree};
use run_answer::{Answer, exit_status, write_line};
use run_plan::plan_run;
use std::alloc::Global;

/// The words of a field, with `;` between.
fn words_of_field(alloc: Global, field: &str) -> Result<Texts, CaseError> {
    let mut words = Sequence::new(alloc);
    if field.is_empty() {
        return Ok(words);
    }
    for word in field.split(';') {
        words.push(text_of(alloc, word)?)?;
    }
    Ok(words)
}

fn rooms_of(field: &str) -> Result<Option<u64>, CaseError> {
    match field {
        "-" => Ok(None),
        _ => Ok(Some(number_of(field)?)),
    }
}

fn tree_of(alloc: Global, files: &str, fails: &str) -> Result<MemTree, CaseError> {
    match MemTree::new(alloc, files_of(alloc, files)?, fails_of(alloc, fails, "")?) {
        Ok(tree) => Ok(tree),
        Err(MemError::NotFolder { .. }) => Err(CaseError::Unfit),
        Err(MemError::NoMemory) => Err(CaseError::NoMemory),
    }
}

/// Puts the status and the line of a refusal at the end.
fn push_refusal(alloc: Global, refusal: &Answer, out: &mut Vec<u8>) -> Result<(), CaseError> {
    push_number(alloc, out, u64::from(exit_status(refusal)))?;
    push_str(out, " ")?;
    match write_line(alloc, refusal, usage_line(CommandName::Bulk)) {
        Ok(line) => Ok(out.extend_from_slice(line.as_slice())?),
        Err(_) => Err(CaseError::NoMemory),
    }
}

fn push_answer(
    alloc: Global,
    tree: &mut MemTree,
    rooms: Option<u64>,
    words: &[Text],
    out: &mut Vec<u8>,
) -> Result<(), CaseError> {
    match plan_run(alloc, tree, words, rooms) {
        Ok(planned) => Ok(push_planned(alloc, &planned, out)?),
        Err(refusal) => push_refusal(alloc, &refusal, out),
    }
}

/// What words plan over a tree some of whose calls fail: a plan, or a refusal with its status and line; and how often the tree
/// failed, if it did. `rooms` is the number of rooms, or `-` where none is handed in.
pub(crate) fn answer_plan(
    alloc: Global,
    files: &str,
    fails: &str,
    rooms: &str,
    words: &str,
    out: &mut Vec<u8>,
) -> Result<(), CaseError> {
    let mut tree = tree_of(alloc, files, fails)?;
    let words = words_of_field(alloc, words)?;
    push_answer(alloc, &mut tree, rooms_of(rooms)?, words.as_slice(), out)?;
    if tree.faults() > 0 {
        push_str(out, "; faults ")?;
        push_number(alloc, out, tree.faults())?;
    }
    Ok(())
}
