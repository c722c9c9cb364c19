// The nodes that a command's words want.
use crate::indexes::good_index;
use bulk_base::{Sequence, Texts};
use case_text::{CaseError, bytes_of, push_str, push_text, push_texts, text_of};
use origin_flavor::{Wanted, WantedError, wanted};
use std::alloc::{AllocError, Global};
use tree_index::Index;

/// The words of a field, with `;` between.
fn words_of_field(alloc: Global, field: &str) -> Result<Texts, CaseError> {
    let mut words = Sequence::new(alloc);
    if field.is_empty() {
        return Ok(words);
    }
    for word in field.split(';') {
        words.push(text_of(alloc, word)?)?;
    }
    Ok(words)
}

/// Puts the wanted nodes at the end, and what MOVED led elsewhere.
fn push_wanted(index: &Index, found: &Wanted, out: &mut Vec<u8>) -> Result<(), AllocError> {
    for number in &found.nodes {
        push_str(out, " ")?;
        match index.nodes.get(*number as usize) {
            Some(node) => push_text(out, &node.node)?,
            None => push_str(out, "no such node")?,
        }
    }
    for notice in &found.notices {
        push_str(out, "; ")?;
        push_text(out, &notice.word)?;
        push_str(out, " to ")?;
        push_text(out, &notice.name)?;
    }
    Ok(())
}

/// Puts a refusal at the end: its variant, and how it prints; of a circle also the names.
fn push_refusal(alloc: Global, refusal: &WantedError, out: &mut Vec<u8>) -> Result<(), AllocError> {
    push_str(
        out,
        match refusal {
            WantedError::BadList { .. } => "BadList: ",
            WantedError::NoOrigin { .. } => "NoOrigin: ",
            WantedError::NoFlavor { .. } => "NoFlavor: ",
            WantedError::Gone { .. } => "Gone: ",
            WantedError::MovedLoop { .. } => "MovedLoop: ",
            WantedError::NoMemory => "NoMemory: ",
        },
    )?;
    push_str(out, refusal.to_string(alloc)?.as_str())?;
    if let WantedError::MovedLoop { origins } = refusal {
        push_str(out, ":")?;
        push_texts(out, origins.as_slice())?;
    }
    Ok(())
}

fn push_found(
    alloc: Global,
    index: &Index,
    found: &Result<Wanted, WantedError>,
    out: &mut Vec<u8>,
) -> Result<(), AllocError> {
    match found {
        Ok(found) => push_wanted(index, found, out),
        Err(refusal) => push_refusal(alloc, refusal, out),
    }
}

fn answer_in(
    alloc: Global,
    index: &Index,
    list: Option<&[u8]>,
    words: &Texts,
    flags: &str,
    out: &mut Vec<u8>,
) -> Result<(), CaseError> {
    if let Some(bytes) = list {
        if bytes.len() > 100_000 {
            return Err(CaseError::Unfit);
        }
    }
    let all = flags.contains('a');
    let every_flavor = flags.contains('e');
    let found = wanted(alloc, index, list, words.as_slice(), all, every_flavor);
    Ok(push_found(alloc, index, &found, out)?)
}

fn answer_over(
    alloc: Global,
    index: &Index,
    [list, words, flags]: [&str; 3],
    out: &mut Vec<u8>,
) -> Result<(), CaseError> {
    let words = words_of_field(alloc, words)?;
    if list == "-" {
        return answer_in(alloc, index, None, &words, flags, out);
    }
    let bytes = bytes_of(alloc, list)?;
    answer_in(alloc, index, Some(bytes.as_slice()), &words, flags, out)
}

/// The nodes that a list file, if it is not `-`, and words want; `a` among the flags asks for all nodes, and `e` for every flavor.
pub(crate) fn answer_wanted(
    alloc: Global,
    tree: &str,
    fields: [&str; 3],
    out: &mut Vec<u8>,
) -> Result<(), CaseError> {
    answer_over(alloc, &good_index(alloc, tree)?, fields, out)
}
