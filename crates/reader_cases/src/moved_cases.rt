// MOVED.
use case_text::{
    CaseError, bytes_of, push_number, push_str, push_text, push_texts, text_of, words_of,
};
use moved_list::{Follow, Moved, MovedError, MovedLine, follow, read_moved};
use port_name::Names;
use std::alloc::{AllocError, Global};

fn push_follow(found: &Follow, out: &mut Vec<u8>) -> Result<(), AllocError> {
    match found {
        Follow::Here => push_str(out, "Here"),
        Follow::At(name) => {
            push_str(out, "At ")?;
            push_text(out, name)
        }
        Follow::Absent => push_str(out, "Absent"),
        Follow::Gone { reason } => {
            push_str(out, "Gone ")?;
            push_text(out, reason)
        }
        Follow::Circle { origins } => {
            push_str(out, "Circle")?;
            push_texts(out, origins.as_slice())
        }
    }
}

fn push_fault(alloc: Global, fault: MovedError, out: &mut Vec<u8>) -> Result<(), AllocError> {
    if let MovedError::BadLine { .. } = fault {
        push_str(out, "BadLine: ")?;
    }
    push_str(out, fault.to_string(alloc)?.as_str())
}

/// The file of a field, if it is shorter than what the reader takes.
fn read_field(alloc: Global, field: &str) -> Result<Result<Moved, MovedError>, CaseError> {
    let bytes = bytes_of(alloc, field)?;
    if bytes.len() > 10_000_000 {
        return Err(CaseError::Unfit);
    }
    Ok(read_moved(alloc, bytes.as_slice()))
}

fn follow_in(
    alloc: Global,
    moved: &Moved,
    name: &str,
    names: &str,
    out: &mut Vec<u8>,
) -> Result<(), CaseError> {
    let names = Names::new(alloc, words_of(alloc, names)?)?;
    let found = follow(alloc, moved, &text_of(alloc, name)?, &names)?;
    Ok(push_follow(&found, out)?)
}

/// Where a name leads by a file, with the names that are there.
pub(crate) fn answer_follow(
    alloc: Global,
    file: &str,
    name: &str,
    names: &str,
    out: &mut Vec<u8>,
) -> Result<(), CaseError> {
    match read_field(alloc, file)? {
        Ok(moved) => follow_in(alloc, &moved, name, names, out),
        Err(fault) => Ok(push_fault(alloc, fault, out)?),
    }
}

fn push_line(out: &mut Vec<u8>, line: &MovedLine) -> Result<(), AllocError> {
    push_text(out, &line.from)?;
    match &line.to {
        Some(to) => {
            push_str(out, " to ")?;
            push_text(out, to)?;
        }
        None => push_str(out, " gone")?,
    }
    push_str(out, " [")?;
    push_text(out, &line.date)?;
    push_str(out, "] [")?;
    push_text(out, &line.reason)?;
    push_str(out, "]; ")
}

fn push_lines(alloc: Global, moved: &Moved, out: &mut Vec<u8>) -> Result<(), AllocError> {
    push_number(alloc, out, moved.lines().len() as u64)?;
    push_str(out, ": ")?;
    for line in moved.lines() {
        push_line(out, line)?;
    }
    Ok(())
}

/// The lines of a file, field by field.
pub(crate) fn answer_lines(alloc: Global, file: &str, out: &mut Vec<u8>) -> Result<(), CaseError> {
    match read_field(alloc, file)? {
        Ok(moved) => Ok(push_lines(alloc, &moved, out)?),
        Err(fault) => Ok(push_fault(alloc, fault, out)?),
    }
}
