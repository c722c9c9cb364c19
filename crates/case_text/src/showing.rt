// Answers as lines.
use crate::fault::CaseError;
use std::alloc::{AllocError, Global};
use std::str;

/// The longest run of one character that is shown as it is.
const LONGEST: u32 = 40;

fn push_marked(line: &mut String, letter: char) -> Result<(), AllocError> {
    line.push(match letter {
        '\n' => '␊',
        '\r' => '␍',
        '\t' => '␉',
        '\0' => '␀',
        '|' => '¦',
        other => other,
    })
}

/// Puts a run of one character at the end.
fn push_run(alloc: Global, line: &mut String, letter: char, count: u32) -> Result<(), AllocError> {
    if count > LONGEST {
        line.push_str(format!(in alloc; "«{count}*")?.as_str())?;
        push_marked(line, letter)?;
        return line.push('»');
    }
    for _ in 0..count {
        push_marked(line, letter)?;
    }
    Ok(())
}

fn shown_text(alloc: Global, text: &str) -> Result<String, AllocError> {
    let mut line = String::new(alloc);
    let mut last = ' ';
    let mut count = 0u32;
    for letter in text.chars() {
        if letter != last {
            push_run(alloc, &mut line, last, count)?;
            last = letter;
            count = 0;
        }
        count = count.saturating_add(1);
    }
    push_run(alloc, &mut line, last, count)?;
    Ok(line)
}

fn shown_bytes(alloc: Global, bytes: &[u8]) -> Result<String, AllocError> {
    let mut line = String::new(alloc);
    for byte in bytes {
        if byte.is_ascii() {
            push_marked(&mut line, *byte as char)?;
        } else {
            line.push_str(format!(in alloc; "«{byte:02X}»")?.as_str())?;
        }
    }
    Ok(line)
}

/// The line that shows bytes, with the marks that `push_bytes` undoes; more than 40 equal characters in a row stand as
/// `«COUNT*CHARACTER»`, and of bytes that are not UTF-8 each that is not ASCII as `«HH»`.
pub fn shown(alloc: Global, bytes: &[u8]) -> Result<String, AllocError> {
    match str::from_utf8(bytes) {
        Ok(text) => shown_text(alloc, text),
        Err(_) => shown_bytes(alloc, bytes),
    }
}

/// The line that shows a case's answer, which stands in `out`, or that the line is no case.
pub fn shown_answer(
    alloc: Global,
    answered: Result<(), CaseError>,
    out: &[u8],
) -> Result<String, AllocError> {
    match answered {
        Ok(()) => shown(alloc, out),
        Err(CaseError::Unfit) => "no case".to_string(alloc),
        Err(CaseError::NoMemory) => Err(AllocError),
    }
}
