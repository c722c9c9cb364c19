// Texts, paths, lines, words and numbers.
use bulk_base::{
    Path, PathError, Span, Text, TextError, decimal, in_order, is_text, lines, number,
    numbered_line, place_or_end, trim, trim_start,
};
use case_text::{
    CaseError, bytes_of, number_of, path_of, push_number, push_str, push_text, push_texts, text_of,
    words_of,
};
use std::alloc::{AllocError, Global};

/// Whether bytes are a text, by the reader and by the test.
pub(crate) fn answer_text(alloc: Global, field: &str, out: &mut Vec<u8>) -> Result<(), CaseError> {
    let bytes = bytes_of(alloc, field)?;
    match Text::from_bytes(alloc, bytes.as_slice()) {
        Ok(text) => push_text(out, &text)?,
        Err(TextError::NotText) => push_str(out, "NotText")?,
        Err(TextError::NoMemory) => return Err(CaseError::NoMemory),
    }
    push_str(
        out,
        if is_text(bytes.as_slice()) {
            " (a text)"
        } else {
            " (none)"
        },
    )?;
    Ok(())
}

/// Puts a path at the end, read again from its text and copied.
fn push_path(alloc: Global, path: &Path, out: &mut Vec<u8>) -> Result<(), CaseError> {
    let again = Path::from_text(alloc, path.text())?;
    Ok(push_text(out, again.copy(alloc)?.text())?)
}

/// The path that bytes spell.
pub(crate) fn answer_path(alloc: Global, field: &str, out: &mut Vec<u8>) -> Result<(), CaseError> {
    match Path::from_bytes(alloc, bytes_of(alloc, field)?.as_slice()) {
        Ok(path) => push_path(alloc, &path, out),
        Err(PathError::BadPath) => Ok(push_str(out, "BadPath")?),
        Err(PathError::NoMemory) => Err(CaseError::NoMemory),
    }
}

fn push_joined(
    alloc: Global,
    folder: &Path,
    rest: &Path,
    out: &mut Vec<u8>,
) -> Result<(), CaseError> {
    match folder.join(alloc, rest) {
        Ok(path) => Ok(push_text(out, path.text())?),
        Err(PathError::BadPath) => Ok(push_str(out, "BadPath")?),
        Err(PathError::NoMemory) => Err(CaseError::NoMemory),
    }
}

/// A folder's path and one below it, joined.
pub(crate) fn answer_join(
    alloc: Global,
    folder: &str,
    rest: &str,
    out: &mut Vec<u8>,
) -> Result<(), CaseError> {
    let folder = path_of(alloc, folder)?;
    let rest = path_of(alloc, rest)?;
    push_joined(alloc, &folder, &rest, out)
}

fn push_placed(folder: &Path, path: &Path, out: &mut Vec<u8>) -> Result<(), AllocError> {
    push_str(
        out,
        if path.is_below(folder) {
            "below, "
        } else {
            "not below, "
        },
    )?;
    push_str(
        out,
        if path.collides(folder) {
            "collides"
        } else {
            "apart"
        },
    )
}

/// How a path stands to a folder.
pub(crate) fn answer_placed(
    alloc: Global,
    folder: &str,
    path: &str,
    out: &mut Vec<u8>,
) -> Result<(), CaseError> {
    let folder = path_of(alloc, folder)?;
    let path = path_of(alloc, path)?;
    Ok(push_placed(&folder, &path, out)?)
}

/// The words of a text, each in brackets.
pub(crate) fn answer_words(alloc: Global, field: &str, out: &mut Vec<u8>) -> Result<(), CaseError> {
    for word in words_of(alloc, field)?.as_slice() {
        push_str(out, "[")?;
        push_text(out, word)?;
        push_str(out, "]")?;
    }
    Ok(())
}

/// The places of a file's lines, and what stands there.
pub(crate) fn answer_lines(alloc: Global, field: &str, out: &mut Vec<u8>) -> Result<(), CaseError> {
    let bytes = bytes_of(alloc, field)?;
    for span in lines(alloc, bytes.as_slice())?.as_slice() {
        push_number(alloc, out, span.from)?;
        push_str(out, "-")?;
        push_number(alloc, out, span.to)?;
        push_str(out, "[")?;
        out.extend_from_slice(span.of(bytes.as_slice()))?;
        push_str(out, "]")?;
    }
    Ok(())
}

/// The lines of a file with their numbers.
pub(crate) fn answer_numbered(
    alloc: Global,
    field: &str,
    out: &mut Vec<u8>,
) -> Result<(), CaseError> {
    let bytes = bytes_of(alloc, field)?;
    if bytes.len() > 1_000_000 {
        return Err(CaseError::Unfit);
    }
    let spans = lines(alloc, bytes.as_slice())?;
    for at in 0..spans.len() {
        let line = numbered_line(bytes.as_slice(), &spans, at);
        push_number(alloc, out, u64::from(line.number))?;
        push_str(out, "[")?;
        out.extend_from_slice(line.text)?;
        push_str(out, "]")?;
    }
    Ok(())
}

/// Words in byte order, each once.
pub(crate) fn answer_order(alloc: Global, field: &str, out: &mut Vec<u8>) -> Result<(), CaseError> {
    let words = words_of(alloc, field)?;
    let ordered = in_order(alloc, words.as_slice())?;
    push_texts(out, ordered.as_slice())?;
    Ok(())
}

/// The part of a file between two places.
pub(crate) fn answer_part(
    alloc: Global,
    from: &str,
    to: &str,
    field: &str,
    out: &mut Vec<u8>,
) -> Result<(), CaseError> {
    let span = Span {
        from: number_of(from)?,
        to: number_of(to)?,
    };
    let bytes = bytes_of(alloc, field)?;
    out.extend_from_slice(span.of(bytes.as_slice()))?;
    Ok(())
}

/// The place of the first of some bytes that is a given one.
pub(crate) fn answer_find(
    alloc: Global,
    wanted: &str,
    field: &str,
    out: &mut Vec<u8>,
) -> Result<(), CaseError> {
    let bytes = bytes_of(alloc, field)?;
    for byte in bytes_of(alloc, wanted)?.as_slice() {
        push_number(alloc, out, place_or_end(bytes.as_slice(), *byte) as u64)?;
    }
    Ok(())
}

/// A text without the blanks at both ends, and without those at its start.
pub(crate) fn answer_trim(alloc: Global, field: &str, out: &mut Vec<u8>) -> Result<(), CaseError> {
    let bytes = bytes_of(alloc, field)?;
    push_str(out, "[")?;
    out.extend_from_slice(trim(bytes.as_slice()))?;
    push_str(out, "] [")?;
    out.extend_from_slice(trim_start(bytes.as_slice()))?;
    push_str(out, "]")?;
    Ok(())
}

/// The number that a text spells.
pub(crate) fn answer_number(
    alloc: Global,
    field: &str,
    out: &mut Vec<u8>,
) -> Result<(), CaseError> {
    match number(&text_of(alloc, field)?) {
        Some(number) => push_number(alloc, out, number)?,
        None => push_str(out, "none")?,
    }
    Ok(())
}

/// The digits of a number.
pub(crate) fn answer_decimal(
    alloc: Global,
    field: &str,
    out: &mut Vec<u8>,
) -> Result<(), CaseError> {
    push_text(out, &decimal(alloc, number_of(field)?)?)?;
    Ok(())
}
