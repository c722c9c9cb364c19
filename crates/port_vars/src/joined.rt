// Joined lines.
ghost use Rattle.std.specs.Prelude.{◌≡◌, ◌<◌, ◌+◌, ◌^◌, ◌∷◌, ℕ, List, length, IfOk};
ghost use Rattle.port_vars.specs.Joined.{ends_in_backslash, without_last, body, joined, next_line, whole};

use bulk_base::{Bytes, NoMemory, Sequence, lines, numbered_line, trim_start};
use std::alloc::Global;

/// A joined line.
#[derive(Debug, Drop)]
pub(crate) struct Line {
    /// The number of its first line, from 1.
    pub(crate) number: u32,
    /// Its text.
    pub(crate) text: Bytes,
}

/// A list of joined lines.
pub(crate) type Lines = Sequence<Line>;

/// Whether the last byte is `\`.
pub(crate) fn ends_in_backslash(text: &[u8]) -> bool
    ensures { result ≡ ends_in_backslash text.now }
{
    !text.is_empty() && text[text.len() - 1] == b'\\'
}

/// A text without its last byte.
pub(crate) fn without_last(text: &[u8]) -> &[u8]
    requires { 0 < length text.now }
    ensures { result.now ≡ without_last text.now }
{
    &text[..text.len() - 1]
}

/// A line without the `\` that joins it with the next.
fn body(line: &[u8]) -> &[u8]
    ensures { result.now ≡ body line.now }
{
    if ends_in_backslash(line) {
        without_last(line)
    } else {
        line
    }
}

/// The joined line that a line begins or goes on with.
fn next_line(alloc: Global, begun: Option<Line>, number: u32, line: &[u8]) -> Result<Line, NoMemory>
    ensures { IfOk result (λ next. next ≡ next_line begun number line.now) }
{
    match begun {
        None => Ok(Line {
            number,
            text: Sequence::from_slice(alloc, body(line))?,
        }),
        Some(before) => {
            let mut text = before.text.into_vec();
            text.push(b' ')?;
            text.extend_from_slice(trim_start(body(line)))?;
            Ok(Line {
                number: before.number,
                text: Sequence::from_vec(text),
            })
        }
    }
}

/// Takes a line into the joined lines; answers the one that the next line goes on with.
fn take_line(
    alloc: Global,
    found: &mut Lines,
    begun: Option<Line>,
    number: u32,
    line: &[u8],
) -> Result<Option<Line>, NoMemory>
    ensures { IfOk result (λ next. (rest : List (List ℕ)) →
        whole found.old begun number (line.now ∷ rest) ≡ whole found.new next (number + 1) rest) }
{
    let next = next_line(alloc, begun, number, line)?;
    if ends_in_backslash(line) {
        return Ok(Some(next));
    }
    found.push(next)?;
    Ok(None)
}

/// The joined lines of a file, in order. One pass over the bytes.
pub(crate) fn joined(alloc: Global, bytes: &[u8]) -> Result<Lines, NoMemory>
    requires { length bytes.now < 2 ^ 32 }
    ensures { IfOk result (λ lines. lines ≡ joined bytes.now) }
{
    let spans = lines(alloc, bytes)?;
    let mut found = Sequence::new(alloc);
    let mut begun = None;
    for at in 0..spans.len() {
        let line = numbered_line(bytes, &spans, at);
        begun = take_line(alloc, &mut found, begun, line.number, line.text)?;
    }
    if let Some(line) = begun {
        found.push(line)?;
    }
    Ok(found)
}
