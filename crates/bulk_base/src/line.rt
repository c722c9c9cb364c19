// The lines of a file.
ghost use Rattle.std.specs.Prelude.{◌≡◌, ◌<◌, ◌≤◌, ◌+◌, ◌-◌, ◌^◌, length, take, drop, slice_index_or, All, IfOk, OnOk, ◌++◌, ◌∷◌, []};
ghost use Rattle.std.specs.Str.Lines.{lines as lines_of, strip_carriage_return};
ghost use Rattle.bulk_base.specs.Lines.{bytes_at, cut_at, spans_of, IsSpanWithin};

use crate::sequence::{NoMemory, Sequence};
use std::alloc::Global;

/// A part of a file: the places from `from` up to `to`, from 0.
#[derive(Clone, Copy, Debug, PartialEq, Eq)]
pub struct Span {
    /// Where the part begins.
    pub from: u64,
    /// The place behind the part's last byte.
    pub to: u64,
}

/// A list of spans.
pub type Spans = Sequence<Span>;

/// What stands behind a place; nothing, where the place is past the end.
fn behind(bytes: &[u8], place: usize) -> &[u8]
    ensures { result.now ≡ drop place bytes.now }
{
    if place <= bytes.len() {
        &bytes[place..]
    } else {
        &bytes[bytes.len()..]
    }
}

/// So many of the first bytes; all, where there are fewer.
fn first(bytes: &[u8], most: usize) -> &[u8]
    ensures { result.now ≡ take most bytes.now }
{
    if most <= bytes.len() {
        &bytes[..most]
    } else {
        bytes
    }
}

impl Span {
    /// The part of a file that the span is; what of it lies past the file's end is left out. Takes no memory.
    pub fn of<'a>(&self, bytes: &'a [u8]) -> &'a [u8]
        ensures { result.now ≡ bytes_at bytes.now self.now }
    {
        first(
            behind(bytes, self.from as usize),
            self.to.saturating_sub(self.from) as usize,
        )
    }
}

fn end_of_line(bytes: &[u8], start: usize, newline: usize) -> usize
    requires order { start ≤ newline }
    requires within { newline ≤ length bytes.now }
    ensures order { start ≤ result }
    ensures within { result ≤ newline }
    ensures text { take (result - start) (drop start bytes.now) ≡ strip_carriage_return (take (newline - start) (drop start bytes.now)) }
{
    if start < newline && bytes[newline - 1] == b'\r' {
        newline - 1
    } else {
        newline
    }
}

/// The lines of a file without their line feed, and without one carriage return before it; a last line may lack its
/// line feed, and keeps its carriage return then. One pass over the bytes.
pub fn lines(alloc: Global, bytes: &[u8]) -> Result<Spans, NoMemory>
    ensures places { IfOk result (λ spans. spans ≡ spans_of bytes.now) }
    ensures text { IfOk result (λ spans. cut_at bytes.now spans ≡ lines_of bytes.now) }
    ensures within { IfOk result (λ spans. All (IsSpanWithin bytes.now) spans) }
{
    let mut found = Sequence::new(alloc);
    let mut start = 0;
    for at in 0..bytes.len() {
        if bytes[at] == b'\n' {
            found.push(Span {
                from: start as u64,
                to: end_of_line(bytes, start, at) as u64,
            })?;
            start = at + 1;
        }
    }
    if start < bytes.len() {
        found.push(Span {
            from: start as u64,
            to: bytes.len() as u64,
        })?;
    }
    Ok(found)
}

/// A line of a file, and its number, from 1.
#[derive(Clone, Copy, Debug)]
pub struct NumberedLine<'a> {
    /// How many lines stand before it, and 1.
    pub number: u32,
    /// The line without its line feed.
    pub text: &'a [u8],
}

/// The line at a place of a file whose lines stand at `spans`, as `lines` gives them. Takes no memory.
pub fn numbered_line<'a>(bytes: &'a [u8], spans: &Spans, at: usize) -> NumberedLine<'a>
    requires lines { cut_at bytes.now spans.now ≡ lines_of bytes.now }
    requires place { at < length spans.now }
    requires few { length bytes.now < 2 ^ 32 }
    ensures number { result.number ≡ at + 1 }
    ensures text { result.text.now ≡ slice_index_or (lines_of bytes.now) at [] }
{
    NumberedLine {
        number: at as u32 + 1,
        text: spans.as_slice()[at].of(bytes),
    }
}
