// The words of a text: its pieces between blanks.
ghost use Rattle.std.specs.Prelude.{◌≡◌, ◌<◌, ◌≤◌, ◌-◌, length, take, drop, filter, IfOk, OnOk, ◌++◌, ◌∷◌, []};
ghost use Rattle.std.specs.Str.{IsCharBoundary};
ghost use Rattle.bulk_base.specs.Words.{words_of, is_filled};

use crate::sequence::{NoMemory, Sequence};
use crate::text::{Text, Texts};
use std::alloc::Global;

/// Whether a byte is a space or a tab.
pub fn is_blank(byte: u8) -> bool
    ensures { result ≡ Rattle.bulk_base.specs.Words.is_blank byte }
{
    byte == b' ' || byte == b'\t'
}

fn keep_piece(
    alloc: Global,
    text: &Text,
    start: usize,
    end: usize,
    found: &mut Texts,
) -> Result<(), NoMemory>
    requires order { start ≤ end }
    requires within { end ≤ length text.now }
    requires starts { IsCharBoundary text.now start }
    requires ends { IsCharBoundary text.now end }
    ensures { OnOk result (found.new ≡ found.old ++ filter is_filled (take (end - start) (drop start text.now) ∷ [])) }
{
    if start < end {
        found.push(text.piece(alloc, start, end)?)?;
    }
    Ok(())
}

/// The pieces of a text between spaces and tabs that are not empty, in order. One pass over the bytes.
pub fn words(alloc: Global, text: &Text) -> Result<Texts, NoMemory>
    ensures { IfOk result (λ ws. ws ≡ words_of text.now) }
{
    let mut found = Sequence::new(alloc);
    let bytes = text.bytes();
    let mut start = 0;
    for at in 0..bytes.len() {
        if is_blank(bytes[at]) {
            keep_piece(alloc, text, start, at, &mut found)?;
            start = at + 1;
        }
    }
    keep_piece(alloc, text, start, bytes.len(), &mut found)?;
    Ok(found)
}
