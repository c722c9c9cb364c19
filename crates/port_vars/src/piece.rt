// Texts cut at a byte.
ghost use Rattle.std.specs.Prelude.{◌≡◌, ◌<◌, ◌==◌, length, slice_index, IfOk, IfSome};
ghost use Rattle.std.specs.List.{slice_split, position};

use bulk_base::{NoMemory, Sequence, Text, Texts};
use std::alloc::Global;

/// The first place of a byte.
pub(crate) fn place_of(bytes: &[u8], byte: u8) -> Option<usize>
    ensures value { result ≡ position (λ b. b == byte) bytes.now }
    ensures place { IfSome result (λ at. (at < length bytes.now) × (slice_index bytes.now at ≡ byte)) }
{
    bytes.iter().position(|b| *b == byte)
}

/// The pieces of a text between the places of an ASCII byte. One pass over the bytes.
pub(crate) fn pieces(alloc: Global, text: &Text, byte: u8) -> Result<Texts, NoMemory>
    requires { byte < 128 }
    ensures { IfOk result (λ pieces. pieces ≡ slice_split (λ b. b == byte) text.now) }
{
    let mut found = Sequence::new(alloc);
    let bytes = text.bytes();
    let mut start = 0;
    for at in 0..bytes.len() {
        if bytes[at] == byte {
            found.push(Text::of(alloc, &bytes[start..at])?)?;
            start = at + 1;
        }
    }
    found.push(Text::of(alloc, &bytes[start..])?)?;
    Ok(found)
}
