// The parts of a word.
ghost use Rattle.std.specs.Prelude.{◌≡◌, ◌≤◌, length, IfOk};
ghost use Rattle.std.specs.List.{position_or_len};
ghost use Rattle.port_name.specs.Forms.{is_at};
ghost use Rattle.origin_flavor.specs.Words as parts;

use bulk_base::{NoMemory, Text, place_or_end};
use std::alloc::Global;

/// The word's own origin: what stands before `@`.
pub(crate) fn origin_in(alloc: Global, word: &Text) -> Result<Text, NoMemory>
    ensures { IfOk result (λ origin. origin ≡ parts.origin_in word.now) }
{
    let bytes = word.bytes();
    Text::of(alloc, &bytes[..place_or_end(bytes, b'@')])
}

/// Whether the word asks for all flavors: `all` stands behind `@`.
pub(crate) fn asks_all(word: &Text) -> bool
    ensures { result ≡ parts.asks_all word.now }
{
    let bytes = word.bytes();
    let at = place_or_end(bytes, b'@');
    at < bytes.len() && &bytes[at + 1..] == b"all".as_slice()
}

/// The name that MOVED is asked for: the word, with `@all` taken off.
pub(crate) fn name_in(alloc: Global, word: &Text) -> Result<Text, NoMemory>
    ensures { IfOk result (λ name. name ≡ parts.name_in word.now) }
{
    if asks_all(word) {
        origin_in(alloc, word)
    } else {
        word.copy(alloc)
    }
}
