// Patterns of names.
ghost use Rattle.std.specs.Prelude.{◌≡◌, ◌↔◌, ◌==◌, ◌||◌, ◌+◌, ◌∷◌, length, drop, true, false, IsTrue, IfSome, IsNone};
ghost use Rattle.conf_file.specs.Pattern.{Matches, begins, ends, FitsNowhereBefore, IsBehindFirst};

use crate::statement::has_byte;
use bulk_base::{Text, cut};

/// Whether a byte of a pattern that is no `*` stands for a byte of a name.
fn stands_for(pattern: u8, byte: u8) -> bool
    ensures { result ≡ ((pattern == 63) || (pattern == byte)) }
{
    pattern == b'?' || pattern == byte
}

/// Whether a piece of a pattern without `*` stands for the first bytes of a name.
fn begins(piece: &[u8], name: &[u8]) -> bool
    ensures { result ≡ begins piece.now name.now }
{
    if piece.len() > name.len() {
        return false;
    }
    for at in 0..piece.len() {
        if !stands_for(piece[at], name[at]) {
            return false;
        }
    }
    true
}

/// Whether a piece of a pattern without `*` stands for the last bytes of a name.
fn ends(piece: &[u8], name: &[u8]) -> bool
    ensures { result ≡ ends piece.now name.now }
{
    piece.len() <= name.len() && begins(piece, &name[name.len() - piece.len()..])
}

/// What is left of a name behind a piece of a pattern without `*`; None where the name does not begin with it.
fn strip_front<'a>(piece: &[u8], name: &'a [u8]) -> Option<&'a [u8]>
    ensures begins { IfSome result (λ rest. begins piece.now name.now ≡ true) }
    ensures rest { IfSome result (λ rest. rest.now ≡ drop (length piece.now) name.now) }
    ensures other { IsNone result → begins piece.now name.now ≡ false }
{
    if begins(piece, name) {
        Some(&name[piece.len()..])
    } else {
        None
    }
}

/// What is left of a name behind the first place where a piece of a pattern without `*` fits; None where it fits nowhere.
fn strip_first<'a>(piece: &[u8], name: &'a [u8]) -> Option<&'a [u8]>
    ensures first { IfSome result (λ rest. IsBehindFirst piece.now name.now rest.now) }
    ensures nowhere { IsNone result → FitsNowhereBefore piece.now name.now (length name.now + 1) }
{
    for at in 0..=name.len() {
        if let Some(rest) = strip_front(piece, &name[at..]) {
            return Some(rest);
        }
    }
    None
}

/// Whether `*` and a pattern behind it match a name.
fn matches_behind_star(pattern: &[u8], name: &[u8]) -> bool
    ensures { IsTrue result ↔ Matches (42 ∷ pattern.now) name.now }
{
    let mut pattern = pattern;
    let mut name = name;
    while has_byte(pattern, b'*') {
        let (piece, rest) = cut(pattern, b'*');
        let Some(behind) = strip_first(piece, name) else {
            return false;
        };
        name = behind;
        pattern = rest;
    }
    ends(pattern, name)
}

/// Whether a pattern matches a name: in the pattern `*` stands for any bytes, `?` for one byte, and each other byte for
/// itself, over the whole name (docs/FORMATS.md, "Patterns").
///
/// Takes no memory. Between two `*` the first place that fits is taken, and never another, so that the cost is at most the
/// product of the two lengths.
pub fn matches(pattern: &Text, name: &Text) -> bool
    ensures { IsTrue result ↔ Matches pattern.now name.now }
{
    let pattern = pattern.bytes();
    let name = name.bytes();
    if !has_byte(pattern, b'*') {
        return pattern.len() == name.len() && begins(pattern, name);
    }
    let (head, rest) = cut(pattern, b'*');
    match strip_front(head, name) {
        Some(behind) => matches_behind_star(rest, behind),
        None => false,
    }
}
