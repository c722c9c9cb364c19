// References to variables in a value.
ghost use Rattle.std.specs.Prelude.{◌≡◌, ◌<◌, ◌≤◌, ◌++◌, length, take, IfOk, IfErr, IfSome, OnOk, slice_index, List, ℕ, ◌∷◌, ◌+◌};
ghost use Rattle.std.specs.Option.{option_copied, option_map, ok_or};
ghost use Rattle.std.specs.FinMap as map;
ghost use Rattle.bulk_base.specs.Text.{IsText};
ghost use Rattle.port_vars.specs.Reference.{value_of, close_in, referenced, expanded_from, expanded};
ghost use Rattle.port_vars.specs.Answers.{Answers, Leaves, HasCause, first_bytes};
ghost use Rattle.port_vars.specs.declared.fault.LineKind.TheVariants.{Reference as Faulty};

use crate::fault::{LineError, LineKind};
use crate::name::is_name;
use crate::piece::{pieces, place_of};
use bulk_base::{Bytes, NoMemory, Sequence, Text, TextMap};
use std::alloc::Global;

/// The value of a name; None where it is no name or is not set.
fn value_of<'a>(
    alloc: Global,
    vars: &'a TextMap<Text>,
    name: &[u8],
) -> Result<Option<&'a Text>, NoMemory>
    ensures { IfOk result (λ value. option_copied value ≡ value_of (map.get vars.now) name.now) }
{
    if !is_name(name) {
        return Ok(None);
    }
    let name = Text::of(alloc, name)?;
    Ok(vars.get(&name))
}

/// Puts a piece at the end of a text of which only the first `most` bytes are kept.
fn push_most(out: &mut Vec<u8>, most: usize, piece: &[u8]) -> Result<(), NoMemory>
    requires { length out.old.items ≤ most }
    ensures { OnOk result (out.new.items ≡ take most (out.old.items ++ piece.now)) }
{
    let room = most - out.len();
    let end = if room < piece.len() {
        room
    } else {
        piece.len()
    };
    out.extend_from_slice(&piece[..end])?;
    Ok(())
}

/// The place of the `}` in a piece that begins with `{`.
fn close_of(piece: &[u8]) -> Option<usize>
    ensures value { result ≡ close_in piece.now }
    ensures place { IfSome result (λ close. (1 ≤ close) × (close < length piece.now) × (slice_index piece.now close ≡ 125)) }
{
    match piece.first() {
        Some(b'{') => place_of(piece, b'}'),
        _ => None,
    }
}

/// Puts what `{NAME}` and the bytes behind it stand for at the end of a text.
fn push_reference(
    alloc: Global,
    vars: &TextMap<Text>,
    piece: &Text,
    most: usize,
    out: &mut Vec<u8>,
) -> Result<(), LineError>
    requires { length out.old.items ≤ most }
    ensures text { Leaves
        (ok_or (option_map (λ text. take most (out.old.items ++ text)) (referenced (map.get vars.now) piece.now)) Faulty)
        result out.new.items }
    ensures form { OnOk result ((length out.old.items < most → IsText out.old.items) → length out.new.items < most → IsText out.new.items) }
{
    let bytes = piece.bytes();
    let Some(close) = close_of(bytes) else {
        return Err(LineError::Bad(LineKind::Reference));
    };
    let Some(value) = value_of(alloc, vars, &bytes[1..close])? else {
        return Err(LineError::Bad(LineKind::Reference));
    };
    push_most(out, most, value.bytes())?;
    push_most(out, most, &bytes[close + 1..])?;
    Ok(())
}

/// Puts what the next piece between `$` stands for at the end of a text; answers whether the piece behind it stands for
/// itself.
fn push_piece(
    alloc: Global,
    vars: &TextMap<Text>,
    piece: &Text,
    plain: bool,
    most: usize,
    out: &mut Vec<u8>,
) -> Result<bool, LineError>
    requires { length out.old.items ≤ most }
    ensures text { IfOk result (λ next. (more : List (List ℕ)) →
        first_bytes most (map.get vars.now) out.old.items plain (piece.now ∷ more) ≡ first_bytes most (map.get vars.now) out.new.items next more) }
    ensures fault { IfErr result (λ e. HasCause Faulty e ((more : List (List ℕ)) →
        expanded_from (map.get vars.now) plain (piece.now ∷ more) ≡ None)) }
    ensures size { OnOk result (length out.new.items ≤ most) }
    ensures form { OnOk result ((length out.old.items < most → IsText out.old.items) → length out.new.items < most → IsText out.new.items) }
{
    if plain {
        push_most(out, most, piece.bytes())?;
        return Ok(false);
    }
    if piece.bytes().is_empty() {
        push_most(out, most, b"$")?;
        return Ok(true);
    }
    push_reference(alloc, vars, piece, most, out)?;
    Ok(false)
}

/// The first `most` bytes of the text that a value stands for. Reference exactly where the value holds a `$` that begins
/// neither `$$` nor a reference to a name that is set.
pub(crate) fn expanded(
    alloc: Global,
    vars: &TextMap<Text>,
    value: &Text,
    most: usize,
) -> Result<Bytes, LineError>
    ensures text { Answers (ok_or (option_map (take most) (expanded (map.get vars.now) value.now)) Faulty) result }
    ensures form { IfOk result (λ text. length text < most → IsText text) }
{
    let pieces = pieces(alloc, value, b'$')?;
    let mut out = Vec::new(alloc);
    let mut plain = true;
    for piece in pieces.as_slice() {
        plain = push_piece(alloc, vars, piece, plain, most, &mut out)?;
    }
    if plain {
        return Err(LineError::Bad(LineKind::Reference));
    }
    Ok(Sequence::from_vec(out))
}
