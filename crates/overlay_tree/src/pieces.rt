// A file that several trees have, piece by piece.
ghost use Rattle.std.specs.Prelude.{◌≡◌, ◌≤◌, Some, take, IfOk, vec_len};
ghost use Rattle.std.specs.Option.{option_map};
ghost use Rattle.overlay_tree.specs.Merged.{with_piece};

use bulk_base::NoMemory;

/// The first `most` bytes of the pieces so far, a line feed and one more piece.
pub(crate) fn put_behind(
    found: Option<Vec<u8>>,
    piece: Vec<u8>,
    most: u64,
) -> Result<Vec<u8>, NoMemory>
    requires { vec_len piece ≤ most }
    ensures within { IfOk result (λ bytes. vec_len bytes ≤ most) }
    ensures bytes { IfOk result (λ bytes. Some bytes.items ≡ option_map (take most) (with_piece (option_map (λ b. b.items) found) piece.items)) }
{
    let Some(mut pieces) = found else {
        return Ok(piece);
    };
    pieces.push(b'\n')?;
    pieces.extend_from_slice(piece.as_slice())?;
    let end = most.min(pieces.len() as u64) as usize;
    pieces.truncate(end);
    Ok(pieces)
}
