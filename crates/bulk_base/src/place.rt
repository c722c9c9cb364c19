// The place of a byte.
ghost use Rattle.std.specs.Prelude.{◌≡◌, ◌≤◌, ◌==◌, length};
ghost use Rattle.std.specs.List.{position_or_len};
ghost use Rattle.bulk_base.specs.Marks.{front, back};

/// Where a byte first stands among bytes, from 0; how many bytes there are, where it stands nowhere. One pass over the
/// bytes; takes no memory.
pub fn place_or_end(bytes: &[u8], byte: u8) -> usize
    ensures place { result ≡ position_or_len (λ b. b == byte) bytes.now }
    ensures within { result ≤ length bytes.now }
{
    bytes.iter().position(|b| *b == byte).unwrap_or(bytes.len())
}

/// What stands before a byte's first place, and what stands behind it; all, and nothing, where it stands nowhere. One pass
/// over the bytes; takes no memory.
pub fn cut(bytes: &[u8], byte: u8) -> (&[u8], &[u8])
    ensures front { result.0.now ≡ front byte bytes.now }
    ensures back { result.1.now ≡ back byte bytes.now }
{
    let place = place_or_end(bytes, byte);
    if place < bytes.len() {
        (&bytes[..place], &bytes[place + 1..])
    } else {
        (bytes, &bytes[bytes.len()..])
    }
}
