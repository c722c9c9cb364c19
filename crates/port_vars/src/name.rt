// Names of variables.
ghost use Rattle.std.specs.Prelude.{◌≡◌};
ghost use Rattle.std.specs.List.{list_all};
ghost use Rattle.port_vars.specs.Reference.{is_name_byte, is_name};
ghost use Rattle.port_vars.specs.Assignment.{name_in};

use crate::joined::without_last;
use bulk_base::trim;

fn has_name_bytes(text: &[u8]) -> bool
    ensures { result ≡ list_all is_name_byte text.now }
{
    text.iter().all(|b| b.is_ascii_alphanumeric()
        || *b == b'_'
        || *b == b'-'
        || *b == b'.'
        || *b == b'+')
}

/// Whether a text is a name: 1 to 160 letters, digits, `_`, `-`, `.` and `+`.
#[tactic(auto, unfolding(crate::specs::Reference::is_name))]
pub(crate) fn is_name(text: &[u8]) -> bool
    ensures { result ≡ is_name text.now }
{
    !text.is_empty() && text.len() <= 160 && has_name_bytes(text)
}

/// The name in what stands before the first `=`.
#[tactic(auto, unfolding(crate::specs::Assignment::name_in))]
pub(crate) fn name_of(before: &[u8]) -> &[u8]
    ensures { result.now ≡ name_in before.now }
{
    match before.last() {
        Some(b'+' | b'?') => trim(without_last(before)),
        _ => trim(before),
    }
}
