// The form of a package's name, as a test.
ghost use Rattle.std.specs.Prelude.{◌≡◌, ◌<◌, length};
ghost use Rattle.bulk_base.specs.Names.{is_made_of, is_port_byte};
ghost use Rattle.port_name.specs.PackageForm as forms;

use crate::form::{has_only_port_bytes, is_shown_number, is_version};
use bulk_base::cut;

fn is_revised(text: &[u8]) -> bool
    ensures { result ≡ forms.is_revised text.now }
{
    let (version, revision) = cut(text, b'_');
    is_version(text) || (is_version(version) && is_shown_number(revision))
}

fn is_full_version(text: &[u8]) -> bool
    ensures { result ≡ forms.is_full_version text.now }
{
    let (revised, epoch) = cut(text, b',');
    is_revised(text) || (is_revised(revised) && is_shown_number(epoch))
}

fn is_base(text: &[u8]) -> bool
    ensures { result ≡ is_made_of is_port_byte 1 192 text.now }
{
    !text.is_empty() && text.len() <= 192 && has_only_port_bytes(text)
}

fn is_parted_at(text: &[u8], place: usize) -> bool
    requires { place < length text.now }
    ensures { result ≡ forms.is_parted_at text.now place }
{
    text[place] == b'-' && is_base(&text[..place]) && is_full_version(&text[place + 1..])
}

fn has_parting(text: &[u8]) -> bool
    ensures { result ≡ forms.some_below (forms.is_parted_at text.now) (length text.now) }
{
    for place in 0..text.len() {
        if is_parted_at(text, place) {
            return true;
        }
    }
    false
}

/// Whether a text is a package's name: a base of 1 to 192 bytes that names of ports are made of, `-`, a version, perhaps `_`
/// and a revision, perhaps `,` and an epoch, at most 200 bytes in all (Porter's Handbook, "Naming"). Takes no memory; each
/// `-` costs one pass over what stands behind it.
pub fn is_package_name(text: &[u8]) -> bool
    ensures { result ≡ forms.is_package_name text.now }
{
    text.len() <= 200 && has_parting(text)
}
