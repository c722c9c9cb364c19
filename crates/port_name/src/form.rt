// The forms of names, as tests.
ghost use Rattle.std.specs.Prelude.{◌≡◌};
ghost use Rattle.std.specs.List.{list_all};
ghost use Rattle.bulk_base.specs.Names as names;
ghost use Rattle.port_name.specs.Forms as forms;

fn is_port_byte(byte: u8) -> bool
    ensures { result ≡ names.is_port_byte byte }
{
    byte.is_ascii_alphanumeric() || byte == b'_' || byte == b'-' || byte == b'.' || byte == b'+'
}

pub(crate) fn has_only_port_bytes(text: &[u8]) -> bool
    ensures { result ≡ list_all names.is_port_byte text.now }
{
    text.iter().all(|b| is_port_byte(*b))
}

/// Whether a text is a category's or a port's name: 1 to 64 letters, digits, `_`, `-`, `.` and `+`, the first a letter, a
/// digit or `_`.
pub fn is_port_name(text: &[u8]) -> bool
    ensures { result ≡ names.is_port_name text.now }
{
    !text.is_empty()
        && text.len() <= 64
        && has_only_port_bytes(text)
        && (text[0].is_ascii_alphanumeric() || text[0] == b'_')
}

/// Whether a text may stand before or behind a port's name: at most 64 bytes that names of ports are made of.
pub(crate) fn is_affix(text: &[u8]) -> bool
    ensures { result ≡ forms.is_affix text.now }
{
    text.len() <= 64 && has_only_port_bytes(text)
}

fn is_flavor_byte(byte: u8) -> bool
    ensures { result ≡ forms.is_flavor_byte byte }
{
    byte.is_ascii_lowercase() || byte.is_ascii_digit() || byte == b'_'
}

fn has_only_flavor_bytes(text: &[u8]) -> bool
    ensures { result ≡ list_all forms.is_flavor_byte text.now }
{
    text.iter().all(|b| is_flavor_byte(*b))
}

/// Whether a text is a flavor's name: 1 to 32 lower-case letters, digits and `_`.
pub fn is_flavor(text: &[u8]) -> bool
    ensures { result ≡ names.is_flavor text.now }
{
    !text.is_empty() && text.len() <= 32 && has_only_flavor_bytes(text)
}

fn is_option_byte(byte: u8) -> bool
    ensures { result ≡ forms.is_option_byte byte }
{
    byte.is_ascii_alphanumeric() || byte == b'_' || byte == b'-'
}

fn has_only_option_bytes(text: &[u8]) -> bool
    ensures { result ≡ list_all forms.is_option_byte text.now }
{
    text.iter().all(|b| is_option_byte(*b))
}

/// Whether a text is an option's name: 1 to 64 letters, digits, `_` and `-`.
pub fn is_option_name(text: &[u8]) -> bool
    ensures { result ≡ names.is_option_name text.now }
{
    !text.is_empty() && text.len() <= 64 && has_only_option_bytes(text)
}

fn is_version_byte(byte: u8) -> bool
    ensures { result ≡ forms.is_version_byte byte }
{
    byte.is_ascii_alphanumeric() || byte == b'.' || byte == b'+'
}

fn has_only_version_bytes(text: &[u8]) -> bool
    ensures { result ≡ list_all forms.is_version_byte text.now }
{
    text.iter().all(|b| is_version_byte(*b))
}

/// Whether a text is a version: 1 to 64 letters, digits, `.` and `+`.
pub(crate) fn is_version(text: &[u8]) -> bool
    ensures { result ≡ names.is_version text.now }
{
    !text.is_empty() && text.len() <= 64 && has_only_version_bytes(text)
}

fn is_digit(byte: u8) -> bool
    ensures { result ≡ names.is_digit byte }
{
    byte.is_ascii_digit()
}

fn has_only_digits(text: &[u8]) -> bool
    ensures { result ≡ list_all names.is_digit text.now }
{
    text.iter().all(|b| is_digit(*b))
}

pub(crate) fn is_shown_number(text: &[u8]) -> bool
    ensures { result ≡ names.is_shown_number text.now }
{
    !text.is_empty() && text.len() <= 9 && has_only_digits(text) && text[0] != b'0'
}

/// Whether a text is a revision or an epoch: `0`, or 1 to 9 digits without a leading zero.
pub(crate) fn is_counter(text: &[u8]) -> bool
    ensures { result ≡ forms.is_counter text.now }
{
    text == b"0".as_slice() || is_shown_number(text)
}
