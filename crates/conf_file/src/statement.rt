// The statement of a line of poudriere.conf: its name and its value.
ghost use Rattle.std.specs.Prelude.{◌≡◌, ◌≤◌, length};
ghost use Rattle.std.specs.Option.{option_copied};
ghost use Rattle.std.specs.List.{list_all, list_any, position_or_len};
ghost use Rattle.bulk_base.specs.Marks.{is_mark};
ghost use Rattle.bulk_base.specs.Words as words;
ghost use Rattle.conf_file.specs.Lines as line_of;

use bulk_base::{cut, is_blank, trim, trim_start};

/// Whether a text has only blanks, or a comment behind them.
pub(crate) fn says_nothing(text: &[u8]) -> bool
    ensures { result ≡ line_of.says_nothing text.now }
{
    let rest = trim_start(text);
    rest.is_empty() || rest[0] == b'#'
}

fn is_exported(text: &[u8]) -> bool
    ensures { result ≡ line_of.is_exported text.now }
{
    text.starts_with(b"export".as_slice()) && text.len() > 6 && is_blank(text[6])
}

/// A line without the blanks at its ends, and without `export` and the blanks behind it.
pub(crate) fn statement(line: &[u8]) -> &[u8]
    ensures { result.now ≡ line_of.statement line.now }
{
    let text = trim(line);
    if is_exported(text) {
        trim_start(&text[6..])
    } else {
        text
    }
}

fn has_name_bytes(text: &[u8]) -> bool
    ensures { result ≡ list_all line_of.is_name_byte text.now }
{
    text.iter().all(|b| b.is_ascii_alphanumeric() || *b == b'_')
}

/// Whether a text is a name: letters, digits and `_`, one at least.
pub(crate) fn is_name(text: &[u8]) -> bool
    ensures { result ≡ line_of.is_name text.now }
{
    !text.is_empty() && has_name_bytes(text)
}

/// Whether a byte stands in a text.
pub(crate) fn has_byte(text: &[u8], byte: u8) -> bool
    ensures { result ≡ list_any (is_mark byte) text.now }
{
    text.iter().any(|b| *b == byte)
}

/// A value behind a mark, up to the next such mark; None where there is none, or where more than a comment stands behind it.
fn quoted(mark: u8, text: &[u8]) -> Option<&[u8]>
    ensures { option_copied result ≡ line_of.quoted mark text.now }
{
    let (value, rest) = cut(text, mark);
    if has_byte(text, mark) && says_nothing(rest) {
        Some(value)
    } else {
        None
    }
}

/// Where the first blank stands; the end where there is none.
fn first_blank(text: &[u8]) -> usize
    ensures place { result ≡ position_or_len words.is_blank text.now }
    ensures within { result ≤ length text.now }
{
    text.iter().position(|b| is_blank(*b)).unwrap_or(text.len())
}

/// A value up to the first blank; None where more than a comment stands behind it.
fn plain(text: &[u8]) -> Option<&[u8]>
    ensures { option_copied result ≡ line_of.plain text.now }
{
    let end = first_blank(text);
    if says_nothing(&text[end..]) {
        Some(&text[..end])
    } else {
        None
    }
}

/// The value in what stands behind the operator; None where a mark has no other, or where more than a comment stands behind
/// the value.
pub(crate) fn value_in(text: &[u8]) -> Option<&[u8]>
    ensures { option_copied result ≡ line_of.value_in text.now }
{
    match text.first() {
        Some(mark @ (b'"' | b'\'')) => quoted(*mark, &text[1..]),
        _ => plain(text),
    }
}
