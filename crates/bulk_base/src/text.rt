// Text in form: UTF-8 without NUL and line feed.
ghost use Rattle.std.specs.Prelude.{◌≡◌, ◌↔◌, ◌≤◌, ◌-◌, ◌++◌, length, take, drop, IsTrue, IfOk, OnOk, OnErr, IsErrOf, bytes_eq};
ghost use Rattle.std.specs.String.{string_bytes};
ghost use Rattle.std.specs.Str.{IsCharBoundary};
ghost use Rattle.bulk_base.specs.Text.{IsText};
ghost use Rattle.bulk_base.specs.declared.text.TextError.TheVariants.{NoMemory as Refused};

use crate::sequence::{NoMemory, Sequence};
use std::alloc::{AllocError, AllocFailed, Global};
use std::cmp::Ordering;
use std::marker::Model;
use std::{fmt, str};

/// Why bytes gave no text.
#[derive(Clone, Copy, Debug, PartialEq, Eq)]
pub enum TextError {
    /// The bytes are not UTF-8, or hold NUL or a line feed.
    NotText,
    /// Want of memory.
    NoMemory,
}

impl From<AllocError> for TextError {
    ghost from_gives = { λ _ e. e ≡ Refused };

    fn from(_: AllocError) -> TextError {
        TextError::NoMemory
    }
}

/// UTF-8 without NUL and line feed, seen by contracts as the list of its bytes.
#[derive(Debug, Drop)]
pub struct Text {
    text: String,
}

/// A list of texts.
pub type Texts = Sequence<Text>;

impl Model for Text {
    ghost use Rattle.std.specs.Prelude.{List, ℕ, IsTrue};
    ghost use Rattle.std.specs.String.{string_bytes};
    ghost use Rattle.bulk_base.specs.Text.{has_text_bytes};

    ghost Value = { List ℕ };

    ghost view = { λ t. string_bytes t.text };

    ghost invariant = { λ t. IsTrue (has_text_bytes (string_bytes t.text)) };
}

fn has_text_bytes(bytes: &[u8]) -> bool
    ensures { result ≡ Rattle.bulk_base.specs.Text.has_text_bytes bytes.now }
{
    bytes.iter().all(|b| *b != 0 && *b != b'\n')
}

fn is_utf8(bytes: &[u8]) -> bool
    ensures { result ≡ Rattle.std.specs.Str.is_utf8 bytes.now }
{
    str::from_utf8(bytes).is_ok()
}

/// Whether bytes are a text: UTF-8 without NUL and line feed. One pass over the bytes; takes no memory.
pub fn is_text(bytes: &[u8]) -> bool
    ensures { result ≡ Rattle.bulk_base.specs.Text.is_text bytes.now }
{
    is_utf8(bytes) && has_text_bytes(bytes)
}

impl Text {
    /// The text with these bytes. NotText exactly where they are not UTF-8 or hold NUL or a line feed.
    pub fn from_bytes(alloc: Global, bytes: &[u8]) -> Result<Text, TextError>
        ensures ok { IfOk result (λ t. t ≡ bytes.now) }
        ensures form { OnOk result (IsText bytes.now) }
        ensures not_text { IsErrOf result TextError.NotText ↔ (¬ (IsText bytes.now)) }
    {
        let Ok(text) = str::from_utf8(bytes) else {
            return Err(TextError::NotText);
        };
        if !has_text_bytes(bytes) {
            return Err(TextError::NotText);
        }
        Ok(Text {
            text: String::from_str(alloc, text)?,
        })
    }

    /// The text that a string of text bytes is; takes no memory.
    pub(crate) fn from_string(text: String) -> Text
        requires { IsTrue (Rattle.bulk_base.specs.Text.has_text_bytes (string_bytes text)) }
        ensures { result ≡ string_bytes text }
    {
        Text { text }
    }

    /// The text as std's.
    pub fn as_str(&self) -> &str
        ensures same { result.now ≡ self.now }
        ensures form { IsText self.now }
    {
        self.text.as_str()
    }

    /// The text's bytes.
    pub fn bytes(&self) -> &[u8]
        ensures same { result.now ≡ self.now }
        ensures form { IsText self.now }
    {
        self.text.as_str().as_bytes()
    }

    /// Whether the text has these bytes.
    pub fn is(&self, bytes: &[u8]) -> bool
        ensures { result ≡ bytes_eq self.now bytes.now }
    {
        self.bytes() == bytes
    }

    /// The text between two places at the bounds of characters.
    pub(crate) fn piece(&self, alloc: Global, from: usize, to: usize) -> Result<Text, NoMemory>
        requires order { from ≤ to }
        requires within { to ≤ length self.now }
        requires starts { IsCharBoundary self.now from }
        requires ends { IsCharBoundary self.now to }
        ensures { IfOk result (λ t. t ≡ take (to - from) (drop from self.now)) }
    {
        Ok(Text {
            text: String::from_str(alloc, &self.text.as_str()[from..to])?,
        })
    }

    /// Puts another text at the end; on an error the text is as it was. Over many calls it costs the length of what is put.
    pub fn append(&mut self, other: &Text) -> Result<(), NoMemory>
        ensures ok { OnOk result (self.new ≡ self.old ++ other.now) }
        ensures err { OnErr result (self.new ≡ self.old) }
    {
        self.text.push_str(other.as_str())
    }

    /// Another text with the same bytes.
    pub fn copy(&self, alloc: Global) -> Result<Text, NoMemory>
        ensures { IfOk result (λ t. t ≡ self.now) }
    {
        Ok(Text {
            text: String::from_str(alloc, self.text.as_str())?,
        })
    }
}

impl PartialEq for Text {
    ghost use Rattle.std.specs.Prelude.{bytes_eq};
    ghost use Rattle.std.specs.Cmp.{partial_equiv_from_equiv};
    ghost use Rattle.std.specs.Cmp.Lexicographic.{nat_list_eq_equiv};

    ghost eq = { bytes_eq };

    ghost laws = { partial_equiv_from_equiv nat_list_eq_equiv };

    fn eq(&self, other: &Text) -> bool {
        self.text.as_str() == other.text.as_str()
    }
}

impl Eq for Text {
    ghost use Rattle.std.specs.Cmp.Lexicographic.{nat_list_eq_equiv};

    ghost laws = { nat_list_eq_equiv };
}

impl PartialOrd for Text {
    ghost use Rattle.std.specs.Prelude.{Some};
    ghost use Rattle.std.specs.Cmp.Lexicographic.{slice_cmp, texts_po};
    ghost use Rattle.std.specs.Ordering.{nat_cmp};

    ghost partial_cmp = { λ a b. Some (slice_cmp nat_cmp a b) };

    ghost laws = { texts_po };

    fn partial_cmp(&self, other: &Text) -> Option<Ordering> {
        Some(self.cmp(other))
    }
}

impl Ord for Text {
    ghost use Rattle.std.specs.Prelude.{refl};
    ghost use Rattle.std.specs.Cmp.Lexicographic.{slice_cmp, nat_list_cmp_total, texts_ties};
    ghost use Rattle.std.specs.Ordering.{nat_cmp};

    ghost cmp = { slice_cmp nat_cmp };

    ghost total = { nat_list_cmp_total };

    ghost matches_partial_cmp = { λ a b. refl };

    ghost matches_eq = { texts_ties };

    fn cmp(&self, other: &Text) -> Ordering {
        self.text.as_str().cmp(other.text.as_str())
    }
}

impl fmt::Display for Text {
    ghost use Rattle.std.specs.Prelude.{Some};

    ghost output = { λ t. Some t };

    fn fmt<W: fmt::Write>(&self, f: &mut fmt::Formatter<W>) -> fmt::Result {
        f.write_str(self.text.as_str())
    }
}
