// Paths in form: parts joined by `/`.
ghost use Rattle.std.specs.Prelude.{◌≡◌, ◌<◌, ◌↔◌, ◌+◌, [], length, take, IfOk, OnOk, IsErrOf, nat_eq, slice_index};
ghost use Rattle.std.specs.List.{list_all};
ghost use Rattle.bulk_base.specs.Path.{IsPath, parts, joined, is_below, collides};
ghost use Rattle.bulk_base.specs.Text.{IsText};
ghost use Rattle.bulk_base.specs.declared.path.PathError.TheVariants.{NoMemory as Refused};

use crate::sequence::{NoMemory, Sequence};
use crate::text::{Text, TextError};
use std::alloc::{AllocError, Global};
use std::cmp::Ordering;
use std::fmt;
use std::marker::Model;

/// Why a text gave no path.
#[derive(Clone, Copy, Debug, PartialEq, Eq)]
pub enum PathError {
    /// The text, or the joined path, is outside the form.
    BadPath,
    /// Want of memory.
    NoMemory,
}

impl From<AllocError> for PathError {
    ghost from_gives = { λ _ e. e ≡ Refused };

    fn from(_: AllocError) -> PathError {
        PathError::NoMemory
    }
}

impl From<TextError> for PathError {
    ghost use Rattle.bulk_base.specs.Path.{path_error_of};

    ghost from_gives = { λ error e. e ≡ path_error_of error };

    fn from(error: TextError) -> PathError {
        match error {
            TextError::NotText => PathError::BadPath,
            TextError::NoMemory => PathError::NoMemory,
        }
    }
}

/// Parts joined by `/`, none empty, `.` or `..`, each of at most 200 bytes, at most 1,024 bytes in all.
/// Contracts see a path as the list of its bytes.
#[derive(Debug, Drop)]
pub struct Path {
    text: Text,
}

/// A list of paths.
pub type Paths = Sequence<Path>;

impl Model for Path {
    ghost use Rattle.std.specs.Prelude.{List, ℕ};
    ghost use Rattle.bulk_base.specs.Path.{IsPath};

    ghost Value = { List ℕ };

    ghost view = { λ p. p.text };

    ghost invariant = { λ p. IsPath p.text };
}

fn is_part(part: &[u8]) -> bool
    ensures { result ≡ Rattle.bulk_base.specs.Path.is_part part.now }
{
    !part.is_empty() && part.len() <= 200 && part != b".".as_slice() && part != b"..".as_slice()
}

fn has_good_parts(bytes: &[u8]) -> bool
    ensures { result ≡ list_all Rattle.bulk_base.specs.Path.is_part (parts bytes.now) }
{
    bytes.split(|b| *b == b'/').all(|part| is_part(part))
}

fn is_path(bytes: &[u8]) -> bool
    ensures { result ≡ Rattle.bulk_base.specs.Path.is_path bytes.now }
{
    bytes.len() <= 1024 && has_good_parts(bytes)
}

fn has_slash_at(path: &[u8], at: usize) -> bool
    ensures { result ≡ nat_eq (slice_index path.now at) 47 }
{
    at < path.len() && path[at] == b'/'
}

impl Path {
    /// The path that a text spells. BadPath exactly where the text is outside the form.
    pub fn from_text(alloc: Global, text: &Text) -> Result<Path, PathError>
        ensures ok { IfOk result (λ p. p ≡ text.now) }
        ensures form { OnOk result (IsPath text.now) }
        ensures bad_path { IsErrOf result PathError.BadPath ↔ (¬ (IsPath text.now)) }
    {
        if !is_path(text.bytes()) {
            return Err(PathError::BadPath);
        }
        Ok(Path {
            text: text.copy(alloc)?,
        })
    }

    /// The path that bytes spell. BadPath exactly where the bytes are not a text, or a text outside the form.
    pub fn from_bytes(alloc: Global, bytes: &[u8]) -> Result<Path, PathError>
        ensures ok { IfOk result (λ p. p ≡ bytes.now) }
        ensures form { OnOk result (IsText bytes.now × IsPath bytes.now) }
        ensures bad_path { IsErrOf result PathError.BadPath ↔ (¬ (IsText bytes.now × IsPath bytes.now)) }
    {
        if !is_path(bytes) {
            return Err(PathError::BadPath);
        }
        Ok(Path {
            text: Text::from_bytes(alloc, bytes)?,
        })
    }

    /// The path's text.
    pub fn text(&self) -> &Text
        ensures same { result.now ≡ self.now }
        ensures form { IsPath self.now }
    {
        &self.text
    }

    /// The path's bytes.
    pub fn bytes(&self) -> &[u8]
        ensures same { result.now ≡ self.now }
        ensures text { IsText self.now }
        ensures form { IsPath self.now }
    {
        self.text.bytes()
    }

    /// The text that the path is; takes no memory.
    pub(crate) fn into_text(self) -> Text
        ensures same { result ≡ self }
        ensures form { IsPath self }
    {
        let Path { text } = self;
        text
    }

    /// What every path below this one begins with: its text and a slash.
    pub(crate) fn with_slash(&self, alloc: Global) -> Result<Text, NoMemory>
        ensures { IfOk result (λ t. t ≡ joined self.now []) }
    {
        let text = self.text.as_str();
        Ok(Text::from_string(format!(in alloc; "{text}/")?))
    }

    /// The text of the path's bytes before a slash.
    pub(crate) fn front(&self, alloc: Global, slash: usize) -> Result<Text, NoMemory>
        requires text { IsText self.now }
        requires within { slash < length self.now }
        requires at { slice_index self.now slash ≡ 47 }
        ensures { IfOk result (λ t. t ≡ take slash self.now) }
    {
        self.text.piece(alloc, 0, slash)
    }

    /// Another path with the same bytes.
    pub fn copy(&self, alloc: Global) -> Result<Path, NoMemory>
        ensures { IfOk result (λ p. p ≡ self.now) }
    {
        Ok(Path {
            text: self.text.copy(alloc)?,
        })
    }

    /// The path of what stands at `rest` below this path. BadPath exactly where it has more than 1,024 bytes.
    pub fn join(&self, alloc: Global, rest: &Path) -> Result<Path, PathError>
        ensures ok { IfOk result (λ p. p ≡ joined self.now rest.now) }
        ensures bad_path { IsErrOf result PathError.BadPath ↔ (1024 < length (joined self.now rest.now)) }
    {
        let folder = self.bytes();
        let below = rest.bytes();
        if folder.len() + 1 + below.len() > 1024 {
            return Err(PathError::BadPath);
        }
        Ok(Path {
            text: Text::from_string(format!(in alloc; "{self}/{rest}")?),
        })
    }

    /// Whether this path begins with the folder and a slash.
    #[tactic(auto, using(crate::proofs::Paths::is_below_by_parts))]
    pub fn is_below(&self, folder: &Path) -> bool
        ensures { result ≡ is_below folder.now self.now }
    {
        let path = self.bytes();
        let folder = folder.bytes();
        path.starts_with(folder) && has_slash_at(path, folder.len())
    }

    /// Whether the paths are equal or one is below the other, so that no tree can have a file at both.
    pub fn collides(&self, other: &Path) -> bool
        ensures { result ≡ collides self.now other.now }
    {
        self == other || self.is_below(other) || other.is_below(self)
    }
}

impl PartialEq for Path {
    ghost use Rattle.std.specs.Prelude.{bytes_eq};
    ghost use Rattle.std.specs.Cmp.{partial_equiv_from_equiv};
    ghost use Rattle.std.specs.Cmp.Lexicographic.{nat_list_eq_equiv};

    ghost eq = { bytes_eq };

    ghost laws = { partial_equiv_from_equiv nat_list_eq_equiv };

    fn eq(&self, other: &Path) -> bool {
        self.text == other.text
    }
}

impl Eq for Path {
    ghost use Rattle.std.specs.Cmp.Lexicographic.{nat_list_eq_equiv};

    ghost laws = { nat_list_eq_equiv };
}

impl PartialOrd for Path {
    ghost use Rattle.std.specs.Prelude.{Some};
    ghost use Rattle.std.specs.Cmp.Lexicographic.{slice_cmp, texts_po};
    ghost use Rattle.std.specs.Ordering.{nat_cmp};

    ghost partial_cmp = { λ a b. Some (slice_cmp nat_cmp a b) };

    ghost laws = { texts_po };

    fn partial_cmp(&self, other: &Path) -> Option<Ordering> {
        Some(self.cmp(other))
    }
}

impl Ord for Path {
    ghost use Rattle.std.specs.Prelude.{refl};
    ghost use Rattle.std.specs.Cmp.Lexicographic.{slice_cmp, nat_list_cmp_total, texts_ties};
    ghost use Rattle.std.specs.Ordering.{nat_cmp};

    ghost cmp = { slice_cmp nat_cmp };

    ghost total = { nat_list_cmp_total };

    ghost matches_partial_cmp = { λ a b. refl };

    ghost matches_eq = { texts_ties };

    fn cmp(&self, other: &Path) -> Ordering {
        self.text.cmp(&other.text)
    }
}

impl fmt::Display for Path {
    ghost use Rattle.std.specs.Prelude.{Some};

    ghost output = { λ p. Some p };

    fn fmt<W: fmt::Write>(&self, f: &mut fmt::Formatter<W>) -> fmt::Result {
        f.write_str(self.text.as_str())
    }
}
