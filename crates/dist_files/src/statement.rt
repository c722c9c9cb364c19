// What a line states of a file.
ghost use Rattle.std.specs.Prelude.{◌≡◌, codes, IfOk};
ghost use Rattle.std.specs.Option.{option_copied, option_map};
ghost use Rattle.dist_files.specs.Hashes.{IsDigest};
ghost use Rattle.dist_files.specs.Lines as lines_of;

use bulk_base::{NoMemory, Path, PathError, Text, TextError, cut, number};
use bulk_model::Digest;
use std::alloc::{AllocError, Global};

/// What is stated of a file.
#[derive(Clone, Copy, Debug)]
pub(crate) enum Fact {
    /// Its digest.
    Sha256(Digest),
    /// Its number of bytes.
    Size(u64),
}

/// A file, and what a line states of it.
#[derive(Debug, Drop)]
pub(crate) struct Statement {
    /// The file's path.
    pub(crate) file: Path,
    /// What is stated.
    pub(crate) fact: Fact,
}

/// What follows a heading.
fn behind<'a>(heading: &[u8], text: &'a [u8]) -> Option<&'a [u8]>
    ensures { option_copied result ≡ lines_of.behind heading.now text.now }
{
    if text.starts_with(heading) {
        Some(&text[heading.len()..])
    } else {
        None
    }
}

/// A digest, which has 32 bytes.
fn kept(digest: Digest) -> Digest
    ensures same { result ≡ digest }
    ensures form { IsDigest result }
{
    digest
}

/// The digest that a word is the text of.
fn hash_fact(word: &[u8]) -> Option<Fact>
    ensures { result ≡ lines_of.hash_fact word.now }
{
    match Digest::from_hex(word) {
        Some(digest) => Some(Fact::Sha256(kept(digest))),
        None => None,
    }
}

/// The number of bytes that a word spells.
fn size_fact(alloc: Global, word: &[u8]) -> Result<Option<Fact>, NoMemory>
    ensures { IfOk result (λ fact. fact ≡ lines_of.size_fact word.now) }
{
    match Text::from_bytes(alloc, word) {
        Ok(text) => Ok(number(&text).map(Fact::Size)),
        Err(TextError::NotText) => Ok(None),
        Err(TextError::NoMemory) => Err(AllocError),
    }
}

/// The statement of a fact, where the file's name is in form.
fn statement_of(alloc: Global, file: &[u8], fact: Fact) -> Result<Option<Statement>, NoMemory>
    ensures { IfOk result (λ said. said ≡ lines_of.statement_of file.now fact) }
{
    if file.len() > 1014 {
        return Ok(None);
    }
    match Path::from_bytes(alloc, file) {
        Ok(file) => Ok(Some(Statement { file, fact })),
        Err(PathError::BadPath) => Ok(None),
        Err(PathError::NoMemory) => Err(AllocError),
    }
}

/// The name before a line's first `)`, and the word behind ` = `.
fn name_and_word(text: &[u8]) -> Option<(&[u8], &[u8])>
    ensures { option_map (λ x. (x.0.now, x.1.now)) result ≡ lines_of.name_and_word text.now }
{
    let (name, rest) = cut(text, b')');
    match behind(b" = ", rest) {
        Some(word) => Some((name, word)),
        None => None,
    }
}

/// What is stated behind `SHA256 (`.
fn hash_said(alloc: Global, text: &[u8]) -> Result<Option<Statement>, NoMemory>
    ensures { IfOk result (λ said. said ≡ lines_of.stated lines_of.hash_fact text.now) }
{
    let Some((name, word)) = name_and_word(text) else {
        return Ok(None);
    };
    match hash_fact(word) {
        Some(fact) => statement_of(alloc, name, fact),
        None => Ok(None),
    }
}

/// What is stated behind `SIZE (`.
fn size_said(alloc: Global, text: &[u8]) -> Result<Option<Statement>, NoMemory>
    ensures { IfOk result (λ said. said ≡ lines_of.stated lines_of.size_fact text.now) }
{
    let Some((name, word)) = name_and_word(text) else {
        return Ok(None);
    };
    match size_fact(alloc, word)? {
        Some(fact) => statement_of(alloc, name, fact),
        None => Ok(None),
    }
}

/// What a line states of a file; None where it is no such line. One pass over the line, and a copy of the name.
#[tactic(auto, unfolding(crate::specs::Lines::said))]
pub(crate) fn said(alloc: Global, line: &[u8]) -> Result<Option<Statement>, NoMemory>
    ensures { IfOk result (λ said. said ≡ lines_of.said line.now) }
{
    if let Some(text) = behind(b"SHA256 (", line) {
        return hash_said(alloc, text);
    }
    match behind(b"SIZE (", line) {
        Some(text) => size_said(alloc, text),
        None => Ok(None),
    }
}

/// Whether a line says nothing: it is empty, or begins with `TIMESTAMP`.
pub(crate) fn is_passed(line: &[u8]) -> bool
    ensures { result ≡ lines_of.is_passed line.now }
{
    line.is_empty() || line.starts_with(b"TIMESTAMP")
}
