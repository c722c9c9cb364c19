// Texts and paths of bytes that are known to be in form.
ghost use Rattle.std.specs.Prelude.{◌≡◌, ◌≤◌, ◌+◌, length, drop, IsTrue, IfOk, IfSome, IsNone};
ghost use Rattle.bulk_base.specs.Text.{is_text, is_plain_text};
ghost use Rattle.bulk_base.specs.Path.{is_path, is_below, joined};

use crate::path::{Path, PathError};
use crate::sequence::NoMemory;
use crate::text::{Text, TextError};
use std::alloc::{AllocError, Global};

impl Text {
    /// The text with bytes that are known to be one.
    pub fn of(alloc: Global, bytes: &[u8]) -> Result<Text, NoMemory>
        requires { IsTrue (is_text bytes.now) }
        ensures { IfOk result (λ t. t ≡ bytes.now) }
    {
        match Text::from_bytes(alloc, bytes) {
            Ok(text) => Ok(text),
            Err(TextError::NotText) => unreachable!(),
            Err(TextError::NoMemory) => Err(AllocError),
        }
    }

    /// The text of an ASCII literal.
    pub fn literal(alloc: Global, bytes: &[u8]) -> Result<Text, NoMemory>
        requires { IsTrue (is_plain_text bytes.now) }
        ensures { IfOk result (λ t. t ≡ bytes.now) }
    {
        Text::of(alloc, bytes)
    }
}

impl Path {
    /// The path with bytes that are known to be one.
    pub fn of(alloc: Global, bytes: &[u8]) -> Result<Path, NoMemory>
        requires text { IsTrue (is_text bytes.now) }
        requires path { IsTrue (is_path bytes.now) }
        ensures { IfOk result (λ p. p ≡ bytes.now) }
    {
        Path::of_text(alloc, &Text::of(alloc, bytes)?)
    }

    /// The path of a text that is known to spell one.
    pub fn of_text(alloc: Global, text: &Text) -> Result<Path, NoMemory>
        requires { IsTrue (is_path text.now) }
        ensures { IfOk result (λ p. p ≡ text.now) }
    {
        match Path::from_text(alloc, text) {
            Ok(path) => Ok(path),
            Err(PathError::BadPath) => unreachable!(),
            Err(PathError::NoMemory) => Err(AllocError),
        }
    }

    /// The path of an ASCII literal.
    pub fn literal(alloc: Global, bytes: &[u8]) -> Result<Path, NoMemory>
        requires text { IsTrue (is_plain_text bytes.now) }
        requires path { IsTrue (is_path bytes.now) }
        ensures { IfOk result (λ p. p ≡ bytes.now) }
    {
        Path::of(alloc, bytes)
    }

    /// A path below this one that is known to be short enough.
    pub fn join_short(&self, alloc: Global, rest: &Path) -> Result<Path, NoMemory>
        requires { length (joined self.now rest.now) ≤ 1024 }
        ensures { IfOk result (λ p. p ≡ joined self.now rest.now) }
    {
        match self.join(alloc, rest) {
            Ok(path) => Ok(path),
            Err(PathError::BadPath) => unreachable!(),
            Err(PathError::NoMemory) => Err(AllocError),
        }
    }

    /// What follows a folder and its slash, where the path stands below the folder.
    pub fn rest_below(&self, alloc: Global, folder: &Path) -> Result<Path, NoMemory>
        requires { IsTrue (is_below folder.now self.now) }
        ensures { IfOk result (λ p. p ≡ drop (length folder.now + 1) self.now) }
    {
        Path::of(alloc, &self.bytes()[folder.bytes().len() + 1..])
    }
}
