// The words of the command line.
ghost use Rattle.std.specs.Prelude.{◌≡◌, ◌↔◌};
ghost use Rattle.std.specs.IoError.{error_kind};
ghost use Rattle.std.specs.declared.io.ErrorKind.TheVariants.{OutOfMemory};
ghost use Rattle.bulk_base.specs.declared.text.TextError.TheVariants as text;
ghost use Rattle.poudriere_cli.specs.declared.words.WordsError.TheVariants.{NoMemory as Refused};

use bulk_base::{Sequence, Text, TextError, Texts};
use std::alloc::{AllocError, Global};
use std::env;
use std::io::{self, ErrorKind};

/// Why there are no words.
#[derive(Clone, Copy, Debug, PartialEq, Eq)]
pub enum WordsError {
    /// One of them is no text.
    NotText,
    /// Want of memory.
    NoMemory,
}

impl From<AllocError> for WordsError {
    ghost from_gives = { λ _ e. e ≡ Refused };

    fn from(_: AllocError) -> WordsError {
        WordsError::NoMemory
    }
}

impl From<TextError> for WordsError {
    ghost from_gives = { λ error e. e ≡ Refused ↔ error ≡ text.NoMemory };

    fn from(error: TextError) -> WordsError {
        match error {
            TextError::NotText => WordsError::NotText,
            TextError::NoMemory => WordsError::NoMemory,
        }
    }
}

/// Without want of memory the system's arguments are refused as a whole where one is not UTF-8.
impl From<io::Error> for WordsError {
    ghost from_gives = { λ error e. e ≡ Refused ↔ error_kind error ≡ OutOfMemory };

    fn from(error: io::Error) -> WordsError {
        match error.kind() {
            ErrorKind::OutOfMemory => WordsError::NoMemory,
            _ => WordsError::NotText,
        }
    }
}

/// The words behind the program's name.
pub fn given_words(rt: &HostRuntime, alloc: Global) -> Result<Texts, WordsError> {
    let mut words = Sequence::new(alloc);
    for word in env::args(rt)?.skip(1) {
        words.push(Text::from_bytes(alloc, word.as_str().as_bytes())?)?;
    }
    Ok(words)
}
