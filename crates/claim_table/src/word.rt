// The state of a node in the table.
ghost use Rattle.std.specs.Prelude.{◌≡◌};
ghost use Rattle.claim_table.specs.Words;

/// The state of a node in the table (docs/CLAIM_TABLE.md).
#[derive(Clone, Copy, Debug, PartialEq, Eq)]
pub enum Word {
    /// Nobody has claimed it.
    Free,
    /// A seat has claimed it and builds it.
    Claimed,
    /// It was built, and its package lies in the table.
    Built,
    /// Its build failed.
    Failed,
    /// It was built, and a seat reads its package.
    Reading,
    /// It will not be built: a dependency failed, is ignored or was skipped.
    Skipped,
    /// Its package was there before.
    Kept,
    /// Its port is ignored.
    Ignored,
    /// It was claimed and given up, and is not claimed again.
    GivenUp,
}

/// The state that a number of the table means.
pub(crate) fn word_of(code: u64) -> Word
    ensures { result ≡ Words.word_of code }
{
    match code {
        0 => Word::Free,
        1 => Word::Claimed,
        2 => Word::Built,
        3 => Word::Failed,
        4 => Word::Reading,
        5 => Word::Skipped,
        6 => Word::Kept,
        7 => Word::Ignored,
        _ => Word::GivenUp,
    }
}
