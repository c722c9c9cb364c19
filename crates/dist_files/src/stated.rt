// What is stated of each file.
ghost use Rattle.std.specs.Prelude.{◌≡◌, OnOk, OnErr};
ghost use Rattle.dist_files.specs.Stated as states;

use crate::statement::{Fact, Statement};
use bulk_base::{NoMemory, Path, PathMap};
use bulk_model::Digest;

/// What is stated never, once or more often.
#[derive(Clone, Copy, Debug)]
pub(crate) enum Known<T> {
    /// It is stated nowhere.
    Never,
    /// It is stated once, so.
    Once(T),
    /// It is stated twice or more often.
    Again,
}

/// What is stated of a file.
#[derive(Clone, Copy, Debug)]
pub(crate) struct Stated {
    /// Its digest.
    pub(crate) sha256: Known<Digest>,
    /// Its number of bytes.
    pub(crate) size: Known<u64>,
}

impl<T: Copy> Known<T> {
    /// The same, stated once more.
    fn once_more(self, value: T) -> Known<T>
        ensures { result ≡ states.once_more self value }
    {
        match self {
            Known::Never => Known::Once(value),
            Known::Once(_) | Known::Again => Known::Again,
        }
    }

    /// What is stated, where it is stated once.
    pub(crate) fn once(self) -> Option<T>
        ensures { result ≡ states.once self }
    {
        match self {
            Known::Once(value) => Some(value),
            Known::Never | Known::Again => None,
        }
    }
}

impl Stated {
    /// The same with one more fact.
    fn with_fact(self, fact: Fact) -> Stated
        ensures { result ≡ states.with_fact self fact }
    {
        match fact {
            Fact::Sha256(digest) => Stated {
                sha256: self.sha256.once_more(digest),
                size: self.size,
            },
            Fact::Size(size) => Stated {
                sha256: self.sha256,
                size: self.size.once_more(size),
            },
        }
    }
}

/// What is stated of a file. O(log n) comparisons.
pub(crate) fn stated_at(stated: &PathMap<Stated>, file: &Path) -> Stated
    ensures { result ≡ states.stated_at stated.now file.now }
{
    match stated.get(file) {
        Some(known) => *known,
        None => Stated {
            sha256: Known::Never,
            size: Known::Never,
        },
    }
}

/// Puts one more statement into the map. O(log n) comparisons.
pub(crate) fn note(stated: &mut PathMap<Stated>, statement: Statement) -> Result<(), NoMemory>
    ensures ok { OnOk result (stated.new ≡ states.noted stated.old statement) }
    ensures err { OnErr result (stated.new ≡ stated.old) }
{
    let Statement { file, fact } = statement;
    let known = stated_at(stated, &file).with_fact(fact);
    stated.insert(file, known)
}
