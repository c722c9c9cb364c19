// What words come to in a ports tree, and the first that is refused.
ghost use Rattle.std.specs.Prelude.{◌≡◌, ◌≢◌, IfOk, IfErr};
ghost use Rattle.std.specs.declared.result.Result.TheVariants.{Ok, Err};
ghost use Rattle.origin_flavor.specs.Answers as answers;
ghost use Rattle.origin_flavor.specs.Answers.{answer_of, answers_of};
ghost use Rattle.origin_flavor.specs.Words as parts;

use crate::fault::WantedError;
use crate::word::{name_in, origin_in};
use bulk_base::{NoMemory, Sequence, Text};
use moved_list::{Follow, follow};
use port_name::{Names, is_node};
use std::alloc::Global;
use tree_index::Index;

/// A word and the name that it comes to.
#[derive(Drop)]
pub(crate) struct Answer {
    /// The word as written.
    pub(crate) word: Text,
    /// A name that is there.
    pub(crate) name: Text,
    /// Whether MOVED led to it.
    pub(crate) moved: bool,
}

/// A list of answers.
pub(crate) type Answers = Sequence<Answer>;

/// What is told of a word that leads to nothing.
fn refuse_absent(alloc: Global, names: &Names, word: Text) -> Result<WantedError, NoMemory>
    ensures { IfOk result (λ error. error ≡ answers.absence names.now word) }
{
    let origin = origin_in(alloc, &word)?;
    if names.holds(&origin) {
        Ok(WantedError::NoFlavor { word })
    } else {
        Ok(WantedError::NoOrigin { word })
    }
}

/// What a word with that name in it comes to by where MOVED leads the name.
fn answer_by_moved(
    alloc: Global,
    names: &Names,
    word: Text,
    name: Text,
    to: Follow,
) -> Result<Answer, WantedError>
    requires { name ≡ parts.name_in word }
    ensures ok { IfOk result (λ answer. answers.answer_by names.now word to ≡ Ok answer) }
    ensures refused { IfErr result (λ e. e ≢ WantedError.NoMemory → answers.answer_by names.now word to ≡ Err e) }
{
    match to {
        Follow::Here => Ok(Answer {
            word,
            name,
            moved: false,
        }),
        Follow::At(name) => Ok(Answer {
            word,
            name,
            moved: true,
        }),
        Follow::Absent => Err(refuse_absent(alloc, names, word)?),
        Follow::Gone { reason } => Err(WantedError::Gone { word, reason }),
        Follow::Circle { origins } => Err(WantedError::MovedLoop { origins }),
    }
}

/// What a word comes to.
fn answer_word(alloc: Global, index: &Index, word: Text) -> Result<Answer, WantedError>
    ensures ok { IfOk result (λ answer. answer_of index.now word ≡ Ok answer) }
    ensures refused { IfErr result (λ e. e ≢ WantedError.NoMemory → answer_of index.now word ≡ Err e) }
{
    if !is_node(word.bytes()) {
        return Err(WantedError::NoOrigin { word });
    }
    let name = name_in(alloc, &word)?;
    let to = follow(alloc, &index.moved, &name, &index.names)?;
    answer_by_moved(alloc, &index.names, word, name, to)
}

/// What words come to, one by one, or why the first refused word is refused. Each costs its chain's look-ups.
pub(crate) fn answer_words(
    alloc: Global,
    index: &Index,
    words: &[Text],
) -> Result<Answers, WantedError>
    ensures ok { IfOk result (λ found. answers_of index.now words.now ≡ Ok found) }
    ensures refused { IfErr result (λ e. e ≢ WantedError.NoMemory → answers_of index.now words.now ≡ Err e) }
{
    let mut found = Sequence::new(alloc);
    for word in words {
        found.push(answer_word(alloc, index, word.copy(alloc)?)?)?;
    }
    Ok(found)
}
