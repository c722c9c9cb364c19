// What a command wants of a ports tree.
ghost use Rattle.std.specs.Prelude.{◌≢◌, ◌<◌, ◌^◌, length, ◌≡◌, IfOk, IfErr, IfSome};
ghost use Rattle.std.specs.List.{AllByRecursion};
ghost use Rattle.std.specs.List.Sorted.{IsStrictlySortedBy};
ghost use Rattle.std.specs.Option.{option_copied};
ghost use Rattle.std.specs.Ordering.{nat_cmp};
ghost use Rattle.origin_flavor.specs.Command.{wanted_by, wanted_of};

use crate::answer::{Answer, answer_words};
use crate::fault::WantedError;
use crate::list_file::wanted_words;
use crate::nodes::wanted_numbers;
use crate::notices::notices;
use crate::selection::Wanted;
use bulk_base::{NoMemory, Text};
use std::alloc::Global;
use tree_index::Index;

/// What words that are there come to.
fn select_by(
    alloc: Global,
    index: &Index,
    all: bool,
    every_flavor: bool,
    answers: &[Answer],
) -> Result<Wanted, NoMemory>
    ensures { IfOk result (λ found. found ≡ wanted_by index.now all every_flavor answers.now) }
{
    let nodes = wanted_numbers(alloc, index.nodes.as_slice(), answers, all, every_flavor)?;
    Ok(Wanted {
        nodes,
        notices: notices(alloc, answers)?,
    })
}

/// What a command wants: the nodes that the words of its list file and then its own words mean, or all nodes
/// (poudriere-bulk(8), "-a" and "-f"; Porter's Handbook, "FLAVORS"; docs/FORMATS.md, "Wanted ports").
///
/// A word is an origin, an origin and a flavor with `@` between, or an origin and `@all`, and MOVED is followed from it. An
/// origin means the default node of its port; under `@all` or `every_flavor` it means all of them.
///
/// BadList exactly where a line of the list file is no text, with the number of the first such. Else the first word that is
/// refused: NoOrigin where it is out of form or leads nowhere, NoFlavor in place of that where its own origin is there, Gone
/// where its port was removed, MovedLoop where MOVED leads it in a circle. NoMemory for want of memory alone.
///
/// Each byte of the list file is looked at a fixed number of times. Each word costs its chain's look-ups, of O(log n)
/// comparisons each, and each node at most three look-ups among the names that the words mean.
pub fn wanted(
    alloc: Global,
    index: &Index,
    list: Option<&[u8]>,
    words: &[Text],
    all: bool,
    every_flavor: bool,
) -> Result<Wanted, WantedError>
    requires { IfSome list (λ bytes. length bytes.now < 2 ^ 32) }
    ensures ok { IfOk result (λ found. wanted_of index.now (option_copied list.entry) words.now all every_flavor ≡ Ok found) }
    ensures refused { IfErr result (λ e. e ≢ WantedError.NoMemory → wanted_of index.now (option_copied list.entry) words.now all every_flavor ≡ Err e) }
    ensures within { IfOk result (λ found. AllByRecursion (λ n. n < length index.now.nodes) found.nodes) }
    ensures order { IfOk result (λ found. IsStrictlySortedBy nat_cmp found.nodes) }
{
    let asked = wanted_words(alloc, list, words)?;
    let answers = answer_words(alloc, index, asked.as_slice())?;
    Ok(select_by(alloc, index, all, every_flavor, answers.as_slice())?)
}
