// Words that are no options.
ghost use Rattle.std.specs.Prelude.{◌≡◌, ◌++◌, IfOk, OnOk};
ghost use Rattle.std.specs.Option.{option_copied};
ghost use Rattle.port_name.specs.Sets.{is_among};
ghost use Rattle.option_set.specs.Defined as defined;
ghost use Rattle.option_set.specs.Implied.{implied_by};
ghost use Rattle.option_set.specs.Refused as refused;

use crate::defining::Defining;
use crate::fault::OptionError;
use crate::listed::Listed;
use crate::listing::defining_words;
use crate::read::{words_at, words_behind};
use bulk_base::{NoMemory, Text, Texts, add_copies};
use port_name::is_option_name;
use port_vars::Vars;
use std::alloc::Global;

/// How many options a port may define.
const MOST: usize = 256;

fn too_many(options: &[Text]) -> Option<OptionError>
    ensures { result ≡ refused.too_many options.now }
{
    if options.len() <= MOST {
        return None;
    }
    Some(OptionError::Limit {
        count: options.len() as u64,
    })
}

fn no_name(words: &[Text]) -> Option<&Text>
    ensures { option_copied result ≡ refused.no_name words.now }
{
    words.iter().find(|word| !is_option_name(word.bytes()))
}

fn not_defined<'a>(options: &Listed, words: &'a [Text]) -> Option<&'a Text>
    ensures { option_copied result ≡ refused.not_defined (is_among options.now) words.now }
{
    words.iter().find(|word| !options.holds(word))
}

/// The refusal of a word, if there is one.
fn undefined(alloc: Global, word: Option<&Text>) -> Result<Option<OptionError>, NoMemory>
    ensures { IfOk result (λ refusal. refusal ≡ refused.undefined (option_copied word.entry)) }
{
    match word {
        Some(word) => Ok(Some(OptionError::Undefined {
            name: word.copy(alloc)?,
        })),
        None => Ok(None),
    }
}

/// Puts the words of X_IMPLIES and X_PREVENTS of an option X at the end.
fn add_words_of(
    alloc: Global,
    vars: &Vars,
    option: &Text,
    found: &mut Texts,
) -> Result<(), NoMemory>
    ensures { OnOk result (found.new ≡ found.old ++ (implied_by vars.now option.now ++ refused.prevented_by vars.now option.now)) }
{
    let implied = words_behind(alloc, vars, option.bytes(), b"_IMPLIES")?;
    add_copies(alloc, implied.as_slice(), found)?;
    let prevented = words_behind(alloc, vars, option.bytes(), b"_PREVENTS")?;
    add_copies(alloc, prevented.as_slice(), found)
}

/// The words that name options.
fn naming_words(alloc: Global, vars: &Vars, options: &[Text]) -> Result<Texts, NoMemory>
    ensures { IfOk result (λ words. words ≡ refused.naming_words vars.now options.now) }
{
    let mut found = words_at(alloc, vars, b"OPTIONS_DEFAULT")?;
    for option in options {
        add_words_of(alloc, vars, option, &mut found)?;
    }
    Ok(found)
}

/// The refusal of the first word that is no option's name.
fn nameless(alloc: Global, defining: &Defining) -> Result<Option<OptionError>, NoMemory>
    ensures { IfOk result (λ refusal. refusal ≡ refused.undefined (refused.no_name (defined.defining_words defining.now))) }
{
    let words = defining_words(alloc, defining)?;
    undefined(alloc, no_name(words.as_slice()))
}

/// The refusal of the first word that names an option which is not defined.
fn unknown(alloc: Global, vars: &Vars, options: &Listed) -> Result<Option<OptionError>, NoMemory>
    ensures { IfOk result (λ refusal. refusal ≡ refused.undefined (refused.not_defined (is_among options.now) (refused.naming_words vars.now options.now))) }
{
    let words = naming_words(alloc, vars, options.as_slice())?;
    undefined(alloc, not_defined(options, words.as_slice()))
}

/// The first refusal of words, if there is one. Each word is looked up once.
#[tactic(auto, unfolding(crate::specs::Refused::words_refused))]
pub(crate) fn words_refused(
    alloc: Global,
    vars: &Vars,
    defining: &Defining,
    options: &Listed,
) -> Result<Option<OptionError>, NoMemory>
    ensures { IfOk result (λ refusal. refusal ≡ refused.words_refused vars.now defining.now options.now) }
{
    if let Some(refusal) = too_many(options.as_slice()) {
        return Ok(Some(refusal));
    }
    if let Some(refusal) = nameless(alloc, defining)? {
        return Ok(Some(refusal));
    }
    unknown(alloc, vars, options)
}
