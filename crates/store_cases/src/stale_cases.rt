// What of a store is stale over a tree.
use crate::indexes::index_of;
use crate::stores::loaded_of;
use bulk_base::Sequence;
use bulk_model::{Digest, MaybeDigests, Numbers, Reason, Recipes, Stale, Stales};
use case_text::{CaseError, number_of, push_number, push_str, push_text, words_of};
use pkg_store::Loaded;
use stale_check::{ask_for_all, held, stale};
use std::alloc::{AllocError, Global};
use tree_index::Index;

/// The word that is printed for a reason.
fn reason_word(reason: Reason) -> &'static str {
    match reason {
        Reason::Damaged => "damaged",
        Reason::OldRecord => "old-record",
        Reason::Asked => "asked",
        Reason::NoPort => "no-port",
        Reason::Ignored => "ignored",
        Reason::NewName => "new-name",
        Reason::NewOptions => "new-options",
        Reason::NewDepends => "new-depends",
        Reason::NewRecipe => "new-recipe",
        Reason::MissingDepend => "missing-depend",
    }
}

/// Puts a file and why it goes at the end.
pub(crate) fn push_stale(gone: &Stale, out: &mut Vec<u8>) -> Result<(), AllocError> {
    push_text(out, &gone.file)?;
    push_str(out, " ")?;
    push_str(out, reason_word(gone.reason))
}

fn push_stales(alloc: Global, gone: &Stales, out: &mut Vec<u8>) -> Result<(), AllocError> {
    push_number(alloc, out, gone.len() as u64)?;
    let mut is_first = true;
    for one in gone {
        push_str(out, if is_first { ": " } else { ", " })?;
        push_stale(one, out)?;
        is_first = false;
    }
    Ok(())
}

fn node_of(word: &str) -> Result<u32, CaseError> {
    match u32::try_from(number_of(word)?) {
        Ok(number) => Ok(number),
        Err(_) => Err(CaseError::Unfit),
    }
}

/// The numbers of a field, with blanks between.
fn numbers_of(alloc: Global, field: &str) -> Result<Numbers, CaseError> {
    let mut numbers = Sequence::new(alloc);
    for word in field.split(' ') {
        if !word.is_empty() {
            numbers.push(node_of(word)?)?;
        }
    }
    Ok(numbers)
}

/// The digest of 64 equal digits; None for `.`.
fn digest_of(digit: u8) -> Result<Option<Digest>, CaseError> {
    if digit == b'.' {
        return Ok(None);
    }
    let digits = [digit; 64];
    match Digest::from_hex(digits.as_slice()) {
        Some(digest) => Ok(Some(digest)),
        None => Err(CaseError::Unfit),
    }
}

/// The recipes of the nodes, a digit each.
fn recipes_of(alloc: Global, field: &str) -> Result<Recipes, CaseError> {
    let mut digests: MaybeDigests = Sequence::new(alloc);
    for digit in field.as_bytes() {
        digests.push(digest_of(*digit)?)?;
    }
    Ok(Recipes { digests })
}

/// What goes of a store. Unfit where there is not just one recipe a node.
pub(crate) fn stale_of(
    alloc: Global,
    index: &Index,
    loaded: &Loaded,
    asked: &[u32],
    recipes: &Recipes,
) -> Result<Stales, CaseError> {
    if recipes.digests.len() != index.nodes.len() {
        return Err(CaseError::Unfit);
    }
    Ok(stale(alloc, index, loaded, asked, recipes)?)
}

/// What goes of a store over a tree, where these nodes are asked for and have these recipes.
pub(crate) fn answer_stale(
    alloc: Global,
    [tree, files]: [&str; 2],
    asked: &str,
    recipes: &str,
    out: &mut Vec<u8>,
) -> Result<(), CaseError> {
    let asked = numbers_of(alloc, asked)?;
    let recipes = recipes_of(alloc, recipes)?;
    let index = index_of(alloc, tree)?;
    let loaded = loaded_of(alloc, files)?;
    let gone = stale_of(alloc, &index, &loaded, asked.as_slice(), &recipes)?;
    Ok(push_stales(alloc, &gone, out)?)
}

/// The nodes of a tree that a store's packages have.
pub(crate) fn answer_held(
    alloc: Global,
    tree: &str,
    files: &str,
    out: &mut Vec<u8>,
) -> Result<(), CaseError> {
    let index = index_of(alloc, tree)?;
    let loaded = loaded_of(alloc, files)?;
    let numbers = held(alloc, &index, &loaded)?;
    push_str(out, "held")?;
    for number in &numbers {
        push_str(out, " ")?;
        push_number(alloc, out, u64::from(*number))?;
    }
    Ok(())
}

/// The files that go where all are asked for.
pub(crate) fn answer_all(alloc: Global, names: &str, out: &mut Vec<u8>) -> Result<(), CaseError> {
    let names = words_of(alloc, names)?;
    let gone = ask_for_all(alloc, names.as_slice())?;
    Ok(push_stales(alloc, &gone, out)?)
}
