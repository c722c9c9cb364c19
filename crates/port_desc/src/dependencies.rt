// What a port depends on.
ghost use Rattle.std.specs.Prelude.{◌≡◌, ◌≢◌, ◌++◌, ◌∷◌, [], ℕ, List, Option, if◌then◌else◌, IfOk, IfErr, OnOk, IsTrue, map as map_list};
ghost use Rattle.std.specs.Option.{option_copied};
ghost use Rattle.std.specs.FinMap as map;
ghost use Rattle.bulk_base.specs.Text.{is_plain_text};
ghost use Rattle.bulk_model.specs.declared.depend.DepKind.{DepKind};
ghost use Rattle.port_vars.specs.Assignment.{mapped};
ghost use Rattle.port_name.specs.Sets.{is_among};
ghost use Rattle.port_desc.specs.Dependencies as dependencies;

use crate::entry::{Entries, Entry};
use crate::fault::DescError;
use crate::seen::Seen;
use crate::values::{push_words, push_words_by_flavor, push_words_by_options};
use bulk_base::{NoMemory, Sequence, Text, Texts};
use bulk_model::DepKind;
use port_name::is_node;
use port_vars::Vars;
use std::alloc::Global;

/// The most dependencies that a port may have.
const MOST: usize = 256;

/// The order in which the dependency variables are read.
const VARIABLES: [Option<DepKind>; 8] = [
    Some(DepKind::Pkg),
    Some(DepKind::Fetch),
    Some(DepKind::Extract),
    Some(DepKind::Patch),
    Some(DepKind::Build),
    Some(DepKind::Lib),
    Some(DepKind::Run),
    None,
];

/// A dependency variable: the kind of its entries, or None for TEST_DEPENDS.
fn depends_variable(kind: Option<DepKind>) -> &'static [u8]
    ensures name { result.now ≡ dependencies.depends_variable kind }
    ensures plain { IsTrue (is_plain_text result.now) }
{
    match kind {
        Some(DepKind::Pkg) => b"PKG_DEPENDS",
        Some(DepKind::Fetch) => b"FETCH_DEPENDS",
        Some(DepKind::Extract) => b"EXTRACT_DEPENDS",
        Some(DepKind::Patch) => b"PATCH_DEPENDS",
        Some(DepKind::Build) => b"BUILD_DEPENDS",
        Some(DepKind::Lib) => b"LIB_DEPENDS",
        Some(DepKind::Run) => b"RUN_DEPENDS",
        None => b"TEST_DEPENDS",
    }
}

/// The words of a dependency variable.
fn words_for(
    alloc: Global,
    vars: &Vars,
    flavor: Option<&Text>,
    on: &[Text],
    name: &[u8],
) -> Result<Vec<Text>, NoMemory>
    requires { IsTrue (is_plain_text name.now) }
    ensures { IfOk result (λ words. words.items ≡ dependencies.words_for (map.get vars.now) (option_copied flavor.entry) on.now name.now) }
{
    let mut found = Vec::new(alloc);
    push_words(alloc, vars, &Text::literal(alloc, name)?, &mut found)?;
    push_words_by_options(alloc, vars, on, name, &mut found)?;
    push_words_by_flavor(alloc, vars, flavor, name, &mut found)?;
    Ok(found)
}

/// The refusal of a word that is no entry.
fn bad_depend(alloc: Global, word: &Text) -> DescError
    ensures { result ≢ DescError.NoMemory → result ≡ DescError.BadDepend word.now }
{
    match word.copy(alloc) {
        Ok(entry) => DescError::BadDepend { entry },
        Err(_) => DescError::NoMemory,
    }
}

/// The refusal of an entry with a target of make.
fn with_target(alloc: Global, word: &Text) -> DescError
    ensures { result ≢ DescError.NoMemory → result ≡ DescError.Target word.now }
{
    match word.copy(alloc) {
        Ok(entry) => DescError::Target { entry },
        Err(_) => DescError::NoMemory,
    }
}

/// The target that a word of two parts names.
fn target_behind(alloc: Global, word: &Text, what: &[u8], node: &[u8]) -> Result<Text, DescError>
    ensures ok { IfOk result (λ target. dependencies.target_behind word.now what.now node.now ≡ Ok target) }
    ensures refused { IfErr result (λ e. e ≢ DescError.NoMemory → dependencies.target_behind word.now what.now node.now ≡ Err e) }
{
    if what.is_empty() || !is_node(node) {
        return Err(bad_depend(alloc, word));
    }
    Ok(Text::literal(alloc, node)?)
}

/// The refusal of a word of three parts.
fn refusal_of_three(alloc: Global, word: &Text, node: &[u8]) -> DescError
    ensures { result ≢ DescError.NoMemory → result ≡ dependencies.refusal_of_three word.now node.now }
{
    if is_node(node) {
        with_target(alloc, word)
    } else {
        bad_depend(alloc, word)
    }
}

/// The target that the parts of a word between `:` name.
fn target_in(alloc: Global, word: &Text, parts: &[&[u8]]) -> Result<Text, DescError>
    ensures ok { IfOk result (λ target. dependencies.target_in word.now (map_list (λ part. part.now) parts.now) ≡ Ok target) }
    ensures refused { IfErr result (λ e. e ≢ DescError.NoMemory → dependencies.target_in word.now (map_list (λ part. part.now) parts.now) ≡ Err e) }
{
    match parts.len() {
        2 => target_behind(alloc, word, parts[0], parts[1]),
        3 => Err(refusal_of_three(alloc, word, parts[1])),
        _ => Err(bad_depend(alloc, word)),
    }
}

/// The target that a word names.
#[tactic(auto, unfolding(crate::specs::Dependencies::target_of))]
fn target_of(alloc: Global, word: &Text) -> Result<Text, DescError>
    ensures ok { IfOk result (λ target. dependencies.target_of word.now ≡ Ok target) }
    ensures refused { IfErr result (λ e. e ≢ DescError.NoMemory → dependencies.target_of word.now ≡ Err e) }
{
    let parts: Vec<&[u8]> = word.bytes().split(|b| *b == b':').collect(alloc)?;
    target_in(alloc, word, parts.as_slice())
}

/// The targets of words.
fn targets_of(alloc: Global, words: &[Text]) -> Result<Texts, DescError>
    ensures ok { IfOk result (λ targets. dependencies.targets_of words.now ≡ Ok targets) }
    ensures refused { IfErr result (λ e. e ≢ DescError.NoMemory → dependencies.targets_of words.now ≡ Err e) }
{
    let mut targets = Sequence::new(alloc);
    for word in words {
        targets.push(target_of(alloc, word)?)?;
    }
    Ok(targets)
}

/// Puts a text that was not seen before at the end of a list.
fn keep(
    alloc: Global,
    text: &Text,
    before: &mut Seen,
    found: &mut Vec<Text>,
) -> Result<(), NoMemory>
    ensures seen { OnOk result ((other : List ℕ) → is_among before.new other ≡ is_among (before.old ++ text.now ∷ []) other) }
    ensures kept { OnOk result (found.new.items ≡ (if is_among before.old text.now then found.old.items else found.old.items ++ text.now ∷ [])) }
{
    if before.has(text) {
        return Ok(());
    }
    before.add(text.copy(alloc)?)?;
    found.push(text.copy(alloc)?)?;
    Ok(())
}

/// Each text once, where it first stands. O(log n) comparisons for each of the n texts.
fn each_once(alloc: Global, texts: &[Text]) -> Result<Vec<Text>, NoMemory>
    ensures { IfOk result (λ found. found.items ≡ dependencies.each_once texts.now) }
{
    let mut before = Seen::new(alloc);
    let mut found = Vec::new(alloc);
    for text in texts {
        keep(alloc, text, &mut before, &mut found)?;
    }
    Ok(found)
}

/// Puts the entries of a kind with these targets at the end of a list.
fn push_entries(
    alloc: Global,
    kind: Option<DepKind>,
    targets: &[Text],
    found: &mut Vec<Entry>,
) -> Result<(), NoMemory>
    ensures { OnOk result (found.new.items ≡ found.old.items ++ dependencies.entries_with kind targets.now) }
{
    let Some(kind) = kind else {
        return Ok(());
    };
    for target in each_once(alloc, targets)? {
        found.push(Entry { kind, target })?;
    }
    Ok(())
}

/// Puts the entries of a dependency variable at the end of a list.
fn take_variable(
    alloc: Global,
    vars: &Vars,
    flavor: Option<&Text>,
    on: &[Text],
    kind: Option<DepKind>,
    found: &mut Vec<Entry>,
) -> Result<(), DescError>
    ensures ok { OnOk result ((more : List (Option DepKind)) →
        mapped (λ rest. found.old.items ++ rest) (dependencies.entries_among (map.get vars.now) (option_copied flavor.entry) on.now (kind ∷ more))
        ≡ mapped (λ rest. found.new.items ++ rest) (dependencies.entries_among (map.get vars.now) (option_copied flavor.entry) on.now more)) }
    ensures refused { IfErr result (λ e. e ≢ DescError.NoMemory → (more : List (Option DepKind)) →
        dependencies.entries_among (map.get vars.now) (option_copied flavor.entry) on.now (kind ∷ more) ≡ Err e) }
{
    let words = words_for(alloc, vars, flavor, on, depends_variable(kind))?;
    let targets = targets_of(alloc, words.as_slice())?;
    push_entries(alloc, kind, targets.as_slice(), found)?;
    Ok(())
}

/// What a port depends on: the dependencies of its variables in their order, for each variable its own entries first, then
/// those by the options that are on, then those by the flavor, each pair of kind and target once, where it first stands.
pub(crate) fn entries_of(
    alloc: Global,
    vars: &Vars,
    flavor: Option<&Text>,
    on: &[Text],
) -> Result<Entries, DescError>
    ensures ok { IfOk result (λ entries. dependencies.entries_of (map.get vars.now) (option_copied flavor.entry) on.now ≡ Ok entries) }
    ensures sound { IfOk result dependencies.AreEntries }
    ensures refused { IfErr result (λ e. e ≢ DescError.NoMemory → dependencies.entries_of (map.get vars.now) (option_copied flavor.entry) on.now ≡ Err e) }
{
    let mut found = Vec::new(alloc);
    for kind in VARIABLES.as_slice() {
        take_variable(alloc, vars, flavor, on, *kind, &mut found)?;
    }
    if found.len() > MOST {
        return Err(DescError::Limit {
            count: found.len() as u64,
        });
    }
    Ok(Sequence::from_vec(found))
}
