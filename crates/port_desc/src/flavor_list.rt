// The flavors that a port lists.
ghost use Rattle.std.specs.Prelude.{◌≡◌, ◌≢◌, IfOk, IfErr, bytes_eq, codes, ◌||◌, if◌then◌else◌};
ghost use Rattle.std.specs.FinMap as map;
ghost use Rattle.bulk_base.specs.Names as names;
ghost use Rattle.port_name.specs.Sets.{is_among};
ghost use Rattle.port_desc.specs.Flavors.{AreFlavors, is_bad_flavor, checked_flavors, flavors_of};

use crate::fault::DescError;
use crate::seen::Seen;
use crate::values::{value_named, words_of_value};
use bulk_base::{NoMemory, Text, Texts};
use port_name::{NameError, flavor};
use port_vars::Vars;
use std::alloc::{AllocError, Global};

/// A copy of a word that is a flavor.
fn flavor_in(alloc: Global, word: &Text) -> Result<Option<Text>, NoMemory>
    ensures { IfOk result (λ name. name ≡ (if names.is_flavor word.now then Some word.now else None)) }
{
    match flavor(alloc, word) {
        Ok(name) => Ok(Some(name)),
        Err(NameError::BadName { .. }) => Ok(None),
        Err(NameError::NoMemory) => Err(AllocError),
    }
}

/// Whether a word is `all`, or one of some words. O(log n) comparisons.
fn is_taken(before: &Seen, word: &Text) -> bool
    ensures { result ≡ (bytes_eq word.now (codes "all") || is_among before.now word.now) }
{
    word.is(b"all") || before.has(word)
}

/// A copy of a word that may stand behind some flavors.
fn flavor_behind(alloc: Global, before: &Seen, word: &Text) -> Result<Option<Text>, NoMemory>
    ensures { IfOk result (λ name. name ≡ (if is_bad_flavor before.now word.now then None else Some word.now)) }
{
    if is_taken(before, word) {
        return Ok(None);
    }
    flavor_in(alloc, word)
}

/// The words, where all are flavors that may stand together.
fn checked(alloc: Global, listed: Texts) -> Result<Texts, DescError>
    ensures ok { IfOk result (λ flavors. checked_flavors listed ≡ Ok flavors) }
    ensures sound { IfOk result AreFlavors }
    ensures refused { IfErr result (λ e. e ≢ DescError.NoMemory → checked_flavors listed ≡ Err e) }
{
    let mut before = Seen::new(alloc);
    for word in listed.as_slice() {
        let Some(name) = flavor_behind(alloc, &before, word)? else {
            return Err(DescError::BadFlavor {
                flavor: word.copy(alloc)?,
            });
        };
        before.add(name)?;
    }
    Ok(listed)
}

/// The flavors of a port, in the order in which FLAVORS lists them: none where it is not set, empty or blank. The first is
/// the default (Porter's Handbook, "FLAVORS").
///
/// BadFlavor exactly where a word of FLAVORS is no flavor, is `all`, or stands there already, with the first such word.
/// NoMemory for want of memory alone. O(log n) comparisons for each of the n words.
#[tactic(auto, unfolding(crate::specs::Flavors::flavors_of))]
pub fn flavors(alloc: Global, vars: &Vars) -> Result<Texts, DescError>
    ensures ok { IfOk result (λ flavors. flavors_of (map.get vars.now) ≡ Ok flavors) }
    ensures sound { IfOk result AreFlavors }
    ensures bad_flavor { IfErr result (λ e. e ≢ DescError.NoMemory → flavors_of (map.get vars.now) ≡ Err e) }
{
    let value = value_named(alloc, vars, b"FLAVORS")?;
    checked(alloc, words_of_value(alloc, value)?)
}
