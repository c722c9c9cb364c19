// What options that are on turn on.
ghost use Rattle.std.specs.Prelude.{◌≡◌, ◌||◌, ◌&&◌, not, ℕ, List, filter, IfOk, OnOk};
ghost use Rattle.std.specs.List.{flat_map};
ghost use Rattle.std.specs.FinMap as map;
ghost use Rattle.port_name.specs.Sets.{is_among};
ghost use Rattle.option_set.specs.Implied as implied;

use crate::asking::asked;
use crate::layers::Layers;
use crate::read::{words_at, words_behind};
use bulk_base::{NoMemory, Sequence, Switch, Text, TextMap, Texts, add_copies};
use port_vars::Vars;
use std::alloc::Global;

/// Whether a name is in a set. O(log n) comparisons.
fn holds(set: &TextMap<()>, name: &Text) -> bool
    ensures { result ≡ map.contains_key set.now name.now }
{
    set.get(name).is_some()
}

/// The words of X_IMPLIES of each option X of a list.
fn implied_by_all(alloc: Global, vars: &Vars, options: &[Text]) -> Result<Texts, NoMemory>
    ensures { IfOk result (λ words. words ≡ flat_map (implied.implied_by vars.now) options.now) }
{
    let mut found = Sequence::new(alloc);
    for option in options {
        let words = words_behind(alloc, vars, option.bytes(), b"_IMPLIES")?;
        add_copies(alloc, words.as_slice(), &mut found)?;
    }
    Ok(found)
}

/// Puts names into the set of those that are on, and answers those that were not in it.
fn turn_on(alloc: Global, names: &[Text], on: &mut TextMap<()>) -> Result<Texts, NoMemory>
    ensures on { OnOk result ((name : List ℕ) → map.contains_key on.new name ≡ (map.contains_key on.old name || is_among names.now name)) }
    ensures new { IfOk result (λ new. (name : List ℕ) → is_among new name ≡ (is_among names.now name && not (map.contains_key on.old name))) }
{
    let mut new = Sequence::new(alloc);
    for name in names {
        if !holds(on, name) {
            on.insert(name.copy(alloc)?, ())?;
            new.push(name.copy(alloc)?)?;
        }
    }
    Ok(new)
}

/// All that is on where some names are at first. In each round only what the last one turned on is looked at, so each
/// name's X_IMPLIES is read once.
fn on_after(
    alloc: Global,
    vars: &Vars,
    begun: &[Text],
    rounds: usize,
) -> Result<TextMap<()>, NoMemory>
    ensures { IfOk result (λ on. (name : List ℕ) → map.contains_key on name ≡ is_among (implied.on_after (implied.implied_by vars.now) begun.now rounds) name) }
{
    let mut on = TextMap::new(alloc);
    let mut new = turn_on(alloc, begun, &mut on)?;
    for _round in 0..rounds {
        let words = implied_by_all(alloc, vars, new.as_slice())?;
        new = turn_on(alloc, words.as_slice(), &mut on)?;
    }
    Ok(on)
}

/// The names of the switches that are on.
fn names_on(alloc: Global, switches: &[Switch]) -> Result<Texts, NoMemory>
    ensures { IfOk result (λ names. names ≡ implied.names_on switches.now) }
{
    let mut found = Sequence::new(alloc);
    for switch in switches {
        if switch.on {
            found.push(switch.name.copy(alloc)?)?;
        }
    }
    Ok(found)
}

/// The names of a list that are in a set.
fn held(alloc: Global, names: &[Text], set: &TextMap<()>) -> Result<Texts, NoMemory>
    ensures { IfOk result (λ held. held ≡ filter (map.contains_key set.now) names.now) }
{
    let mut found = Sequence::new(alloc);
    for name in names {
        if holds(set, name) {
            found.push(name.copy(alloc)?)?;
        }
    }
    Ok(found)
}

/// The options that are on after the layers and IMPLIES, in their order.
///
/// The layers' words, the options and the words of X_IMPLIES of those that are on, times a look-up each.
#[tactic(auto, unfolding(crate::specs::Implied::on_in))]
pub(crate) fn options_on(
    alloc: Global,
    vars: &Vars,
    options: &Texts,
    layers: &Layers,
) -> Result<Texts, NoMemory>
    ensures { IfOk result (λ on. on ≡ implied.on_in vars.now options.now layers.now) }
{
    let default = words_at(alloc, vars, b"OPTIONS_DEFAULT")?;
    let asked = asked(alloc, options, &default, layers)?;
    let begun = names_on(alloc, asked.as_slice())?;
    let on = on_after(alloc, vars, begun.as_slice(), options.len())?;
    held(alloc, options.as_slice(), &on)
}
