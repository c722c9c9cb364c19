// The states of a port's options.
ghost use Rattle.std.specs.Prelude.{◌≡◌, ◌≢◌, Ok, Err, IfOk, IfErr};
ghost use Rattle.option_set.specs.Defined as defined;
ghost use Rattle.option_set.specs.Refused as refused;
ghost use Rattle.option_set.specs.Chosen as of;

use crate::defining::{Defining, read_defining};
use crate::fault::OptionError;
use crate::group::group_refused;
use crate::implied::options_on;
use crate::layers::Layers;
use crate::listed::Listed;
use crate::listing::option_words;
use crate::prevented::first_prevented;
use crate::refusal::words_refused;
use bulk_base::{NoMemory, Sequence, Switch, Switches, Text, in_order};
use port_vars::Vars;
use std::alloc::Global;

/// The options that a port defines.
fn options_of(alloc: Global, defining: &Defining) -> Result<Listed, NoMemory>
    ensures { IfOk result (λ options. options ≡ defined.options_of defining.now) }
{
    let words = option_words(alloc, defining)?;
    Listed::new(alloc, in_order(alloc, words.as_slice())?)
}

/// The first refusal of the options that are on, if there is one.
#[tactic(auto, unfolding(crate::specs::Refused::state_refused))]
fn state_refused(
    alloc: Global,
    vars: &Vars,
    defining: &Defining,
    on: &Listed,
) -> Result<Option<OptionError>, NoMemory>
    ensures { IfOk result (λ refusal. refusal ≡ refused.state_refused vars.now defining.now on.now) }
{
    if let Some(refusal) = group_refused(alloc, defining, on)? {
        return Ok(Some(refusal));
    }
    first_prevented(alloc, vars, on)
}

/// Options with their states.
fn switches(alloc: Global, options: &[Text], on: &Listed) -> Result<Switches, NoMemory>
    ensures { IfOk result (λ switches. switches ≡ of.switches options.now on.now) }
{
    let mut found = Sequence::new(alloc);
    for name in options {
        found.push(Switch {
            name: name.copy(alloc)?,
            on: on.holds(name),
        })?;
    }
    Ok(found)
}

/// Options with their states where these are on, or the first refusal of them.
fn decide(
    alloc: Global,
    vars: &Vars,
    defining: &Defining,
    options: &[Text],
    on: &Listed,
) -> Result<Switches, OptionError>
    ensures ok { IfOk result (λ switches.
        of.decided vars.now defining.now options.now on.now ≡ Ok switches) }
    ensures refused { IfErr result (λ e. e ≢ OptionError.NoMemory
        → of.decided vars.now defining.now options.now on.now ≡ Err e) }
{
    if let Some(refusal) = state_refused(alloc, vars, defining, on)? {
        return Err(refusal);
    }
    Ok(switches(alloc, options, on)?)
}

/// Options with their states, or the first refusal of those that are on.
fn settle(
    alloc: Global,
    vars: &Vars,
    layers: &Layers,
    defining: &Defining,
    options: &Listed,
) -> Result<Switches, OptionError>
    ensures ok { IfOk result (λ switches.
        of.settled vars.now layers.now defining.now options.now ≡ Ok switches) }
    ensures refused { IfErr result (λ e. e ≢ OptionError.NoMemory
        → of.settled vars.now layers.now defining.now options.now ≡ Err e) }
{
    let on = Listed::new(alloc, options_on(alloc, vars, options.names(), layers)?)?;
    decide(alloc, vars, defining, options.as_slice(), &on)
}

/// The options that are defined with their states, or the first refusal.
fn choose_defined(
    alloc: Global,
    vars: &Vars,
    layers: &Layers,
    defining: &Defining,
) -> Result<Switches, OptionError>
    ensures ok { IfOk result (λ switches.
        of.chosen_defined vars.now layers.now defining.now ≡ Ok switches) }
    ensures refused { IfErr result (λ e. e ≢ OptionError.NoMemory
        → of.chosen_defined vars.now layers.now defining.now ≡ Err e) }
{
    let options = options_of(alloc, defining)?;
    if let Some(refusal) = words_refused(alloc, vars, defining, &options)? {
        return Err(refusal);
    }
    settle(alloc, vars, layers, defining, &options)
}

/// All options that a port defines with their states, in byte order (Porter's Handbook, "Options"; docs/FORMATS.md,
/// "Options"). Defined are the words of OPTIONS_DEFINE and the members of the groups of OPTIONS_GROUP, OPTIONS_SINGLE,
/// OPTIONS_RADIO and OPTIONS_MULTI. On are those that OPTIONS_DEFAULT and the layers above it turn on, and all that these
/// imply by X_IMPLIES.
///
/// The first of these refusals that holds, exactly where it does: Limit for more than 256 options. Undefined at the first
/// word of the defining variables that is no option's name, and then at the first word of OPTIONS_DEFAULT, X_IMPLIES and
/// X_PREVENTS that is not defined. Group at the first group with too many or too few members on, single groups first, then
/// radio, then multi. Prevented at the least option that is on and prevents one that is. NoMemory for want of memory alone.
///
/// The words read times a look-up of O(log n) comparisons; each option's X_IMPLIES is followed once.
#[tactic(auto, unfolding(crate::specs::Chosen::chosen))]
pub fn choose(alloc: Global, vars: &Vars, layers: &Layers) -> Result<Switches, OptionError>
    ensures ok { IfOk result (λ switches. of.chosen vars.now layers.now ≡ Ok switches) }
    ensures refused { IfErr result (λ e. e ≢ OptionError.NoMemory → of.chosen vars.now layers.now ≡ Err e) }
{
    let defining = read_defining(alloc, vars)?;
    choose_defined(alloc, vars, layers, &defining)
}
