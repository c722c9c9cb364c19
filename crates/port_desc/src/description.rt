// What a port's variables say of one node.
ghost use Rattle.std.specs.Prelude.{◌≡◌, ◌≢◌, IfOk, IfErr};
ghost use Rattle.std.specs.Option.{option_copied};
ghost use Rattle.std.specs.FinMap as map;
ghost use Rattle.bulk_base.specs.Names.{IsPackageName};
ghost use Rattle.port_desc.specs.Dependencies.{AreEntries};
ghost use Rattle.port_desc.specs.Description.{desc_with, described};

use crate::commands::steps_for;
use crate::dependencies::entries_of;
use crate::entry::Entries;
use crate::fault::DescError;
use crate::naming::name_for;
use crate::reasons::reasons_for;
use crate::values::names_on;
use bulk_base::{NoMemory, Switches, Text};
use bulk_model::Steps;
use port_vars::Vars;
use std::alloc::Global;

/// What a port's variables say of one node: of the port, or of one of its flavors.
#[derive(Debug, Drop)]
pub struct Desc {
    /// The package's name (Porter's Handbook, "Naming").
    pub name: Text,
    /// The commands of the phases.
    pub steps: Steps,
    /// What it depends on, each pair of kind and target once, in the order in which they are first named.
    pub entries: Entries,
    /// Why it is not built by IGNORE: the value.
    pub ignore: Option<Text>,
    /// Why it is not built by FORBIDDEN: `is forbidden: ` and the value.
    pub forbidden: Option<Text>,
    /// Why it is not built by BROKEN: `is marked as broken: ` and the value.
    pub broken: Option<Text>,
}

/// The description with a name and entries that are known.
#[tactic(auto, unfolding(crate::specs::Description::desc_with))]
fn desc_with(
    alloc: Global,
    vars: &Vars,
    flavor: Option<&Text>,
    on: &[Text],
    name: Text,
    entries: Entries,
) -> Result<Desc, NoMemory>
    ensures { IfOk result (λ desc. desc ≡ desc_with (map.get vars.now) (option_copied flavor.entry) on.now name entries) }
{
    let steps = steps_for(alloc, vars, flavor, on)?;
    let reasons = reasons_for(alloc, vars, flavor)?;
    Ok(Desc {
        name,
        steps,
        entries,
        ignore: reasons.ignore,
        forbidden: reasons.forbidden,
        broken: reasons.broken,
    })
}

/// What a port's variables say of a flavor, or of a port without flavors, with the states of its options (Porter's
/// Handbook; docs/FORMATS.md, "A port's description"). Options are taken in the list's order, which is byte order where
/// they are chosen; only those that are on count. The flavor is any text: whether FLAVORS lists it is not asked.
///
/// The first of these refusals is answered, each exactly where it holds and none before it does: Missing, as `missing`
/// says; BadValue at the first part of the package's name that is outside its form, in the order prefix, PORTNAME, suffix,
/// version, revision, epoch, and for PORTNAME where the whole name has more than 200 bytes; BadDepend or Target at the
/// first word of the dependency variables that is no entry, or has a target of make, TEST_DEPENDS last; Limit where more
/// than 256 pairs of kind and target are left, with their count. NoMemory for want of memory alone.
///
/// One pass over the values; O(log n) comparisons for a look-up among n variables and for each of n entries.
pub fn describe(
    alloc: Global,
    vars: &Vars,
    flavor: Option<&Text>,
    options: &Switches,
) -> Result<Desc, DescError>
    ensures ok { IfOk result (λ desc. described (map.get vars.now) (option_copied flavor.entry) options.now ≡ Ok desc) }
    ensures name { IfOk result (λ desc. IsPackageName desc.name) }
    ensures entries { IfOk result (λ desc. AreEntries desc.entries) }
    ensures refused { IfErr result (λ e. e ≢ DescError.NoMemory → described (map.get vars.now) (option_copied flavor.entry) options.now ≡ Err e) }
{
    let name = name_for(alloc, vars, flavor)?;
    let on = names_on(alloc, options.as_slice())?;
    let entries = entries_of(alloc, vars, flavor, on.as_slice())?;
    Ok(desc_with(alloc, vars, flavor, on.as_slice(), name, entries)?)
}
