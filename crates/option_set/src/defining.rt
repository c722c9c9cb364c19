// What a port defines its options by.
ghost use Rattle.std.specs.Prelude.{◌≡◌, ◌++◌, map, IfOk, OnOk};
ghost use Rattle.std.specs.List.{flat_map};
ghost use Rattle.bulk_base.specs.Text.{IsText};
ghost use Rattle.option_set.specs.Defined as defined;

use crate::read::{words_at, words_behind};
use bulk_base::{NoMemory, Sequence, Text, Texts};
use port_vars::Vars;
use std::alloc::Global;

/// A group of options.
#[derive(Drop)]
pub(crate) struct Group {
    pub(crate) name: Text,
    pub(crate) members: Texts,
}

/// A list of groups.
pub(crate) type Groups = Sequence<Group>;

/// The options that stand alone, and the groups of each kind as they are listed.
#[derive(Drop)]
pub(crate) struct Defining {
    /// OPTIONS_DEFINE.
    pub(crate) alone: Texts,
    /// OPTIONS_GROUP: any number of a group's members may be on.
    pub(crate) any: Groups,
    /// OPTIONS_SINGLE: just one is on.
    pub(crate) single: Groups,
    /// OPTIONS_RADIO: one at most is on.
    pub(crate) radio: Groups,
    /// OPTIONS_MULTI: one at least is on.
    pub(crate) multi: Groups,
}

/// The groups that a variable lists, each with its members.
fn groups_in(alloc: Global, vars: &Vars, variable: &[u8], prefix: &[u8]) -> Result<Groups, NoMemory>
    requires variable { IsText variable.now }
    requires prefix { IsText prefix.now }
    ensures { IfOk result (λ groups. groups ≡ defined.groups_in vars.now variable.now prefix.now) }
{
    let mut found = Sequence::new(alloc);
    let names = words_at(alloc, vars, variable)?;
    for name in names.as_slice() {
        found.push(Group {
            name: name.copy(alloc)?,
            members: words_behind(alloc, vars, prefix, name.bytes())?,
        })?;
    }
    Ok(found)
}

/// What a port's variables define its options by.
pub(crate) fn read_defining(alloc: Global, vars: &Vars) -> Result<Defining, NoMemory>
    ensures { IfOk result (λ defining. defining ≡ defined.defining vars.now) }
{
    Ok(Defining {
        alone: words_at(alloc, vars, b"OPTIONS_DEFINE")?,
        any: groups_in(alloc, vars, b"OPTIONS_GROUP", b"OPTIONS_GROUP_")?,
        single: groups_in(alloc, vars, b"OPTIONS_SINGLE", b"OPTIONS_SINGLE_")?,
        radio: groups_in(alloc, vars, b"OPTIONS_RADIO", b"OPTIONS_RADIO_")?,
        multi: groups_in(alloc, vars, b"OPTIONS_MULTI", b"OPTIONS_MULTI_")?,
    })
}
