// The words that define options, one list after another.
ghost use Rattle.std.specs.Prelude.{◌≡◌, ◌++◌, map, IfOk, OnOk};
ghost use Rattle.std.specs.List.{flat_map};
ghost use Rattle.option_set.specs.Defined as defined;

use crate::defining::{Defining, Group};
use bulk_base::{NoMemory, Sequence, Texts, add_copies};
use std::alloc::Global;

/// Puts the names of groups at the end.
fn add_names(alloc: Global, groups: &[Group], found: &mut Texts) -> Result<(), NoMemory>
    ensures { OnOk result (found.new ≡ found.old ++ map (λ group. group.name) groups.now) }
{
    for group in groups {
        found.push(group.name.copy(alloc)?)?;
    }
    Ok(())
}

/// Puts the members of groups at the end.
fn add_members(alloc: Global, groups: &[Group], found: &mut Texts) -> Result<(), NoMemory>
    ensures { OnOk result (found.new ≡ found.old ++ flat_map (λ group. group.members) groups.now) }
{
    for group in groups {
        add_copies(alloc, group.members.as_slice(), found)?;
    }
    Ok(())
}

/// Puts the names of groups at the end, then their members.
fn add_groups(alloc: Global, groups: &[Group], found: &mut Texts) -> Result<(), NoMemory>
    ensures { OnOk result (found.new ≡ found.old ++ defined.words_of_groups groups.now) }
{
    add_names(alloc, groups, found)?;
    add_members(alloc, groups, found)
}

/// The words of the variables that define options, in their order.
pub(crate) fn defining_words(alloc: Global, defining: &Defining) -> Result<Texts, NoMemory>
    ensures { IfOk result (λ words. words ≡ defined.defining_words defining.now) }
{
    let mut found = Sequence::new(alloc);
    add_copies(alloc, defining.alone.as_slice(), &mut found)?;
    add_groups(alloc, defining.any.as_slice(), &mut found)?;
    add_groups(alloc, defining.single.as_slice(), &mut found)?;
    add_groups(alloc, defining.radio.as_slice(), &mut found)?;
    add_groups(alloc, defining.multi.as_slice(), &mut found)?;
    Ok(found)
}

/// The words among these that are options.
pub(crate) fn option_words(alloc: Global, defining: &Defining) -> Result<Texts, NoMemory>
    ensures { IfOk result (λ words. words ≡ defined.option_words defining.now) }
{
    let mut found = Sequence::new(alloc);
    add_copies(alloc, defining.alone.as_slice(), &mut found)?;
    add_members(alloc, defining.any.as_slice(), &mut found)?;
    add_members(alloc, defining.single.as_slice(), &mut found)?;
    add_members(alloc, defining.radio.as_slice(), &mut found)?;
    add_members(alloc, defining.multi.as_slice(), &mut found)?;
    Ok(found)
}
