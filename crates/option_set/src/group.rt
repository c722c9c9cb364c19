// Groups with too many or too few options on.
ghost use Rattle.std.specs.Prelude.{◌≡◌, filter, IfOk};
ghost use Rattle.port_name.specs.Sets.{is_among};
ghost use Rattle.bulk_base.specs.Order.{in_order};
ghost use Rattle.option_set.specs.Refused as refused;

use crate::defining::{Defining, Group};
use crate::fault::OptionError;
use crate::listed::Listed;
use bulk_base::{NoMemory, Sequence, Text, Texts, in_order};
use std::alloc::Global;

/// The kinds of groups that ask for a number of options.
#[derive(Clone, Copy)]
pub(crate) enum Kind {
    /// Just one is on.
    Single,
    /// One at most is on.
    Radio,
    /// One at least is on.
    Multi,
}

impl Kind {
    /// Whether so many members may be on.
    fn allows(self, count: usize) -> bool
        ensures { result ≡ refused.allows self count }
    {
        match self {
            Kind::Single => count == 1,
            Kind::Radio => count <= 1,
            Kind::Multi => count > 0,
        }
    }
}

/// The names of a list that are in a set.
fn among(alloc: Global, names: &[Text], set: &Listed) -> Result<Texts, NoMemory>
    ensures { IfOk result (λ found. found ≡ filter (is_among set.now) names.now) }
{
    let mut found = Sequence::new(alloc);
    for name in names {
        if set.holds(name) {
            found.push(name.copy(alloc)?)?;
        }
    }
    Ok(found)
}

/// The names of a list that are in a set, in byte order, each once.
pub(crate) fn among_in_order(alloc: Global, names: &[Text], set: &Listed) -> Result<Texts, NoMemory>
    ensures { IfOk result (λ found. found ≡ in_order (filter (is_among set.now) names.now)) }
{
    in_order(alloc, among(alloc, names, set)?.as_slice())
}

/// The refusal of a group, if there is one.
fn wrong(
    alloc: Global,
    kind: Kind,
    group: &Group,
    on: &Listed,
) -> Result<Option<OptionError>, NoMemory>
    ensures { IfOk result (λ refusal. refusal ≡ refused.wrong kind (is_among on.now) group.now) }
{
    let members = among_in_order(alloc, group.members.as_slice(), on)?;
    if kind.allows(members.len()) {
        return Ok(None);
    }
    Ok(Some(OptionError::Group {
        group: group.name.copy(alloc)?,
        on: members,
    }))
}

/// The refusal of the first group of a kind.
fn first_wrong(
    alloc: Global,
    kind: Kind,
    groups: &[Group],
    on: &Listed,
) -> Result<Option<OptionError>, NoMemory>
    ensures { IfOk result (λ refusal. refusal ≡ refused.first_some (refused.wrong kind (is_among on.now)) groups.now) }
{
    for group in groups {
        if let Some(refusal) = wrong(alloc, kind, group, on)? {
            return Ok(Some(refusal));
        }
    }
    Ok(None)
}

/// The refusal of the first group with too many or too few options on. Each member is looked up once.
pub(crate) fn group_refused(
    alloc: Global,
    defining: &Defining,
    on: &Listed,
) -> Result<Option<OptionError>, NoMemory>
    ensures { IfOk result (λ refusal. refusal ≡ refused.group_refused defining.now (is_among on.now)) }
{
    if let Some(refusal) = first_wrong(alloc, Kind::Single, defining.single.as_slice(), on)? {
        return Ok(Some(refusal));
    }
    if let Some(refusal) = first_wrong(alloc, Kind::Radio, defining.radio.as_slice(), on)? {
        return Ok(Some(refusal));
    }
    first_wrong(alloc, Kind::Multi, defining.multi.as_slice(), on)
}
