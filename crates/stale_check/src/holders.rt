// Who recorded each package, and which packages go by themselves.
ghost use Rattle.std.specs.Prelude.{◌≡◌, ◌<◌, ◌||◌, ◌^◌, [], length, not, is_some, replicate, IfOk, OnOk};
ghost use Rattle.std.specs.List.{list_all, list_any};
ghost use Rattle.bulk_model.specs.Among.{is_recorded_as};
ghost use Rattle.stale_check.specs.Placing.{ArePlaces, AreNamed};
ghost use Rattle.stale_check.specs.Recording.{AreMarks, Noted, AreRead};

use crate::holder::holder;
use crate::marks::no_marks;
use crate::reading::depends;
use bulk_base::{NoMemory, Sequence, TextMap};
use bulk_model::{Digest, Edge, Edges, Package, Reason, Recorded, Shared};
use std::alloc::Global;

/// So many empty lists.
pub(crate) fn empty_lists(alloc: Global, count: usize) -> Result<Vec<Edges>, NoMemory>
    ensures { IfOk result (λ lists. lists.items ≡ replicate count []) }
{
    let mut lists = Vec::with_capacity(alloc, count)?;
    for _ in 0..count {
        lists.push(Sequence::new(alloc))?;
    }
    Ok(lists)
}

/// Puts the package at a place into the lists of those that its dependencies mean. Whether each means one.
fn note(
    alloc: Global,
    members: &[Shared<Package>],
    places: &TextMap<u32>,
    known: &mut Vec<Option<Digest>>,
    at: u32,
    depends: &[Recorded],
    dependents: &mut Vec<Edges>,
) -> Result<bool, NoMemory>
    requires names { AreNamed members.now }
    requires places { ArePlaces members.now places.now }
    requires known { AreMarks members.now known.old.items }
    requires size { length dependents.old.items ≡ length members.now }
    ensures all { IfOk result (λ all. all
        ≡ list_all (λ depend. list_any (is_recorded_as depend) members.now) depends.now) }
    ensures noted { OnOk result (Noted members.now at depends.now dependents.old.items dependents.new.items) }
    ensures kept { AreMarks members.now known.new.items }
{
    let mut all = true;
    for depend in depends {
        match holder(alloc, members, places, known, depend)? {
            Some(place) => dependents[place].push(Edge {
                kind: depend.kind,
                to: at,
            })?,
            None => all = false,
        }
    }
    Ok(all)
}

/// Whether a package goes by itself: it has an own reason, or not all that it recorded.
fn goes(reason: Option<Reason>, all: bool) -> bool
    ensures { result ≡ (is_some reason || not all) }
{
    reason.is_some() || !all
}

/// Reads what each package recorded. Gives the packages that go by themselves, and puts each into the lists of those that it
/// recorded. One look-up by name for each recorded dependency.
pub(crate) fn read_all(
    alloc: Global,
    members: &[Shared<Package>],
    places: &TextMap<u32>,
    reasons: &[Option<Reason>],
    dependents: &mut Vec<Edges>,
) -> Result<Vec<u32>, NoMemory>
    requires few { length members.now < 2 ^ 32 }
    requires names { AreNamed members.now }
    requires places { ArePlaces members.now places.now }
    requires reasons { length reasons.now ≡ length members.now }
    requires dependents { dependents.old.items ≡ replicate (length members.now) [] }
    ensures { IfOk result (λ lost.
        AreRead members.now reasons.now (length members.now) dependents.new.items lost.items) }
{
    let mut known = no_marks(alloc, members)?;
    let mut lost = Vec::new(alloc);
    for at in 0..members.len() {
        let recorded = depends(members, at);
        let all = note(
            alloc, members, places, &mut known, at as u32, recorded, dependents,
        )?;
        if goes(reasons[at], all) {
            lost.push(at as u32)?;
        }
    }
    Ok(lost)
}
