// The marks of packages, each taken once, where it is asked for.
ghost use Rattle.std.specs.Prelude.{◌≡◌, ◌<◌, length, replicate, IfOk};
ghost use Rattle.std.specs.declared.option.Option.TheVariants.{None as Nothing};
ghost use Rattle.bulk_model.specs.Spelling as spelling;
ghost use Rattle.stale_check.specs.Placing.{member_at};
ghost use Rattle.stale_check.specs.Recording.{AreMarks};

use crate::reading::member;
use bulk_base::NoMemory;
use bulk_model::{Digest, Package, Shared};
use pkg_record::mark;
use std::alloc::Global;

/// The mark of the package at a place: taken now, where it was not before.
pub(crate) fn mark_at(
    alloc: Global,
    members: &[Shared<Package>],
    known: &mut Vec<Option<Digest>>,
    at: usize,
) -> Result<Digest, NoMemory>
    requires within { at < length members.now }
    requires known { AreMarks members.now known.old.items }
    ensures mark { IfOk result (λ digest. digest ≡ spelling.mark (member_at members.now at)) }
    ensures kept { AreMarks members.now known.new.items }
{
    if let Some(digest) = known[at] {
        return Ok(digest);
    }
    let digest = mark(alloc, member(members, at))?;
    known[at] = Some(digest);
    Ok(digest)
}

/// No mark of so many packages is taken.
pub(crate) fn no_marks(
    alloc: Global,
    members: &[Shared<Package>],
) -> Result<Vec<Option<Digest>>, NoMemory>
    ensures { IfOk result (λ known. AreMarks members.now known.items) }
{
    let mut known = Vec::with_capacity(alloc, members.len())?;
    for _ in 0..members.len() {
        known.push(None)?;
    }
    Ok(known)
}
