// The packages of a store that stay.
ghost use Rattle.std.specs.Prelude.{◌≡◌, Option, IfOk};
ghost use Rattle.bulk_model.specs.Views.{PackageView};
ghost use Rattle.bulk_model.specs.declared.reason.Reason.{Reason};
ghost use Rattle.stale_check.specs.Lost.{AreLost};
ghost use Rattle.stale_check.specs.Stale.{left};

use bulk_base::{NoMemory, Sequence};
use bulk_model::{Flags, Package, Packages, Shared};
use std::alloc::Global;

/// The packages without a mark, in their order.
pub(crate) fn leave(
    alloc: Global,
    members: &[Shared<Package>],
    lost: &Flags,
) -> Result<Packages, NoMemory>
    ensures { IfOk result (λ stay. (own : PackageView → Option Reason)
        → AreLost own members.now lost.now → stay ≡ left own members.now) }
{
    let mut stay = Sequence::new(alloc);
    for at in 0..members.len() {
        if !lost.get(at) {
            stay.push(members[at].share()?)?;
        }
    }
    Ok(stay)
}
