// What stands at a place of a list of packages.
ghost use Rattle.std.specs.Prelude.{◌≡◌, ◌<◌, length};
ghost use Rattle.stale_check.specs.Placing.{member_at};

use bulk_base::Text;
use bulk_model::{Package, Recorded, Shared};

/// The package at a place.
pub(crate) fn member(members: &[Shared<Package>], at: usize) -> &Package
    requires { at < length members.now }
    ensures { result.now ≡ member_at members.now at }
{
    members[at].get()
}

/// The name of the package at a place.
pub(crate) fn name(members: &[Shared<Package>], at: usize) -> &Text
    requires { at < length members.now }
    ensures { result.now ≡ (member_at members.now at).name }
{
    &member(members, at).name
}

/// What the package at a place records.
pub(crate) fn depends(members: &[Shared<Package>], at: usize) -> &[Recorded]
    requires { at < length members.now }
    ensures { result.now ≡ (member_at members.now at).depends }
{
    member(members, at).depends.as_slice()
}
