// The package that a recorded dependency means.
ghost use Rattle.std.specs.Prelude.{◌≡◌, ◌∷◌, ◌++◌, ◌&&◌, ◌<◌, bytes_eq, length, IfOk, IfSome};
ghost use Rattle.std.specs.FinMap as map;
ghost use Rattle.bulk_base.specs.Names.{node_of};
ghost use Rattle.bulk_model.specs.Views.{node_of_package};
ghost use Rattle.stale_check.specs.Placing.{ArePlaces, AreNamed};
ghost use Rattle.stale_check.specs.Recording.{IsHolder, AreMarks};

use crate::marks::mark_at;
use crate::reading::member;
use bulk_base::{NoMemory, Text, TextMap};
use bulk_model::{Digest, Package, Recorded, Shared};
use std::alloc::Global;

/// Whether bytes are `@` and a flavor.
fn is_flavored(rest: &[u8], flavor: &[u8]) -> bool
    ensures { result ≡ bytes_eq rest.now (64 ∷ flavor.now) }
{
    match rest {
        [b'@', behind @ ..] => behind == flavor,
        _ => false,
    }
}

/// Whether bytes are an origin, `@` and a flavor.
fn is_flavored_node(node: &[u8], origin: &[u8], flavor: &[u8]) -> bool
    ensures { result ≡ bytes_eq node.now (origin.now ++ 64 ∷ flavor.now) }
{
    match node.strip_prefix(origin) {
        Some(rest) => is_flavored(rest, flavor),
        None => false,
    }
}

/// Whether bytes are a node: an origin, or an origin, `@` and a flavor.
fn is_node(node: &[u8], origin: &[u8], flavor: &Option<Text>) -> bool
    ensures { result ≡ bytes_eq node.now (node_of origin.now flavor.now) }
{
    match flavor {
        None => node == origin,
        Some(flavor) => is_flavored_node(node, origin, flavor.bytes()),
    }
}

/// Whether a package has the node and the name of a recorded dependency.
fn is_named(depend: &Recorded, made: &Package) -> bool
    ensures { result ≡ (bytes_eq depend.now.node (node_of_package made.now)
        && bytes_eq depend.now.name made.now.name) }
{
    is_node(depend.node.bytes(), made.origin.bytes(), &made.flavor) && depend.name == made.name
}

/// The place of the first package of a name.
fn place_of(members: &[Shared<Package>], places: &TextMap<u32>, name: &Text) -> Option<usize>
    requires { ArePlaces members.now places.now }
    ensures is { result ≡ map.get places.now name.now }
    ensures within { IfSome result (λ at. at < length members.now) }
{
    let _ = members;
    match places.get(name) {
        Some(at) => Some(*at as usize),
        None => None,
    }
}

/// The place of the package that a recorded dependency means: its name's, if that package has its node too and its mark. A
/// mark is taken only where name and node fit.
pub(crate) fn holder(
    alloc: Global,
    members: &[Shared<Package>],
    places: &TextMap<u32>,
    known: &mut Vec<Option<Digest>>,
    depend: &Recorded,
) -> Result<Option<usize>, NoMemory>
    requires names { AreNamed members.now }
    requires places { ArePlaces members.now places.now }
    requires known { AreMarks members.now known.old.items }
    ensures holder { IfOk result (IsHolder members.now depend.now) }
    ensures kept { AreMarks members.now known.new.items }
{
    let Some(at) = place_of(members, places, &depend.name) else {
        return Ok(None);
    };
    if !is_named(depend, member(members, at)) {
        return Ok(None);
    }
    let mark = mark_at(alloc, members, known, at)?;
    if mark == depend.digest {
        Ok(Some(at))
    } else {
        Ok(None)
    }
}
