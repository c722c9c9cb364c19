// The dependencies of a package with the records that it was built with.
ghost use Rattle.std.specs.Prelude.{◌≡◌, ℕ, List, Some, None, if◌then◌else◌, bytes_eq, ◌<◌, length, drop, map, IfOk, OnOk};
ghost use Rattle.std.specs.Option.{option_copied, option_or};
ghost use Rattle.std.specs.FinMap.{get};
ghost use Rattle.std.specs.List.{find};
ghost use Rattle.bulk_model.specs.Bake as bake;
ghost use Rattle.bulk_model.specs.Views.{node_of_package};
ghost use Rattle.phase_runner.specs.Marks.{ArePlaces, is_meant};

use bulk_base::{NoMemory, Sequence, Text, TextMap};
use bulk_model::{Depend, Depends, Digest, Package, Recorded, Recordeds, Shared};
use pkg_record::mark;
use std::alloc::Global;

/// Gives a name a place, where it has none.
fn place_first(places: &mut TextMap<usize>, name: Text, at: usize) -> Result<(), NoMemory>
    ensures { OnOk result ((other : List ℕ) → get places.new other
        ≡ option_or (get places.old other) (if bytes_eq other name then Some at else None)) }
{
    if places.get(&name).is_some() {
        return Ok(());
    }
    places.insert(name, at)?;
    Ok(())
}

/// The place of the first package of each name.
fn first_places(alloc: Global, packages: &[Shared<Package>]) -> Result<TextMap<usize>, NoMemory>
    ensures { IfOk result (ArePlaces (length packages.now) packages.now) }
{
    let mut places = TextMap::new(alloc);
    for at in 0..packages.len() {
        place_first(&mut places, packages[at].get().name.copy(alloc)?, at)?;
    }
    Ok(places)
}

/// The node that a package was built for.
fn node_of(alloc: Global, built: &Package) -> Result<Text, NoMemory>
    ensures { IfOk result (λ node. node ≡ node_of_package built.now) }
{
    let mut node = built.origin.copy(alloc)?;
    if let Some(flavor) = &built.flavor {
        node.append(&Text::literal(alloc, b"@")?)?;
        node.append(flavor)?;
    }
    Ok(node)
}

/// Whether a dependency means a package: by its node and its name.
fn means(alloc: Global, depend: &Depend, built: &Package) -> Result<bool, NoMemory>
    ensures { IfOk result (λ means. means ≡ is_meant depend.now built.now) }
{
    let node = node_of(alloc, built)?;
    Ok(depend.node == node && depend.name == built.name)
}

/// The first package that a dependency means.
fn find_meant<'a>(
    alloc: Global,
    packages: &'a [Shared<Package>],
    depend: &Depend,
) -> Result<Option<&'a Package>, NoMemory>
    ensures { IfOk result (λ found.
        option_copied found ≡ find (is_meant depend.now) packages.now) }
{
    for package in packages {
        if means(alloc, depend, package.get())? {
            return Ok(Some(package.get()));
        }
    }
    Ok(None)
}

/// The digest of the record of the first package that a dependency means; none where there is none.
fn first_mark(
    alloc: Global,
    packages: &[Shared<Package>],
    depend: &Depend,
) -> Result<Digest, NoMemory>
    ensures { IfOk result (λ digest. digest ≡ bake.mark_among packages.now depend.now) }
{
    match find_meant(alloc, packages, depend)? {
        Some(package) => mark(alloc, package),
        None => Ok(Digest::none()),
    }
}

/// The packages from a place on.
fn from_place(packages: &[Shared<Package>], place: usize) -> &[Shared<Package>]
    requires { place < length packages.now }
    ensures { result.now ≡ drop place packages.now }
{
    &packages[place..]
}

/// The same where the first package of each name has a known place. No package before that is
/// looked at.
fn mark_of(
    alloc: Global,
    packages: &[Shared<Package>],
    places: &TextMap<usize>,
    depend: &Depend,
) -> Result<Digest, NoMemory>
    requires { ArePlaces (length packages.now) packages.now places.now }
    ensures { IfOk result (λ digest. digest ≡ bake.mark_among packages.now depend.now) }
{
    match places.get(&depend.name) {
        Some(place) => first_mark(alloc, from_place(packages, *place), depend),
        None => Ok(Digest::none()),
    }
}

/// Dependencies as a package that is built over these packages records them. A look-up and a record
/// for each dependency.
pub(crate) fn record_depends(
    alloc: Global,
    depends: &Depends,
    packages: &[Shared<Package>],
) -> Result<Recordeds, NoMemory>
    ensures { IfOk result (λ found. found ≡ map (bake.recorded packages.now) depends.now) }
{
    let places = first_places(alloc, packages)?;
    let mut found = Sequence::new(alloc);
    for depend in depends.as_slice() {
        found.push(Recorded {
            kind: depend.kind,
            node: depend.node.copy(alloc)?,
            name: depend.name.copy(alloc)?,
            digest: mark_of(alloc, packages, &places, depend)?,
        })?;
    }
    Ok(found)
}
