// The packages that stay at a plan's nodes.
ghost use Rattle.std.specs.Prelude.{◌≡◌, IfOk, OnOk};
ghost use Rattle.std.specs.FinMap as map;
ghost use Rattle.run_store.specs.First.{AreFirst, Gains};
ghost use Rattle.stale_check.specs.Kept.{kept_among};

use bulk_base::{NoMemory, Sequence, Text, TextMap};
use bulk_model::{Kept, Package, Packages, Plan, Shared};
use stale_check::node_of;
use std::alloc::Global;

/// Gives a node a package, where it has none.
fn put_first(
    firsts: &mut TextMap<Shared<Package>>,
    node: Text,
    made: &Shared<Package>,
) -> Result<(), NoMemory>
    ensures { OnOk result (Gains firsts.old node made.now firsts.new) }
{
    if firsts.get(&node).is_some() {
        return Ok(());
    }
    firsts.insert(node, made.share()?)?;
    Ok(())
}

/// The first package that was built for each node. O(log m) comparisons for each of m packages.
fn first_packages(
    alloc: Global,
    packages: &[Shared<Package>],
) -> Result<TextMap<Shared<Package>>, NoMemory>
    ensures { IfOk result (AreFirst packages.now) }
{
    let mut firsts = TextMap::new(alloc);
    for made in packages {
        let fields = made.get();
        let node = node_of(alloc, &fields.origin, &fields.flavor)?;
        put_first(&mut firsts, node, made)?;
    }
    Ok(firsts)
}

/// The package that a map has at a node.
fn package_at(
    firsts: &TextMap<Shared<Package>>,
    node: &Text,
) -> Result<Option<Shared<Package>>, NoMemory>
    ensures { IfOk result (λ found. found ≡ map.get firsts.now node.now) }
{
    match firsts.get(node) {
        Some(made) => Ok(Some(made.share()?)),
        None => Ok(None),
    }
}

/// The packages at a plan's nodes among some packages: of each node the first that was built for it.
/// O(log m) comparisons for each of m packages and of the nodes.
pub(crate) fn keep_among(alloc: Global, plan: &Plan, packages: &Packages) -> Result<Kept, NoMemory>
    ensures { IfOk result (λ kept. kept ≡ kept_among plan.now packages.now) }
{
    let firsts = first_packages(alloc, packages.as_slice())?;
    let mut kept = Sequence::new(alloc);
    for job in plan.jobs.as_slice() {
        let node = node_of(alloc, &job.origin, &job.flavor)?;
        kept.push(package_at(&firsts, &node)?)?;
    }
    Ok(Kept { packages: kept })
}
