// The places of packages and of nodes by their names.
ghost use Rattle.std.specs.Prelude.{◌≡◌, ◌<◌, ◌^◌, bytes_eq, length, IfOk, OnOk, IfSome};
ghost use Rattle.bulk_base.specs.Names.{node_of};
ghost use Rattle.bulk_model.specs.Views.{node_of_package};
ghost use Rattle.tree_index.specs.Numbers.{Gains};
ghost use Rattle.stale_check.specs.Own.{number_of};
ghost use Rattle.stale_check.specs.Placing.{ArePlaces, AreNumbers};

use crate::reading::name;
use bulk_base::{NoMemory, Text, TextMap};
use bulk_model::{Package, Shared};
use std::alloc::Global;
use tree_index::NodeInfo;

/// Gives a name a number, where it has none.
fn put_new(numbers: &mut TextMap<u32>, name: Text, number: u32) -> Result<(), NoMemory>
    ensures { OnOk result (Gains numbers.old (λ other. bytes_eq other name) number numbers.new) }
{
    if numbers.get(&name).is_some() {
        return Ok(());
    }
    numbers.insert(name, number)?;
    Ok(())
}

/// The place of the first package of each name. O(log m) comparisons for each of m packages.
pub(crate) fn place_packages(
    alloc: Global,
    members: &[Shared<Package>],
) -> Result<TextMap<u32>, NoMemory>
    requires { length members.now < 2 ^ 32 }
    ensures { IfOk result (ArePlaces members.now) }
{
    let mut places = TextMap::new(alloc);
    for at in 0..members.len() {
        put_new(&mut places, name(members, at).copy(alloc)?, at as u32)?;
    }
    Ok(places)
}

/// The number of the first node of each name. O(log n) comparisons for each of n nodes.
pub(crate) fn number_nodes(alloc: Global, nodes: &[NodeInfo]) -> Result<TextMap<u32>, NoMemory>
    requires { length nodes.now < 2 ^ 32 }
    ensures { IfOk result (AreNumbers nodes.now) }
{
    let mut numbers = TextMap::new(alloc);
    for at in 0..nodes.len() {
        put_new(&mut numbers, nodes[at].node.copy(alloc)?, at as u32)?;
    }
    Ok(numbers)
}

/// The name of the node of an origin and, where it has one, a flavor: the origin, or the origin, `@`
/// and the flavor (Porter's Handbook, "Flavors"). NoMemory for want of memory alone. Costs a copy of
/// both.
pub fn node_of(alloc: Global, origin: &Text, flavor: &Option<Text>) -> Result<Text, NoMemory>
    ensures { IfOk result (λ node. node ≡ node_of origin.now flavor.now) }
{
    let mut node = origin.copy(alloc)?;
    if let Some(flavor) = flavor {
        node.append(&Text::literal(alloc, b"@")?)?;
        node.append(flavor)?;
    }
    Ok(node)
}

/// The node that a package was built for.
fn node_of_package(alloc: Global, made: &Package) -> Result<Text, NoMemory>
    ensures { IfOk result (λ node. node ≡ node_of_package made.now) }
{
    node_of(alloc, &made.origin, &made.flavor)
}

/// The number of the node that a package was built for.
pub(crate) fn number_of_package(
    alloc: Global,
    nodes: &[NodeInfo],
    numbers: &TextMap<u32>,
    made: &Package,
) -> Result<Option<u32>, NoMemory>
    requires { AreNumbers nodes.now numbers.now }
    ensures number { IfOk result (λ number. number ≡ number_of nodes.now made.now) }
    ensures within { IfOk result (λ number. IfSome number (λ n. n < length nodes.now)) }
{
    let _ = nodes;
    Ok(numbers.get(&node_of_package(alloc, made)?).copied())
}
