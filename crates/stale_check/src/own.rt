// The own reasons of packages.
ghost use Rattle.std.specs.Prelude.{◌≡◌, ◌<◌, ℕ, List, length, map, bytes_eq, IfOk};
ghost use Rattle.stale_check.specs.Own as own;
ghost use Rattle.stale_check.specs.Placing.{AreNumbers};
ghost use Rattle.stale_check.specs.Recording.{AreFlags};

use crate::changes::{are_same_options, has_depends, has_recipe};
use crate::lost::flag_numbers;
use crate::numbering::{number_nodes, number_of_package};
use bulk_base::{NoMemory, TextMap};
use bulk_model::{Flags, Package, Reason, Recipes, Shared};
use std::alloc::Global;
use tree_index::{Index, NodeInfo};

/// Why a package for a node goes, by what the node is without its dependencies and its recipe.
fn early_reason(is_asked: bool, node: &NodeInfo, made: &Package) -> Option<Reason>
    ensures { result ≡ own.early_reason is_asked node.now made.now }
{
    if is_asked {
        Some(Reason::Asked)
    } else if node.ignored.is_some() {
        Some(Reason::Ignored)
    } else if made.name != node.desc.name {
        Some(Reason::NewName)
    } else if !are_same_options(made.options.as_slice(), node.options.as_slice()) {
        Some(Reason::NewOptions)
    } else {
        None
    }
}

/// Why a package for the node of a number goes, by the node's dependencies and its recipe.
fn late_reason(
    alloc: Global,
    index: &Index,
    recipes: &Recipes,
    made: &Package,
    n: u32,
) -> Result<Option<Reason>, NoMemory>
    requires node { n < length index.now.nodes }
    requires recipes { length recipes.now.digests ≡ length index.now.nodes }
    ensures { IfOk result (λ reason. reason ≡ own.late_reason index.now recipes.now made.now n) }
{
    if !has_depends(alloc, index, made, n)? {
        Ok(Some(Reason::NewDepends))
    } else if !has_recipe(recipes, made, n) {
        Ok(Some(Reason::NewRecipe))
    } else {
        Ok(None)
    }
}

/// Why a package for the node of a number goes by itself.
fn reason_at(
    alloc: Global,
    index: &Index,
    asked: &Flags,
    recipes: &Recipes,
    made: &Package,
    n: u32,
) -> Result<Option<Reason>, NoMemory>
    requires node { n < length index.now.nodes }
    requires recipes { length recipes.now.digests ≡ length index.now.nodes }
    ensures { IfOk result (λ reason. (numbers : List ℕ)
        → AreFlags (length index.now.nodes) numbers asked.now
        → reason ≡ own.reason_at index.now numbers recipes.now made.now n) }
{
    let node = &index.nodes.as_slice()[n as usize];
    match early_reason(asked.get(n as usize), node, made) {
        Some(reason) => Ok(Some(reason)),
        None => late_reason(alloc, index, recipes, made, n),
    }
}

/// Why a package goes by itself.
fn own_reason(
    alloc: Global,
    index: &Index,
    numbers: &TextMap<u32>,
    asked: &Flags,
    recipes: &Recipes,
    made: &Package,
) -> Result<Option<Reason>, NoMemory>
    requires numbers { AreNumbers index.now.nodes numbers.now }
    requires recipes { length recipes.now.digests ≡ length index.now.nodes }
    ensures { IfOk result (λ reason. (list : List ℕ)
        → AreFlags (length index.now.nodes) list asked.now
        → reason ≡ own.own index.now list recipes.now made.now) }
{
    match number_of_package(alloc, index.nodes.as_slice(), numbers, made)? {
        Some(n) => reason_at(alloc, index, asked, recipes, made, n),
        None => Ok(Some(Reason::NoPort)),
    }
}

/// The own reason of each package.
pub(crate) fn own_reasons(
    alloc: Global,
    index: &Index,
    asked: &[u32],
    recipes: &Recipes,
    members: &[Shared<Package>],
) -> Result<Vec<Option<Reason>>, NoMemory>
    requires { length recipes.now.digests ≡ length index.now.nodes }
    ensures { IfOk result (λ reasons. reasons.items
        ≡ map (own.own index.now asked.now recipes.now) members.now) }
{
    let nodes = index.nodes.as_slice();
    let numbers = number_nodes(alloc, nodes)?;
    let flags = flag_numbers(alloc, nodes.len(), asked)?;
    let mut reasons = Vec::with_capacity(alloc, members.len())?;
    for made in members {
        let reason = own_reason(alloc, index, &numbers, &flags, recipes, made.get())?;
        reasons.push(reason)?;
    }
    Ok(reasons)
}
