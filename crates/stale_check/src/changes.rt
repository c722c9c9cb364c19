// What of a package is another one now.
ghost use Rattle.std.specs.Prelude.{◌≡◌, ◌<◌, length, IfOk};
ghost use Rattle.std.specs.Cmp.Lexicographic.{pointwise};
ghost use Rattle.stale_check.specs.Own as own;

use bulk_base::{NoMemory, Switch};
use bulk_model::{Depend, Package, Recipes, Recorded};
use std::alloc::Global;
use tree_index::{Index, depends_of};

fn is_same_option(a: &Switch, b: &Switch) -> bool
    ensures { result ≡ own.is_same_option a.now b.now }
{
    a.name == b.name && a.on == b.on
}

fn is_need(recorded: &Recorded, depend: &Depend) -> bool
    ensures { result ≡ own.is_need recorded.now depend.now }
{
    recorded.kind.number() == depend.kind.number()
        && recorded.node == depend.node
        && recorded.name == depend.name
}

/// Whether options are the same, in the same states.
pub(crate) fn are_same_options(a: &[Switch], b: &[Switch]) -> bool
    ensures { result ≡ pointwise own.is_same_option a.now b.now }
{
    if a.len() != b.len() {
        return false;
    }
    for at in 0..a.len() {
        if !is_same_option(&a[at], &b[at]) {
            return false;
        }
    }
    true
}

/// Whether what was recorded is what is needed, whatever records it was built with.
fn are_needs(recorded: &[Recorded], depends: &[Depend]) -> bool
    ensures { result ≡ pointwise own.is_need recorded.now depends.now }
{
    if recorded.len() != depends.len() {
        return false;
    }
    for at in 0..recorded.len() {
        if !is_need(&recorded[at], &depends[at]) {
            return false;
        }
    }
    true
}

/// Whether the node of a number depends on just what a package records.
pub(crate) fn has_depends(
    alloc: Global,
    index: &Index,
    made: &Package,
    n: u32,
) -> Result<bool, NoMemory>
    requires { n < length index.now.nodes }
    ensures { IfOk result (λ same. same ≡ own.has_depends index.now made.now n) }
{
    match depends_of(alloc, index, n)? {
        Some(depends) => Ok(are_needs(made.depends.as_slice(), depends.as_slice())),
        None => Ok(false),
    }
}

/// Whether the node of a number has the recipe of a package.
pub(crate) fn has_recipe(recipes: &Recipes, made: &Package, n: u32) -> bool
    requires { n < length recipes.now.digests }
    ensures { result ≡ own.has_recipe recipes.now made.now n }
{
    match &recipes.digests.as_slice()[n as usize] {
        Some(recipe) => made.recipe == *recipe,
        None => false,
    }
}
