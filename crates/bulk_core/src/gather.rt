// The packages for a build.
ghost use Rattle.std.specs.Prelude.{◌≡◌, ◌<◌, length, IfOk};
ghost use Rattle.std.specs.List.{All, filter_map};
ghost use Rattle.bulk_model.specs.Results.{package_in};
ghost use Rattle.bulk_core.specs.Turns.{settled};

use bulk_base::{NoMemory, Sequence};
use bulk_model::{Kept, Outcome, Package, Packages, Plan, Shared};
use std::alloc::Global;

/// The package at a node, as far as the nodes have ended.
fn package_at(
    plan: &Plan,
    kept: &Kept,
    outcomes: &[Option<Outcome>],
    d: usize,
) -> Result<Option<Shared<Package>>, NoMemory>
    requires node { d < length plan.now.jobs }
    requires kept { length kept.now.packages ≡ length plan.now.jobs }
    requires outcomes { length outcomes.now ≡ length plan.now.jobs }
    ensures { IfOk result (λ p. p ≡ package_in (settled plan.now kept.now outcomes.now d)) }
{
    if let Some(package) = &kept.packages.as_slice()[d] {
        return Ok(Some(package.share()?));
    }
    if plan.ignored.as_slice()[d].is_some() {
        return Ok(None);
    }
    match &outcomes[d] {
        Some(Outcome::Built(package)) => Ok(Some(package.share()?)),
        _ => Ok(None),
    }
}

/// The packages at some nodes, in their order.
pub(crate) fn gather(
    alloc: Global,
    plan: &Plan,
    kept: &Kept,
    outcomes: &[Option<Outcome>],
    nodes: &[u32],
) -> Result<Packages, NoMemory>
    requires nodes { All (λ d. d < length plan.now.jobs) nodes.now }
    requires kept { length kept.now.packages ≡ length plan.now.jobs }
    requires outcomes { length outcomes.now ≡ length plan.now.jobs }
    ensures { IfOk result (λ packages. packages
        ≡ filter_map (λ d. package_in (settled plan.now kept.now outcomes.now d)) nodes.now) }
{
    let mut packages = Sequence::new(alloc);
    for d in nodes {
        if let Some(package) = package_at(plan, kept, outcomes, *d as usize)? {
            packages.push(package)?;
        }
    }
    Ok(packages)
}
