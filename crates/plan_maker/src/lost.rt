// Dependencies that lead to no node.
ghost use Rattle.std.specs.Prelude.{◌≡◌, ◌≢◌, IfOk, IfSome};
ghost use Rattle.std.specs.Option.{option_copied};
ghost use Rattle.plan_maker.specs.Nodes.{AreNodes};
ghost use Rattle.plan_maker.specs.Lost as losing;

use crate::finding::node_at;
use bulk_base::{NoMemory, Text};
use job_files::PlanError;
use std::alloc::Global;
use tree_index::{At, Index, NodeInfo, Target};

/// That a dependency of a port leads to no node, where it does.
fn lost_at(alloc: Global, port: &Text, at: &At) -> Result<Option<PlanError>, NoMemory>
    ensures lost { IfOk result (λ lost. lost ≡ losing.lost_at port.now at.now) }
    ensures quiet { IfOk result (λ lost. IfSome lost (λ e. e ≢ PlanError.TreeFault)) }
{
    match at {
        At::Node(_) => Ok(None),
        At::Nowhere(name) => Ok(Some(PlanError::NoDepend {
            port: port.copy(alloc)?,
            origin: name.copy(alloc)?,
        })),
        At::Moved { old, new } => Ok(Some(PlanError::MovedDepend {
            port: port.copy(alloc)?,
            old: old.copy(alloc)?,
            new: new.copy(alloc)?,
        })),
    }
}

/// The first of a port's dependencies that leads to no node.
fn first_lost_of(
    alloc: Global,
    port: &Text,
    targets: &[Target],
) -> Result<Option<PlanError>, NoMemory>
    ensures lost { IfOk result (λ lost. lost ≡ losing.first_of (λ target. losing.lost_at port.now target.at) targets.now) }
    ensures quiet { IfOk result (λ lost. IfSome lost (λ e. e ≢ PlanError.TreeFault)) }
{
    for target in targets {
        let lost = lost_at(alloc, port, &target.at)?;
        if lost.is_some() {
            return Ok(lost);
        }
    }
    Ok(None)
}

/// The same of a node that is not ignored.
fn lost_of(alloc: Global, node: &NodeInfo) -> Result<Option<PlanError>, NoMemory>
    ensures lost { IfOk result (λ lost. lost ≡ losing.lost_of node.now) }
    ensures quiet { IfOk result (λ lost. IfSome lost (λ e. e ≢ PlanError.TreeFault)) }
{
    if node.ignored.is_some() {
        return Ok(None);
    }
    first_lost_of(alloc, &node.node, node.targets.as_slice())
}

/// The first dependency that leads to no node, of the first of some nodes that has one. Each dependency is looked at once.
pub(crate) fn first_lost(
    alloc: Global,
    index: &Index,
    nodes: &[u32],
) -> Result<Option<PlanError>, NoMemory>
    requires { AreNodes index.now nodes.now }
    ensures lost { IfOk result (λ lost. lost ≡ losing.first_lost index.now nodes.now) }
    ensures quiet { IfOk result (λ lost. IfSome lost (λ e. e ≢ PlanError.TreeFault)) }
{
    for n in nodes {
        let lost = lost_of(alloc, node_at(index, *n))?;
        if lost.is_some() {
            return Ok(lost);
        }
    }
    Ok(None)
}
