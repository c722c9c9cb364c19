// What is told of each node, dependencies first: so each cause is found in one pass.
ghost use Rattle.std.specs.Prelude.{◌≡◌, ◌<◌, not, length, map, IfOk, IfSome};
ghost use Rattle.std.specs.List.{All};
ghost use Rattle.bulk_base.specs.Least.{least_passing};
ghost use Rattle.bulk_model.specs.DryLists.{dry_statuses};
ghost use Rattle.bulk_model.specs.Fit.{FitsResults};
ghost use Rattle.bulk_model.specs.PlanView.{edges_from};
ghost use Rattle.bulk_model.specs.Results.{is_kept};
ghost use Rattle.dep_graph.specs.Graphs.{targets};
ghost use Rattle.dep_graph.specs.Order.{IsDependencyOrder};
ghost use Rattle.status_lists.specs.Fates.{AreFates, cause_by, dry_fate, fate_in, has_package, told_by};

use crate::fate::Fate;
use bulk_base::{NoMemory, Sequence, lower};
use bulk_model::{Edge, EdgeLists, Edges, Kept, Numbers, Plan, Results, Status};
use dep_graph::Graph;
use std::alloc::Global;

/// Other lists of the same edges.
fn copied(alloc: Global, lists: &[Edges]) -> Result<EdgeLists, NoMemory>
    ensures { IfOk result (λ copies. copies ≡ lists.now) }
{
    let mut copies = Sequence::new(alloc);
    for edges in lists {
        copies.push(Sequence::from_slice(alloc, edges.as_slice())?)?;
    }
    Ok(copies)
}

/// The nodes of a plan, each behind its dependencies.
fn dependencies_first(alloc: Global, plan: &Plan) -> Result<Numbers, NoMemory>
    ensures { IfOk result (λ order. IsDependencyOrder plan.now.edges order) }
{
    let graph = Graph::new(alloc, copied(alloc, plan.edges.as_slice())?)?;
    Ok(graph.loopless_part(alloc)?)
}

/// A place for what is told of each of so many nodes.
fn places(alloc: Global, count: usize) -> Result<Vec<Fate>, NoMemory>
    ensures { IfOk result (λ fates. length fates.items ≡ count) }
{
    Ok(vec![in alloc; Fate::Kept; count]?)
}

/// The least target of some edges that has no package.
fn least_setback(edges: &[Edge], fates: &[Fate]) -> Option<u32>
    requires { All (λ edge. edge.to < length fates.now) edges.now }
    ensures least { result ≡ least_passing (λ d. not (has_package (fate_in fates.now d)))
        (targets edges.now) }
    ensures node { IfSome result (λ d. d < length fates.now) }
{
    let mut least = None;
    for edge in edges {
        if !fates[edge.to as usize].has_package() {
            least = Some(lower(least, edge.to));
        }
    }
    least
}

/// Why a node with these edges is skipped, if it is: its least dependency without a package, or
/// that one's cause.
fn cause(edges: &[Edge], fates: &[Fate]) -> Option<u32>
    requires { All (λ edge. edge.to < length fates.now) edges.now }
    ensures { result ≡ cause_by fates.now (targets edges.now) }
{
    let least = least_setback(edges, fates)?;
    Some(fates[least as usize].blamed(least))
}

/// What is told of a node with this status and these edges.
fn told(status: &Status, n: u32, edges: &[Edge], fates: &[Fate]) -> Fate
    requires { All (λ edge. edge.to < length fates.now) edges.now }
    ensures { result ≡ told_by status.now n fates.now (targets edges.now) }
{
    match status {
        Status::Kept(_) => Fate::Kept,
        Status::Built(_) => Fate::Built,
        Status::Failed { phase, code } => Fate::Failed {
            phase: *phase,
            code: *code,
        },
        Status::Ignored => Fate::Ignored,
        Status::Skipped => Fate::Skipped {
            cause: cause(edges, fates).unwrap_or(n),
        },
    }
}

/// What would be told of a node where each build succeeds.
fn dry_fate(plan: &Plan, kept: &Kept, n: usize, fates: &[Fate]) -> Fate
    requires size { length fates.now ≡ length plan.now.jobs }
    requires node { n < length plan.now.jobs }
    ensures { result ≡ dry_fate plan.now kept.now n fates.now }
{
    if n < kept.packages.len() && kept.packages.as_slice()[n].is_some() {
        return Fate::Kept;
    }
    if plan.ignored.as_slice()[n].is_some() {
        return Fate::Ignored;
    }
    match cause(plan.edges.as_slice()[n].as_slice(), fates) {
        Some(cause) => Fate::Skipped { cause },
        None => Fate::Built,
    }
}

/// What is told of each node of a plan with these results. NoMemory for want of memory alone.
///
/// Each node and each edge is looked at a fixed number of times.
pub(crate) fn fates(alloc: Global, plan: &Plan, results: &Results) -> Result<Vec<Fate>, NoMemory>
    requires { FitsResults plan.now results.now.statuses }
    ensures { IfOk result (λ fates. AreFates plan.now results.now.statuses fates.items) }
{
    let order = dependencies_first(alloc, plan)?;
    let statuses = results.statuses.as_slice();
    let mut fates = places(alloc, statuses.len())?;
    for n in order.as_slice() {
        let at = *n as usize;
        let edges = plan.edges.as_slice()[at].as_slice();
        fates[at] = told(&statuses[at], *n, edges, fates.as_slice());
    }
    Ok(fates)
}

/// What would be told of each node of a plan with these kept packages, where each build succeeds.
/// NoMemory for want of memory alone.
///
/// Each node and each edge is looked at a fixed number of times.
pub(crate) fn dry_fates(alloc: Global, plan: &Plan, kept: &Kept) -> Result<Vec<Fate>, NoMemory>
    ensures { IfOk result (λ fates.
        AreFates plan.now (dry_statuses plan.now kept.now) fates.items) }
{
    let order = dependencies_first(alloc, plan)?;
    let mut fates = places(alloc, plan.jobs.len())?;
    for n in order.as_slice() {
        let at = *n as usize;
        fates[at] = dry_fate(plan, kept, at, fates.as_slice());
    }
    Ok(fates)
}
