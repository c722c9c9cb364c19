// Whether parts make a plan.
ghost use Rattle.std.specs.Prelude.{◌≡◌, ◌<◌, length, map, bytes_eq, IsTrue, IfOk};
ghost use Rattle.std.specs.Cmp.Lexicographic.{slice_cmp};
ghost use Rattle.std.specs.List.{All, IsDistinct};
ghost use Rattle.std.specs.Ordering.{nat_cmp};
ghost use Rattle.std.specs.declared.cmp.Ordering.TheVariants.{Less};
ghost use Rattle.dep_graph.specs.Graphs.{IsGraph};
ghost use Rattle.dep_graph.specs.Order.{is_loopless};
ghost use Rattle.case_plans.specs.Testing.{StandAlone, AreParts};

use bulk_base::{NoMemory, Sequence};
use bulk_model::{Edge, EdgeLists, Edges, Flags, Job, Jobs, MaybeTexts};
use dep_graph::Graph;
use std::alloc::Global;
use std::cmp::Ordering;

fn are_within(edges: &[Edge], count: usize) -> bool
    ensures { IsTrue result → All (λ edge. edge.to < count) edges.now }
{
    edges.iter().all(|edge| (edge.to as usize) < count)
}

fn is_graph(lists: &[Edges]) -> bool
    ensures { IsTrue result → IsGraph lists.now }
{
    lists.len() < 100_000
        && lists
            .iter()
            .all(|edges| are_within(edges.as_slice(), lists.len()))
}

fn copied(alloc: Global, lists: &[Edges]) -> Result<EdgeLists, NoMemory>
    ensures { IfOk result (λ copies. copies ≡ lists.now) }
{
    let mut copies = Sequence::new(alloc);
    for edges in lists {
        copies.push(Sequence::from_slice(alloc, edges.as_slice())?)?;
    }
    Ok(copies)
}

fn is_loopless(alloc: Global, lists: &[Edges]) -> Result<bool, NoMemory>
    requires { IsGraph lists.now }
    ensures { IfOk result (λ free. free ≡ is_loopless lists.now) }
{
    let graph = Graph::new(alloc, copied(alloc, lists)?)?;
    Ok(graph.order(alloc)?.is_some())
}

fn stand_alone(lists: &[Edges], ignored: &MaybeTexts) -> bool
    requires { length ignored.now ≡ length lists.now }
    ensures { IsTrue result → StandAlone lists.now ignored.now }
{
    for n in 0..lists.len() {
        if ignored.as_slice()[n].is_some() && !lists[n].is_empty() {
            return false;
        }
    }
    true
}

fn comes_before(job: &Job, other: &Job) -> bool
    ensures { IsTrue result → slice_cmp nat_cmp job.now.name other.now.name ≡ Less }
{
    matches!(job.name.cmp(&other.name), Ordering::Less)
}

fn ascend(jobs: &[Job]) -> bool
    ensures { IsTrue result → IsDistinct bytes_eq (map (λ job. job.name) jobs.now) }
{
    for n in 1..jobs.len() {
        if !comes_before(&jobs[n - 1], &jobs[n]) {
            return false;
        }
    }
    true
}

/// Whether these are the parts of a plan, with names in byte order.
pub fn are_parts(
    alloc: Global,
    jobs: &Jobs,
    edges: &EdgeLists,
    ignored: &MaybeTexts,
    boosted: &Flags,
) -> Result<bool, NoMemory>
    ensures { IfOk result (λ good.
        IsTrue good → AreParts jobs.now edges.now ignored.now boosted.now) }
{
    let count = edges.len();
    let sizes = jobs.len() == count && ignored.len() == count && boosted.len() == count;
    if !sizes || !is_graph(edges.as_slice()) {
        return Ok(false);
    }
    Ok(
        stand_alone(edges.as_slice(), ignored)
            && ascend(jobs.as_slice())
            && is_loopless(alloc, edges.as_slice())?,
    )
}
