// What a queue begins with.
ghost use Rattle.std.specs.Prelude.{◌≡◌, ◌<◌, length, map, IfOk};
ghost use Rattle.std.specs.List.{All};
ghost use Rattle.bulk_model.specs.PlanView.{nodes};
ghost use Rattle.bulk_model.specs.Order.{bucket};
ghost use Rattle.bulk_model.specs.Results.{is_kept};
ghost use Rattle.dep_graph.specs.Chains.{IsLongest};
ghost use Rattle.bucket_queue.specs.QueueView.{first_mark};
ghost use Rattle.bucket_queue.specs.Inner.{count_missing};

use crate::mark::Mark;
use bulk_base::{NoMemory, Sequence};
use bulk_model::{Edge, EdgeLists, Edges, Kept, Plan};
use dep_graph::Graph;
use std::alloc::Global;

/// The bucket of a node that is boosted.
const BOOSTED: u32 = 10;

/// The highest bucket of the others.
const MOST: u32 = 9;

/// Other lists of the same edges.
pub(crate) fn copied(alloc: Global, lists: &[Edges]) -> Result<EdgeLists, NoMemory>
    ensures { IfOk result (λ copies. copies ≡ lists.now) }
{
    let mut copies = Sequence::new(alloc);
    for edges in lists {
        copies.push(Sequence::from_slice(alloc, edges.as_slice())?)?;
    }
    Ok(copies)
}

/// The bucket of a node, whose longest chain of dependents has so many edges.
fn bucket(plan: &Plan, n: usize, longest: u32) -> u32
    requires { IsLongest plan.now.edges n longest }
    ensures { result ≡ bucket plan.now n }
{
    if plan.boosted.get(n) {
        BOOSTED
    } else {
        longest.min(MOST)
    }
}

/// The bucket of each node.
pub(crate) fn buckets(alloc: Global, plan: &Plan, graph: &Graph) -> Result<Vec<u32>, NoMemory>
    requires { graph.now ≡ plan.now.edges }
    ensures { IfOk result (λ buckets. buckets.items ≡ map (bucket plan.now) (nodes plan.now)) }
{
    let count = plan.jobs.len();
    let chains = graph.chains(alloc)?;
    let longest = chains.as_slice();
    let mut buckets = Vec::new(alloc);
    for n in 0..count {
        buckets.push(bucket(plan, n, longest[n]))?;
    }
    Ok(buckets)
}

fn is_kept(kept: &Kept, n: usize) -> bool
    ensures { result ≡ is_kept kept.now n }
{
    n < kept.packages.len() && kept.packages.as_slice()[n].is_some()
}

fn first_mark(plan: &Plan, kept: &Kept, n: usize) -> Mark
    requires { n < length plan.now.jobs }
    ensures { result ≡ first_mark plan.now kept.now n }
{
    if is_kept(kept, n) {
        Mark::Kept
    } else if plan.ignored.as_slice()[n].is_some() {
        Mark::Ignored
    } else {
        Mark::Free
    }
}

/// The mark of each node before any was taken.
pub(crate) fn first_marks(alloc: Global, plan: &Plan, kept: &Kept) -> Result<Vec<Mark>, NoMemory>
    ensures { IfOk result (λ marks. marks.items ≡ map (first_mark plan.now kept.now) (nodes plan.now)) }
{
    let mut marks = Vec::new(alloc);
    for n in 0..plan.jobs.len() {
        marks.push(first_mark(plan, kept, n))?;
    }
    Ok(marks)
}

/// How many targets of the edges have no package.
pub(crate) fn missing_of(edges: &[Edge], marks: &[Mark]) -> usize
    requires { All (λ edge. edge.to < length marks.now) edges.now }
    ensures { result ≡ count_missing marks.now (map (λ edge. edge.to) edges.now) }
{
    let mut missing = 0;
    for edge in edges {
        if !marks[edge.to as usize].has_package() {
            missing += 1;
        }
    }
    missing
}
