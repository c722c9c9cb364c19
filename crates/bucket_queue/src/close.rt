// The dependents of a node that ended wait for it no more.
ghost use Rattle.std.specs.Prelude.{◌<◌, [], length};
ghost use Rattle.std.specs.BinaryHeap.{heap_items, heap_capacity};
ghost use Rattle.dep_graph.specs.Graphs.{depends_at};
ghost use Rattle.bucket_queue.specs.Inner.{IsQueue};

use crate::mark::Mark;
use bulk_model::{EdgeLists, Edges};
use std::cmp::Reverse;
use std::collections::BinaryHeap;
use std::snapshot::Snapshot;

/// A ready node: its bucket, and its number.
pub(crate) type Ready = (u32, Reverse<u32>);

/// The dependents of a node wait for it no more: those that wait for none and were not taken are ready.
///
/// Each dependent costs the logarithm of the number of ready nodes. Takes no memory.
pub(crate) fn close_all(
    graph: &Snapshot<EdgeLists>,
    dependents: &[Edges],
    node: usize,
    marks: &[Mark],
    buckets: &[u32],
    missing: &mut [usize],
    ready: &mut BinaryHeap<Ready>,
)
    requires node { node < length graph.now.value }
    requires queue { IsQueue (length graph.now.value) graph.now.value dependents.now
        (depends_at dependents.now node) buckets.now marks.now missing.old
        (heap_items ready.old) (heap_capacity ready.old) }
    ensures { IsQueue (length graph.now.value) graph.now.value dependents.now
        [] buckets.now marks.now missing.new (heap_items ready.new) (heap_capacity ready.new) }
{
    let _ = graph;
    for edge in dependents[node].as_slice() {
        let at = edge.to as usize;
        let left = missing[at] - 1;
        missing[at] = left;
        if marks[at].is_free() && left == 0 {
            let _ = ready.push((buckets[at], Reverse(edge.to)));
        }
    }
}
