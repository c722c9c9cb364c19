// The queue of ready nodes.
ghost use Rattle.std.specs.Prelude.{◌≡◌, true, false, IfOk, length, if◌then◌else◌};
ghost use Rattle.std.specs.List.{count_by};
ghost use Rattle.std.specs.Option.{option_map_or};
ghost use Rattle.dep_graph.specs.Graphs.{IsGraph};
ghost use Rattle.dep_graph.specs.Turned.{IsTurned};
ghost use Rattle.bucket_queue.specs.declared.mark.Mark.TheVariants.{Taken, Done, Bad};
ghost use Rattle.bucket_queue.specs.QueueView.{first_queue, next_of, with_mark, is_running, is_taken, is_over};

use crate::begin::{buckets, copied, first_marks, missing_of};
use crate::close::{Ready, close_all};
use crate::mark::Mark;
use bulk_base::NoMemory;
use bulk_model::{EdgeLists, Kept, Plan};
use dep_graph::Graph;
use std::alloc::Global;
use std::cmp::Reverse;
use std::collections::BinaryHeap;
use std::marker::Model;
use std::snapshot::Snapshot;

/// The nodes of a plan that are to be built, in the order in which builders take them: of the ready ones the highest
/// bucket first, then the least number. A node is ready once each of its dependencies is kept or done.
///
/// A boosted node has bucket 10, another the smaller of 9 and the edges of the longest chain of dependents above it.
/// Contracts see what is known of each node.
///
/// Each node counts its dependencies that are neither kept nor done; ready nodes stand in one heap with room for all.
#[derive(Drop)]
pub struct Queue {
    graph: Snapshot<EdgeLists>,
    dependents: Graph,
    buckets: Vec<u32>,
    marks: Vec<Mark>,
    missing: Vec<usize>,
    ready: BinaryHeap<Ready>,
    running: usize,
    halted: bool,
}

impl Model for Queue {
    ghost use Rattle.bucket_queue.specs.QueueView.{QueueView};

    ghost Value = { QueueView };

    ghost use Rattle.std.specs.Prelude.{[], length, ◌≡◌};
    ghost use Rattle.std.specs.BinaryHeap.{heap_items, heap_capacity};
    ghost use Rattle.std.specs.List.{count_by};
    ghost use Rattle.bucket_queue.specs.QueueView.{is_taken};
    ghost use Rattle.bucket_queue.specs.Inner.{IsQueue};

    ghost view = { λ q. record {
      edges = q.graph.value;
      buckets = q.buckets.items;
      marks = q.marks.items;
      halted = q.halted;
    } };

    ghost invariant = { λ q.
        (IsQueue (length q.graph.value) q.graph.value q.dependents [] q.buckets.items q.marks.items
        q.missing.items (heap_items q.ready) (heap_capacity q.ready))
        × (q.running ≡ count_by is_taken q.marks.items) };
}

/// The queue of a graph whose nodes have these buckets and marks.
fn begun(
    alloc: Global,
    graph: &EdgeLists,
    dependents: Graph,
    buckets: Vec<u32>,
    marks: Vec<Mark>,
) -> Result<Queue, NoMemory>
    requires graph { IsGraph graph.now }
    requires dependents { length dependents ≡ length graph.now }
    requires buckets { length buckets.items ≡ length graph.now }
    requires marks { length marks.items ≡ length graph.now }
    requires none_running { count_by is_taken marks.items ≡ 0 }
    requires turned { IsTurned graph.now dependents }
    ensures { IfOk result (λ q. q ≡ record {
      edges = graph.now;
      buckets = buckets.items;
      marks = marks.items;
      halted = false;
    }) }
{
    let _ = dependents.edges();
    let count = graph.len();
    let mut missing = Vec::with_capacity(alloc, count)?;
    let mut ready = BinaryHeap::with_capacity(alloc, count)?;
    for n in 0..count {
        let left = missing_of(graph.as_slice()[n].as_slice(), marks.as_slice());
        missing.push(left)?;
        if marks[n].is_free() && left == 0 {
            ready.push((buckets[n], Reverse(n as u32)))?;
        }
    }
    Ok(Queue {
        graph: Snapshot::of(graph),
        dependents,
        buckets,
        marks,
        missing,
        ready,
        running: 0,
        halted: false,
    })
}

impl Queue {
    /// The queue of a plan: each node that is neither kept nor ignored is to be built, and none is taken. NoMemory for
    /// want of memory alone. All memory that the queue ever takes is taken here.
    ///
    /// Each node and each edge is looked at a fixed number of times; a ready node costs the logarithm of their number.
    pub fn new(alloc: Global, plan: &Plan, kept: &Kept) -> Result<Queue, NoMemory>
        ensures { IfOk result (λ queue. queue ≡ first_queue plan.now kept.now) }
    {
        let graph = Graph::new(alloc, copied(alloc, plan.edges.as_slice())?)?;
        let dependents = graph.dependents(alloc)?;
        let buckets = buckets(alloc, plan, &graph)?;
        let marks = first_marks(alloc, plan, kept)?;
        begun(alloc, &plan.edges, dependents, buckets, marks)
    }

    /// Takes the least ready node of the highest bucket that has one. None exactly where no node is ready.
    ///
    /// Costs the logarithm of the number of ready nodes. Takes no memory.
    pub fn next(&mut self) -> Option<u32>
        ensures next { result ≡ next_of self.old }
        ensures queue { self.new ≡ option_map_or (λ n. with_mark self.old n Taken) result self.old }
    {
        if self.halted {
            return None;
        }
        match self.ready.pop() {
            Some((_, Reverse(n))) => {
                self.marks[n as usize] = Mark::Taken;
                self.running += 1;
                Some(n)
            }
            None => None,
        }
    }

    fn is_running(&self, n: u32) -> bool
        ensures { result ≡ is_running self.now n }
    {
        match self.marks.get(n as usize) {
            Some(mark) => mark.is_taken(),
            None => false,
        }
    }

    /// Ends a node that was built. False exactly where it was not taken or has ended, and then nothing changes.
    ///
    /// Costs the logarithm of the number of ready nodes for each dependent. Takes no memory.
    pub fn done(&mut self, n: u32) -> bool
        ensures running { result ≡ is_running self.old n }
        ensures queue { self.new ≡ (if result then with_mark self.old n Done else self.old) }
    {
        if !self.is_running(n) {
            return false;
        }
        let at = n as usize;
        self.marks[at] = Mark::Done;
        self.running -= 1;
        close_all(
            &self.graph,
            self.dependents.edges().as_slice(),
            at,
            self.marks.as_slice(),
            self.buckets.as_slice(),
            self.missing.as_mut_slice(),
            &mut self.ready,
        );
        true
    }

    /// Ends a node that failed. False exactly where it was not taken or has ended, and then nothing changes.
    ///
    /// One step. Takes no memory.
    pub fn bad(&mut self, n: u32) -> bool
        ensures running { result ≡ is_running self.old n }
        ensures queue { self.new ≡ (if result then with_mark self.old n Bad else self.old) }
    {
        if !self.is_running(n) {
            return false;
        }
        self.marks[n as usize] = Mark::Bad;
        self.running -= 1;
        true
    }

    /// No node is ready from now on. One step.
    pub fn halt(&mut self)
        ensures { self.new ≡ record self.old { halted = true } }
    {
        self.halted = true;
    }

    /// Whether no node is ready, and none is taken and has not ended. One step.
    pub fn over(&self) -> bool
        ensures { result ≡ is_over self.now }
    {
        (self.halted || self.ready.is_empty()) && self.running == 0
    }
}
