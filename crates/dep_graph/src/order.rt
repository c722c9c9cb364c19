// Nodes in an order in which each stands behind its dependencies.
ghost use Rattle.std.specs.Prelude.{◌≡◌, ◌<◌, ◌≤◌, ◌-◌, ◌==◌, ◌^◌, ◌∷◌, ◌++◌, [], ℕ, List, length, map, filter, slice_get, slice_index, slice_set, IfOk, OnOk, if◌then◌else◌};
ghost use Rattle.std.specs.List.{All, range_with_len};
ghost use Rattle.bulk_model.specs.declared.plan.Edge.{Edge};
ghost use Rattle.dep_graph.specs.Graphs.{IsGraph, targets, times};
ghost use Rattle.dep_graph.specs.Turned.{dependents as turned_edges};
ghost use Rattle.dep_graph.specs.Waiting.{IsWaiting};
ghost use Rattle.dep_graph.specs.Order.{IsLooplessPart};

use bulk_base::NoMemory;
use bulk_model::{Edge, Edges};
use std::alloc::Global;

/// How many of its dependencies each node waits for, and the nodes that wait for none, in the order in which they
/// stopped.
#[derive(Drop)]
struct Waiting {
    open: Vec<usize>,
    order: Vec<u32>,
}

/// How many edges each node has.
fn edge_counts(alloc: Global, graph: &[Edges]) -> Result<Vec<usize>, NoMemory>
    ensures { IfOk result (λ counts. counts.items ≡ map (λ edges. length edges) graph.now) }
{
    let mut counts = Vec::new(alloc);
    for edges in graph {
        counts.push(edges.len())?;
    }
    Ok(counts)
}

/// The nodes whose count is 0, ascending.
fn places_of_zero(alloc: Global, counts: &[usize]) -> Result<Vec<u32>, NoMemory>
    requires { length counts.now < 2 ^ 32 }
    ensures { IfOk result (λ nodes. nodes.items ≡ filter (λ n. slice_index counts.now n == 0) (range_with_len 0 (length counts.now))) }
{
    let mut nodes = Vec::new(alloc);
    for n in 0..counts.len() {
        if counts[n] == 0 {
            nodes.push(n as u32)?;
        }
    }
    Ok(nodes)
}

impl Waiting {
    /// Each node waits for all its dependencies.
    fn new(alloc: Global, graph: &[Edges]) -> Result<Waiting, NoMemory>
        requires { IsGraph graph.now }
        ensures { IfOk result (λ waiting. IsWaiting graph.now 0 [] waiting.open.items waiting.order.items) }
    {
        let open = edge_counts(alloc, graph)?;
        let order = places_of_zero(alloc, open.as_slice())?;
        Ok(Waiting { open, order })
    }

    /// The node at a place of the order, from 0; None past the last.
    fn get(&self, at: usize) -> Option<u32>
        ensures { result ≡ slice_get self.now.order.items at }
    {
        self.order.get(at).copied()
    }

    /// A node waits for one dependency less.
    fn close(&mut self, node: u32) -> Result<(), NoMemory>
        requires node { node < length self.old.open.items }
        requires waits { 0 < slice_index self.old.open.items node }
        ensures open { OnOk result (self.new.open.items ≡ slice_set self.old.open.items node (slice_index self.old.open.items node - 1)) }
        ensures order { OnOk result (self.new.order.items ≡ (if slice_index self.old.open.items node == 1 then self.old.order.items ++ node ∷ [] else self.old.order.items)) }
    {
        let open = self.open[node as usize] - 1;
        self.open[node as usize] = open;
        if open == 0 {
            self.order.push(node)?;
        }
        Ok(())
    }

    /// The dependents of a node wait for it no more.
    fn close_all(&mut self, dependents: &[Edge]) -> Result<(), NoMemory>
        requires within { All (λ edge. edge.to < length self.old.open.items) dependents.now }
        requires waits { (n : ℕ) → n < length self.old.open.items → times (targets dependents.now) n ≤ slice_index self.old.open.items n }
        ensures { OnOk result ((graph : List (List Edge)) → (first : ℕ) → IsWaiting graph first (targets dependents.now) self.old.open.items self.old.order.items
            → IsWaiting graph first [] self.new.open.items self.new.order.items) }
    {
        for edge in dependents {
            self.close(edge.to)?;
        }
        Ok(())
    }
}

/// The nodes that no loop holds up, each once, behind all its dependencies. Each node and each edge is looked at once.
pub(crate) fn loopless_part(
    alloc: Global,
    graph: &[Edges],
    dependents: &[Edges],
) -> Result<Vec<u32>, NoMemory>
    requires graph { IsGraph graph.now }
    requires dependents { IsGraph dependents.now }
    requires turned { dependents.now ≡ turned_edges graph.now }
    ensures { IfOk result (λ nodes. IsLooplessPart graph.now nodes.items) }
{
    let mut waiting = Waiting::new(alloc, graph)?;
    let mut at = 0;
    while let Some(node) = waiting.get(at) {
        waiting.close_all(dependents[node as usize].as_slice())?;
        at += 1;
    }
    Ok(waiting.order)
}
