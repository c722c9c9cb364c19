// The longest chains of dependents.
ghost use Rattle.std.specs.Prelude.{◌≡◌, ◌<◌, ℕ, length, slice_index, IsTrue, IfOk};
ghost use Rattle.std.specs.List.{All};
ghost use Rattle.dep_graph.specs.Graphs.{targets, IsGraph};
ghost use Rattle.dep_graph.specs.Order.{IsLooplessPart, is_loopless};
ghost use Rattle.dep_graph.specs.Chains.{Raised, IsLongest};

use bulk_base::NoMemory;
use bulk_model::{Edge, Edges};
use std::alloc::Global;

/// Raises the numbers at the targets of edges to a value, where they are less.
fn raise_all(numbers: &mut Vec<u32>, edges: &[Edge], value: u32)
    requires { All (λ edge. edge.to < length numbers.old.items) edges.now }
    ensures { Raised (targets edges.now) value numbers.old.items numbers.new.items }
{
    for edge in edges {
        let at = edge.to as usize;
        numbers[at] = numbers[at].max(value);
    }
}

/// For each node, the number of edges of the longest chain of dependents above it. Each node and each edge is looked at
/// once, from the end of the order.
pub(crate) fn longest_chains(
    alloc: Global,
    graph: &[Edges],
    order: &[u32],
) -> Result<Vec<u32>, NoMemory>
    requires form { IsGraph graph.now }
    requires order { IsLooplessPart graph.now order.now }
    requires loop_free { IsTrue (is_loopless graph.now) }
    ensures size { IfOk result (λ lengths. length lengths.items ≡ length graph.now) }
    ensures longest { IfOk result (λ lengths. (n : ℕ) → n < length graph.now → IsLongest graph.now n (slice_index lengths.items n)) }
{
    let mut lengths = vec![in alloc; 0; graph.len()]?;
    for done in 0..order.len() {
        let node = order[order.len() - 1 - done] as usize;
        let longer = lengths[node] + 1;
        raise_all(&mut lengths, graph[node].as_slice(), longer);
    }
    Ok(lengths)
}
