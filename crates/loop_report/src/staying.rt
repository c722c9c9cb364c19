// The nodes that stay, and where the walk goes from each.
ghost use Rattle.std.specs.Prelude.{◌≡◌, ◌<◌, ◌^◌, ℕ, false, not, min, length, map, filter, slice_index_or, IfOk};
ghost use Rattle.std.specs.Option.{unwrap_or};
ghost use Rattle.std.specs.List.{All, range_with_len};
ghost use Rattle.dep_graph.specs.Graphs.{has, targets, nodes_of, IsWithin};
ghost use Rattle.bulk_base.specs.Least.{least};
ghost use Rattle.loop_report.specs.Loops.{next_among};

use bulk_base::NoMemory;
use bulk_model::{Edge, Edges};
use std::alloc::Global;

/// For each of so many nodes, whether it is not among those that are away.
pub(crate) fn staying(alloc: Global, count: usize, away: &[u32]) -> Result<Vec<bool>, NoMemory>
    requires { All (λ n. n < count) away.now }
    ensures size { IfOk result (λ stays. length stays.items ≡ count) }
    ensures marks { IfOk result (λ stays. (n : ℕ) → n < count → slice_index_or stays.items n false ≡ not (has away.now n)) }
{
    let mut stays = vec![in alloc; true; count]?;
    for n in away {
        stays[*n as usize] = false;
    }
    Ok(stays)
}

/// The least node that stays.
pub(crate) fn first_staying(stays: &[bool]) -> Option<u32>
    requires { length stays.now < 2 ^ 32 }
    ensures { result ≡ least (filter (λ n. slice_index_or stays.now n false) (range_with_len 0 (length stays.now))) }
{
    for n in 0..stays.len() {
        if stays[n] {
            return Some(n as u32);
        }
    }
    None
}

/// The lesser of two numbers, of which the first may not be there.
fn lesser(first: Option<u32>, second: u32) -> u32
    ensures { result ≡ min (unwrap_or first second) second }
{
    first.unwrap_or(second).min(second)
}

/// The least target that stays, of a node's edges; None where no target does.
fn least_target(stays: &[bool], edges: &[Edge]) -> Option<u32>
    requires { All (λ edge. edge.to < length stays.now) edges.now }
    ensures { result ≡ least (filter (λ d. slice_index_or stays.now d false) (targets edges.now)) }
{
    let mut least = None;
    for edge in edges {
        if stays[edge.to as usize] {
            least = Some(lesser(least, edge.to));
        }
    }
    least
}

/// Where the walk goes from each node. Each node and each edge is looked at once.
pub(crate) fn steps(alloc: Global, graph: &[Edges], stays: &[bool]) -> Result<Vec<u32>, NoMemory>
    requires few { length graph.now < 2 ^ 32 }
    requires size { length stays.now ≡ length graph.now }
    requires within { IsWithin (length graph.now) graph.now }
    ensures { IfOk result (λ steps. steps.items ≡ map (next_among (λ d. slice_index_or stays.now d false) graph.now) (nodes_of graph.now)) }
{
    let mut steps = Vec::new(alloc);
    for n in 0..graph.len() {
        let node = n as u32;
        steps.push(least_target(stays, graph[n].as_slice()).unwrap_or(node))?;
    }
    Ok(steps)
}
