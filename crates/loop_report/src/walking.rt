// A walk, and once round the part that it repeats.
ghost use Rattle.std.specs.Prelude.{◌≡◌, ◌<◌, Some, length, slice_index, IfOk};
ghost use Rattle.std.specs.Fn.{iterate};
ghost use Rattle.std.specs.List.{All};
ghost use Rattle.bulk_base.specs.Least.{least};
ghost use Rattle.loop_report.specs.Walks.{repeated, round, loop_from};

use bulk_base::NoMemory;
use std::alloc::Global;

/// Where a walk is after as many steps as there are nodes, which is in the part that it repeats.
fn far_along(steps: &[u32], first: u32) -> u32
    requires steps { All (λ n. n < length steps.now) steps.now }
    requires first { first < length steps.now }
    ensures place { result ≡ iterate (slice_index steps.now) (length steps.now) first }
    ensures below { result < length steps.now }
{
    let mut at = first;
    for _ in 0..steps.len() {
        at = steps[at as usize];
    }
    at
}

/// The walk from a node on, until it comes to that node again, and for no more steps than there are nodes.
fn once_round(alloc: Global, steps: &[u32], from: u32) -> Result<Vec<u32>, NoMemory>
    requires steps { All (λ n. n < length steps.now) steps.now }
    requires from { from < length steps.now }
    ensures { IfOk result (λ nodes. nodes.items ≡ round (slice_index steps.now) (length steps.now) from) }
{
    let mut nodes = Vec::new(alloc);
    nodes.push(from)?;
    let mut at = steps[from as usize];
    for _ in 0..steps.len() {
        if at == from {
            return Ok(nodes);
        }
        nodes.push(at)?;
        at = steps[at as usize];
    }
    Ok(nodes)
}

/// The least of some numbers.
fn least_of(numbers: &[u32]) -> Option<u32>
    ensures { result ≡ least numbers.now }
{
    numbers.iter().copied().min()
}

/// The least node of the part that the walk from a node repeats.
fn loop_start(alloc: Global, steps: &[u32], first: u32) -> Result<u32, NoMemory>
    requires steps { All (λ n. n < length steps.now) steps.now }
    requires first { first < length steps.now }
    ensures least { IfOk result (λ n. least (repeated (slice_index steps.now) (length steps.now) first) ≡ Some n) }
    ensures below { IfOk result (λ n. n < length steps.now) }
{
    let within = far_along(steps, first);
    let part = once_round(alloc, steps, within)?;
    Ok(least_of(part.as_slice()).unwrap_or(within))
}

/// The part that the walk from a node repeats, turned to begin at its least node. Takes three times as many steps as there
/// are nodes, at most.
pub(crate) fn repeated_part(alloc: Global, steps: &[u32], first: u32) -> Result<Vec<u32>, NoMemory>
    requires steps { All (λ n. n < length steps.now) steps.now }
    requires first { first < length steps.now }
    ensures { IfOk result (λ nodes. nodes.items ≡ loop_from (slice_index steps.now) (length steps.now) (Some first)) }
{
    let start = loop_start(alloc, steps, first)?;
    once_round(alloc, steps, start)
}
