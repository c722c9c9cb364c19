// The numbers that nodes of the tree have in a plan.
ghost use Rattle.std.specs.Prelude.{◌≡◌, ◌<◌, ◌^◌, ℕ, length, slice_index, IsTrue, IfOk};
ghost use Rattle.std.specs.List.{All};
ghost use Rattle.std.specs.List.Sorted.{IsStrictlyIncreasing};
ghost use Rattle.dep_graph.specs.Graphs.{has};
ghost use Rattle.plan_maker.specs.PlanEdges.{place_in};

use bulk_base::NoMemory;
use std::alloc::Global;

/// For each of so many nodes of a tree the number that it has in a plan of some of them; 0 for those that the plan has not.
pub(crate) fn number_nodes(alloc: Global, count: usize, nodes: &[u32]) -> Result<Vec<u32>, NoMemory>
    requires within { All (λ n. n < count) nodes.now }
    requires few { length nodes.now < 2 ^ 32 }
    requires order { IsStrictlyIncreasing nodes.now }
    ensures size { IfOk result (λ places. length places.items ≡ count) }
    ensures places { IfOk result (λ places. (n : ℕ) → IsTrue (has nodes.now n) → slice_index places.items n ≡ place_in nodes.now n) }
{
    let mut places = vec![in alloc; 0; count]?;
    for at in 0..nodes.len() {
        places[nodes[at] as usize] = at as u32;
    }
    Ok(places)
}
