// Nodes that have packages of one name.
ghost use Rattle.std.specs.Prelude.{◌≡◌, ◌≢◌, ◌<◌, ◌+◌, ℕ, List, Ok, Err, IfOk, IfErr, OnOk, length, map, drop, bytes_eq};
ghost use Rattle.std.specs.List.{IsDistinct};
ghost use Rattle.tree_index.specs.Tree.{apart};
ghost use Rattle.tree_index.specs.Twins.{IsSeen, IsFirstTwins};

use crate::fault::IndexError;
use crate::node::NodeInfo;
use bulk_base::{NoMemory, Text, TextMap};
use std::alloc::Global;

/// Two nodes by their numbers, the lesser first.
#[derive(Clone, Copy)]
struct Twins {
    least: usize,
    other: usize,
}

// The first twins from a node on, where the least of each package's nodes behind it is seen, and those behind it are found.
fn twins_from(
    nodes: &[NodeInfo],
    at: usize,
    seen: &TextMap<usize>,
    found: Option<Twins>,
) -> Option<Twins>
    requires within { at < length nodes.now }
    requires seen { IsSeen nodes.now (at + 1) seen.now }
    requires found { IsFirstTwins nodes.now (at + 1) found }
    ensures { IsFirstTwins nodes.now at result }
{
    match seen.get(&nodes[at].desc.name) {
        Some(other) => Some(Twins {
            least: at,
            other: *other,
        }),
        None => found,
    }
}

// The first node that shares its package's name with a later one, and the first such. O(log n) comparisons for each of n nodes.
fn first_twins(alloc: Global, nodes: &[NodeInfo]) -> Result<Option<Twins>, NoMemory>
    ensures { IfOk result (IsFirstTwins nodes.now 0) }
{
    let mut seen = TextMap::new(alloc);
    let mut found = None;
    for at in (0..nodes.len()).rev() {
        found = twins_from(nodes, at, &seen, found);
        seen.insert(nodes[at].desc.name.copy(alloc)?, at)?;
    }
    Ok(found)
}

/// Refuses nodes of which two have packages of one name: DupName with the first node that shares its package's name with
/// another, and the first of the others. O(log n) comparisons for each of n nodes.
pub(crate) fn refuse_twins(alloc: Global, nodes: &[NodeInfo]) -> Result<(), IndexError>
    ensures ok { OnOk result (apart nodes.now ≡ Ok nodes.now) }
    ensures refused { IfErr result (λ e. e ≢ IndexError.NoMemory → apart nodes.now ≡ Err e) }
    ensures form { OnOk result (IsDistinct bytes_eq (map (λ node. node.desc.name) nodes.now)) }
    ensures quiet { IfErr result (λ e. e ≢ IndexError.TreeFault) }
{
    match first_twins(alloc, nodes)? {
        None => Ok(()),
        Some(twins) => {
            let least = &nodes[twins.least];
            Err(IndexError::DupName {
                a: least.node.copy(alloc)?,
                b: nodes[twins.other].node.copy(alloc)?,
                name: least.desc.name.copy(alloc)?,
            })
        }
    }
}
