// Nodes by their names.
ghost use Rattle.std.specs.Prelude.{◌≡◌, IfOk, OnOk};
ghost use Rattle.std.specs.Ordering.{nat_cmp};
ghost use Rattle.std.specs.Cmp.Lexicographic.{slice_cmp};
ghost use Rattle.std.specs.BTreeMap.{insert_entry};
ghost use Rattle.std.specs.FinMap.{entries};
ghost use Rattle.tree_index.specs.Tree as trees;

use crate::node::{NodeInfo, NodeInfos};
use bulk_base::{NoMemory, Sequence, Text};
use std::alloc::Global;
use std::collections::BTreeMap;

// Puts a node under its name.
fn put_under_name(
    alloc: Global,
    map: &mut BTreeMap<Text, NodeInfo>,
    node: NodeInfo,
) -> Result<(), NoMemory>
    ensures { OnOk result (map.new.entries ≡ insert_entry (slice_cmp nat_cmp) map.old.entries node.node node) }
{
    match node.node.copy(alloc) {
        Ok(name) => {
            drop(map.insert(name, node)?);
            Ok(())
        }
        Err(refused) => {
            drop(node);
            Err(refused)
        }
    }
}

// Nodes by their names; of nodes with one name the last.
fn by_name(alloc: Global, nodes: NodeInfos) -> Result<BTreeMap<Text, NodeInfo>, NoMemory>
    ensures { IfOk result (λ map. map.entries ≡ entries (trees.by_name nodes)) }
{
    let mut map = BTreeMap::new(alloc);
    for node in nodes.into_vec() {
        put_under_name(alloc, &mut map, node)?;
    }
    Ok(map)
}

/// The nodes in the byte order of their names, of nodes with one name the last. O(log n) comparisons for each of n nodes.
#[tactic(auto, unfolding(crate::specs::Tree::ordered))]
pub(crate) fn in_name_order(alloc: Global, nodes: NodeInfos) -> Result<NodeInfos, NoMemory>
    ensures { IfOk result (λ sorted. sorted ≡ trees.ordered nodes) }
{
    let sorted: Vec<NodeInfo> = by_name(alloc, nodes)?.into_values().collect(alloc)?;
    Ok(Sequence::from_vec(sorted))
}
