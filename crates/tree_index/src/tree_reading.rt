// The nodes of a tree, and what its MOVED says.
ghost use Rattle.std.specs.Prelude.{◌≡◌, ◌≢◌, ◌≤◌, length, Ok, Err, IsTrue, IfOk, IfErr, OnOk};
ghost use Rattle.tree_index.specs.Facts.{IsCaused, AreTreeNodes};
ghost use Rattle.tree_index.specs.Gathered.{AreWhole, IsNameList};
ghost use Rattle.bulk_model.specs.Limits.{most};
ghost use Rattle.bulk_model.specs.declared.which.Which.TheVariants.{Nodes};
ghost use Rattle.tree_index.specs.Tree.{few, accepted, nodes_in, tree_nodes};

use crate::category::read_categories;
use crate::fault::IndexError;
use crate::listing::read_list;
use crate::moved_file::read_moved_at;
use crate::node::{NodeInfo, NodeInfos};
use crate::node_map::in_name_order;
use crate::place::categories_file;
use crate::twins::refuse_twins;
use bulk_base::Texts;
use bulk_model::Which;
use conf_file::MakeConf;
use moved_list::Moved;
use outside::Tree;
use std::alloc::Global;

/// Refuses more than the most nodes: Limit of Nodes with their number.
#[tactic(auto, unfolding(crate::specs::Tree::few))]
pub(crate) fn refuse_many(nodes: &[NodeInfo]) -> Result<(), IndexError>
    ensures ok { OnOk result (few nodes.now ≡ Ok nodes.now) }
    ensures refused { IfErr result (λ e. few nodes.now ≡ Err e) }
    ensures form { OnOk result (length nodes.now ≤ most Nodes) }
    ensures quiet { IfErr result (λ e. e ≢ IndexError.TreeFault) }
{
    if nodes.len() as u64 > Which::Nodes.most() {
        return Err(IndexError::Limit {
            which: Which::Nodes,
            count: nodes.len() as u64,
        });
    }
    Ok(())
}

/// Nodes in the byte order of their names: Limit of Nodes where there are more than the most nodes; then DupName where two have
/// packages of one name, with the least node that has a twin and its least twin. O(log n) comparisons for each of n nodes.
fn accept(alloc: Global, found: NodeInfos) -> Result<NodeInfos, IndexError>
    ensures ok { IfOk result (λ nodes. accepted found ≡ Ok nodes) }
    ensures refused { IfErr result (λ e. e ≢ IndexError.NoMemory → accepted found ≡ Err e) }
    ensures form { AreWhole found → IfOk result AreTreeNodes }
    ensures few { IfOk result (λ nodes. length nodes ≤ most Nodes) }
    ensures quiet { IfErr result (λ e. e ≢ IndexError.TreeFault) }
{
    let nodes = in_name_order(alloc, found)?;
    refuse_many(nodes.as_slice())?;
    refuse_twins(alloc, nodes.as_slice())?;
    Ok(nodes)
}

// The nodes of a tree with these categories.
fn read_nodes<T: Tree>(
    alloc: Global,
    tree: &mut T,
    make: &MakeConf,
    try_broken: bool,
    categories: &Texts,
) -> Result<NodeInfos, IndexError>
    requires { IsNameList categories.now }
    ensures ok { IsTrue T.tells → IfOk result (λ nodes.
        nodes_in make.now try_broken (T.content tree.old) categories.now ≡ Ok nodes) }
    ensures refused { IsTrue T.tells → IfErr result (λ e. e ≢ IndexError.NoMemory → e ≢ IndexError.TreeFault
        → nodes_in make.now try_broken (T.content tree.old) categories.now ≡ Err e) }
    ensures form { IfOk result AreTreeNodes }
    ensures few { IfOk result (λ nodes. length nodes ≤ most Nodes) }
    ensures same { T.content tree.new ≡ T.content tree.old }
    ensures cause { IsCaused (T.faults tree.old) (T.faults tree.new) result }
{
    accept(
        alloc,
        read_categories(alloc, tree, make, try_broken, categories)?,
    )
}

/// What the tree's MOVED says, and the tree's nodes in the byte order of their names, before it is known where their
/// dependencies lead. `try_broken`: whether ports that are marked as broken are tried.
///
/// The first refusal in the order of the files: the list of categories, MOVED, then for each category in byte order its list
/// of ports and its ports in byte order; then Limit of Nodes; then DupName.
///
/// Each file is read once. O(log n) comparisons for each of n nodes.
pub(crate) fn read_tree<T: Tree>(
    alloc: Global,
    tree: &mut T,
    make: &MakeConf,
    try_broken: bool,
) -> Result<(Moved, NodeInfos), IndexError>
    ensures ok { IsTrue T.tells → IfOk result (λ listed. tree_nodes make.now try_broken (T.content tree.old) ≡ Ok listed) }
    ensures refused { IsTrue T.tells → IfErr result (λ e. e ≢ IndexError.NoMemory → e ≢ IndexError.TreeFault → tree_nodes make.now try_broken (T.content tree.old) ≡ Err e) }
    ensures form { IfOk result (λ listed. AreTreeNodes listed.1) }
    ensures few { IfOk result (λ listed. length listed.1 ≤ most Nodes) }
    ensures same { T.content tree.new ≡ T.content tree.old }
    ensures cause { IsCaused (T.faults tree.old) (T.faults tree.new) result }
{
    let categories = read_list(alloc, tree, &categories_file(alloc)?)?;
    let moved = read_moved_at(alloc, tree)?;
    let nodes = read_nodes(alloc, tree, make, try_broken, &categories)?;
    Ok((moved, nodes))
}
