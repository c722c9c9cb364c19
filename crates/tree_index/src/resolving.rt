// Where the dependencies of nodes lead.
ghost use Rattle.std.specs.Prelude.{◌≡◌, List, map, IfOk};
ghost use Rattle.tree_index.specs.declared.node.NodeInfo.{NodeInfo as Info};
ghost use Rattle.tree_index.specs.Targets as dependencies;
ghost use Rattle.tree_index.specs.Targets.{target_of, with_targets};
ghost use Rattle.tree_index.specs.Numbers.{AreOf};

use crate::node::{At, NodeInfo, NodeInfos, Target, Targets};
use bulk_base::{NoMemory, Sequence, Text, TextMap};
use moved_list::{Follow, Moved, follow};
use port_desc::Entry;
use port_name::Names;
use std::alloc::Global;

/// Where a name that means no node leads, by where MOVED leads it.
fn resolve_by_moved(alloc: Global, name: &Text, answer: Follow) -> Result<At, NoMemory>
    ensures { IfOk result (λ at. at ≡ dependencies.moved_to name.now answer) }
{
    match answer {
        Follow::At(new) => Ok(At::Moved {
            old: name.copy(alloc)?,
            new,
        }),
        _ => Ok(At::Nowhere(name.copy(alloc)?)),
    }
}

/// Where a name leads: to the node that it means, else where MOVED leads it.
fn resolve_name(
    alloc: Global,
    numbers: &TextMap<u32>,
    names: &Names,
    moved: &Moved,
    name: &Text,
) -> Result<At, NoMemory>
    ensures { IfOk result (λ at. (nodes : List Info) → AreOf nodes numbers.now names.now → at ≡ dependencies.destination nodes moved.now name.now) }
{
    match numbers.get(name) {
        Some(number) => Ok(At::Node(*number)),
        None => resolve_by_moved(alloc, name, follow(alloc, moved, name, names)?),
    }
}

/// The targets of entries, one by one.
fn resolve_entries(
    alloc: Global,
    numbers: &TextMap<u32>,
    names: &Names,
    moved: &Moved,
    entries: &[Entry],
) -> Result<Targets, NoMemory>
    ensures { IfOk result (λ targets. (nodes : List Info) → AreOf nodes numbers.now names.now → targets ≡ map (target_of nodes moved.now) entries.now) }
{
    let mut targets = Sequence::new(alloc);
    for entry in entries {
        targets.push(Target {
            kind: entry.kind,
            at: resolve_name(alloc, numbers, names, moved, &entry.target)?,
        })?;
    }
    Ok(targets)
}

/// A node with the targets of its entries.
fn resolve_node(
    alloc: Global,
    numbers: &TextMap<u32>,
    names: &Names,
    moved: &Moved,
    mut info: NodeInfo,
) -> Result<NodeInfo, NoMemory>
    ensures { IfOk result (λ resolved. (nodes : List Info) → AreOf nodes numbers.now names.now → resolved ≡ with_targets info (dependencies.targets_of nodes moved.now info)) }
{
    match resolve_entries(alloc, numbers, names, moved, info.desc.entries.as_slice()) {
        Ok(targets) => {
            info.targets = targets;
            Ok(info)
        }
        Err(refused) => {
            drop(info);
            Err(refused)
        }
    }
}

/// Nodes with the targets of their entries, by the numbers of all nodes, their names and what MOVED says.
///
/// NoMemory for want of memory alone. Each target costs a look-up of its name, and where it means no node one more for
/// each name that MOVED leads it to.
pub(crate) fn resolve_dependencies(
    alloc: Global,
    numbers: &TextMap<u32>,
    names: &Names,
    moved: &Moved,
    nodes: NodeInfos,
) -> Result<NodeInfos, NoMemory>
    ensures { IfOk result (λ resolved. (all : List Info) → AreOf all numbers.now names.now → resolved ≡ map (λ node. with_targets node (dependencies.targets_of all moved.now node)) nodes) }
{
    let mut resolved = Sequence::new(alloc);
    for info in nodes.into_vec() {
        resolved.push(resolve_node(alloc, numbers, names, moved, info)?)?;
    }
    Ok(resolved)
}
