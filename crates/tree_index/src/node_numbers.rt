// The numbers of nodes, by the names that mean them.
ghost use Rattle.std.specs.Prelude.{◌<◌, ◌^◌, bytes_eq, length, IfOk, OnOk};
ghost use Rattle.tree_index.specs.Targets.{is_meant};
ghost use Rattle.tree_index.specs.Numbers.{IsNumbering, Gains};

use crate::node::NodeInfo;
use crate::place::origin_name;
use bulk_base::{NoMemory, Text, TextMap};
use std::alloc::Global;

/// Gives a name a number, where it has none.
fn put_new(numbers: &mut TextMap<u32>, name: Text, number: u32) -> Result<(), NoMemory>
    ensures { OnOk result (Gains numbers.old (λ other. bytes_eq other name) number numbers.new) }
{
    if numbers.get(&name).is_some() {
        return Ok(());
    }
    numbers.insert(name, number)?;
    Ok(())
}

/// Gives each name that means a node the node's number, where it has none.
fn put_node(
    alloc: Global,
    numbers: &mut TextMap<u32>,
    info: &NodeInfo,
    number: u32,
) -> Result<(), NoMemory>
    ensures { OnOk result (Gains numbers.old (λ name. is_meant name info.now) number numbers.new) }
{
    put_new(numbers, info.node.copy(alloc)?, number)?;
    if !info.is_default {
        return Ok(());
    }
    put_new(numbers, origin_name(alloc, &info.origin)?, number)?;
    Ok(())
}

/// The number of the first node that each name means. O(n log n) comparisons for n nodes.
pub(crate) fn number_nodes(alloc: Global, nodes: &[NodeInfo]) -> Result<TextMap<u32>, NoMemory>
    requires { length nodes.now < 2 ^ 32 }
    ensures { IfOk result (IsNumbering nodes.now) }
{
    let mut numbers = TextMap::new(alloc);
    for at in 0..nodes.len() {
        put_node(alloc, &mut numbers, &nodes[at], at as u32)?;
    }
    Ok(numbers)
}
