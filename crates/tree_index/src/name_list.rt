// All names of nodes and of their ports.
ghost use Rattle.std.specs.Prelude.{◌≡◌, IfOk};
ghost use Rattle.tree_index.specs.Targets.{names_of};

use crate::node::NodeInfo;
use crate::place::origin_name;
use bulk_base::{NoMemory, Sequence, Texts};
use std::alloc::Global;

/// The name of each node and of its port, in the nodes' order.
pub(crate) fn names_of(alloc: Global, nodes: &[NodeInfo]) -> Result<Texts, NoMemory>
    ensures { IfOk result (λ names. names ≡ names_of nodes.now) }
{
    let mut names = Sequence::new(alloc);
    for info in nodes {
        names.push(info.node.copy(alloc)?)?;
        names.push(origin_name(alloc, &info.origin)?)?;
    }
    Ok(names)
}
