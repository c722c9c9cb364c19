// The node of a number.
ghost use Rattle.std.specs.Prelude.{◌≡◌, ◌<◌, length};
ghost use Rattle.plan_maker.specs.Jobs as jobs;
ghost use Rattle.tree_index.specs.Facts.{IsNodeInfo};

use tree_index::{Index, NodeInfo};

/// The node of a number.
pub(crate) fn node_at(index: &Index, n: u32) -> &NodeInfo
    requires { n < length index.now.nodes }
    ensures node { result.now ≡ jobs.node_at index.now n }
    ensures form { IsNodeInfo result.now }
{
    &index.nodes.as_slice()[n as usize]
}
