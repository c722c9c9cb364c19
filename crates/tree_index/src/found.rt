// What the ports that are read so far give.
ghost use Rattle.std.specs.Prelude.{◌≡◌, ◌≢◌, ◌+◌, ◌*◌, ◌++◌, IfOk, IfErr, IfSome, Ok, Err};
ghost use Rattle.tree_index.specs.Tree.{with_nodes, counted};

use crate::fault::IndexError;
use crate::node::NodeInfos;
use bulk_base::Sequence;
use bulk_model::Which;

/// The nodes of a port.
#[derive(Drop)]
pub(crate) struct PortNodes {
    pub(crate) nodes: NodeInfos,
    /// How many bytes the port's description has.
    pub(crate) size: u64,
}

/// What ports that are read one after another give.
#[derive(Drop)]
pub(crate) struct Found {
    /// Their nodes.
    pub(crate) nodes: NodeInfos,
    /// The bytes of their descriptions, those of a port counted once for each of its nodes.
    pub(crate) bytes: u64,
}

/// Bytes with those of a description that is counted so many times; None where they pass 64 bits.
fn sum_with(bytes: u64, count: usize, size: u64) -> Option<u64>
    ensures { IfSome result (λ sum. sum ≡ bytes + count * size) }
{
    (count as u64).checked_mul(size)?.checked_add(bytes)
}

/// What is found with the nodes of one more port. Limit of VarsBytes where the bytes pass their number then. No memory
/// holds so many nodes that the bytes pass 64 bits.
pub(crate) fn add_port(found: Found, port: PortNodes) -> Result<Found, IndexError>
    ensures ok { IfOk result (λ all. counted (with_nodes found port.nodes port.size) ≡ Ok all) }
    ensures refused { IfErr result (λ e. e ≢ IndexError.NoMemory
        → counted (with_nodes found port.nodes port.size) ≡ Err e) }
    ensures nodes { IfOk result (λ all. all.nodes ≡ found.nodes ++ port.nodes) }
    ensures quiet { IfErr result (λ e. e ≢ IndexError.TreeFault) }
{
    let Some(bytes) = sum_with(found.bytes, port.nodes.len(), port.size) else {
        return Err(IndexError::NoMemory);
    };
    if bytes > Which::VarsBytes.most() {
        return Err(IndexError::Limit {
            which: Which::VarsBytes,
            count: bytes,
        });
    }
    let mut nodes = found.nodes.into_vec();
    nodes.append(&mut port.nodes.into_vec())?;
    Ok(Found {
        nodes: Sequence::from_vec(nodes),
        bytes,
    })
}
