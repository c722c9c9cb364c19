// The nodes of a ports tree.
use bulk_base::{Sequence, Switches, Text};
use bulk_model::DepKind;
use port_desc::Desc;
use port_name::Origin;

/// Where a dependency leads.
#[derive(Debug, Drop)]
pub enum At {
    /// To the node with this number.
    Node(u32),
    /// To no node of the tree: the name as the port writes it.
    Nowhere(Text),
    /// To a port that moved.
    Moved {
        /// The name as the port writes it.
        old: Text,
        /// The name that MOVED leads to, which is there.
        new: Text,
    },
}

/// A dependency of a node.
#[derive(Debug, Drop)]
pub struct Target {
    /// What it is needed for.
    pub kind: DepKind,
    /// Where it leads.
    pub at: At,
}

/// A list of dependencies.
pub type Targets = Sequence<Target>;

/// One node of the tree: a port without flavors, or one flavor of a port.
#[derive(Debug, Drop)]
pub struct NodeInfo {
    /// Its name: the origin, or the origin, `@` and the flavor.
    pub node: Text,
    /// Where its port stands.
    pub origin: Origin,
    /// The flavor, where the port has flavors.
    pub flavor: Option<Text>,
    /// Whether the node has no flavor, or the first of its port's.
    pub is_default: bool,
    /// What its port's variables say of it.
    pub desc: Desc,
    /// All options that its port defines with their states, in byte order.
    pub options: Switches,
    /// Why it is not built, where it is not.
    pub ignored: Option<Text>,
    /// What it depends on, in the order of the description's entries.
    pub targets: Targets,
}

/// A list of nodes.
pub type NodeInfos = Sequence<NodeInfo>;
