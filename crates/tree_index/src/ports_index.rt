// The index of a ports tree.
use crate::node::NodeInfos;
use moved_list::Moved;
use port_name::Names;
use std::marker::Model;

/// The index of a ports tree: its nodes, what MOVED says, and the names that are there.
///
/// Contracts see the record of its fields. Of every index it holds that the nodes stand in byte order of their names, each
/// once, and are fewer than 4,294,967,296; that no two have packages of one name; that each port has one default node; that numbers
/// in targets are those of nodes; that `names` has just the names of the nodes and of their ports; and that names, options
/// and entries are in form.
#[derive(Drop)]
pub struct Index {
    /// The nodes, in the byte order of their names.
    pub nodes: NodeInfos,
    /// What MOVED says.
    pub moved: Moved,
    /// The names of the nodes and of their ports.
    pub names: Names,
}

impl Model for Index {
    ghost use Rattle.tree_index.specs.Index.{IndexView};

    ghost Value = { IndexView };

    ghost use Rattle.tree_index.specs.Facts.{IsIndex};

    ghost view = { λ i. record { nodes = i.nodes; moved = i.moved; names = i.names } };

    ghost invariant = { λ i. IsIndex i.nodes i.names };
}
