// What is to be built, in which order it may be, and what is kept.
use crate::depend::DepKind;
use crate::flags::Flags;
use crate::job::Jobs;
use crate::package::Package;
use crate::shared::Shared;
use bulk_base::{Files, Sequence, Text};
use std::marker::Model;

/// A list of numbers of nodes.
pub type Numbers = Sequence<u32>;

/// A dependency of a node on the node with that number.
#[derive(Clone, Copy, Debug, PartialEq, Eq)]
pub struct Edge {
    /// What the node is needed for.
    pub kind: DepKind,
    /// The number of the node that is needed.
    pub to: u32,
}

/// The dependencies of one node.
pub type Edges = Sequence<Edge>;

/// The dependencies of each node.
pub type EdgeLists = Sequence<Edges>;

/// A text for each node that has one.
pub type MaybeTexts = Sequence<Option<Text>>;

/// A package for each node that has one.
pub type MaybePackages = Sequence<Option<Shared<Package>>>;

/// The needed nodes, numbered from 0 in the byte order of their names.
///
/// Contracts see the record of its fields. Of every plan it holds that it has fewer than 4,294,967,296 jobs and as many
/// edge lists, reasons and marks, that targets and wanted nodes are nodes, that ignored nodes have no edges, that there is no
/// loop, that package names are distinct, and that the base root leaves `local/`, `work/` and `stage/` free.
#[derive(Debug, Drop)]
pub struct Plan {
    /// What decides each node's build.
    pub jobs: Jobs,
    /// The dependencies of each node.
    pub edges: EdgeLists,
    /// Why a node is ignored, where it is.
    pub ignored: MaybeTexts,
    /// The nodes that were asked for.
    pub wanted: Numbers,
    /// The base root, which stands in every room.
    pub base: Files,
    /// The nodes that are to be built before others.
    pub boosted: Flags,
}

impl Model for Plan {
    ghost use Rattle.bulk_model.specs.PlanView.{PlanView};

    ghost Value = { PlanView };

    ghost use Rattle.bulk_model.specs.PlanFacts.{IsPlan};

    ghost view = { λ p. record {
      jobs = p.jobs;
      edges = p.edges;
      ignored = p.ignored;
      wanted = p.wanted;
      base = p.base;
      boosted = p.boosted;
    } };

    ghost invariant = { λ p. IsPlan (record {
      jobs = p.jobs;
      edges = p.edges;
      ignored = p.ignored;
      wanted = p.wanted;
      base = p.base;
      boosted = p.boosted;
    }) };
}

/// The package that is kept at each node that has one.
#[derive(Debug, Drop)]
pub struct Kept {
    /// One place per node.
    pub packages: MaybePackages,
}
