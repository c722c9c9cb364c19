// A plan but for its jobs and its base root.
ghost use Rattle.std.specs.Prelude.{◌≡◌, ◌≢◌, ◌<◌, ◌≤◌, length, map, IsTrue, Ok, Err, OnOk, IfOk, IfErr};
ghost use Rattle.std.specs.List.{All};
ghost use Rattle.bulk_model.specs.PlanFacts.{IsPlan};
ghost use Rattle.dep_graph.specs.Graphs.{has};
ghost use Rattle.plan_maker.specs.Boosts.{is_boosted};
ghost use Rattle.plan_maker.specs.Edges.{AreNeeded};
ghost use Rattle.plan_maker.specs.Jobs as jobs;
ghost use Rattle.plan_maker.specs.Nodes.{AreNodes};
ghost use Rattle.plan_maker.specs.Needed as needs;
ghost use Rattle.plan_maker.specs.Outlines.{IsOutline, plan_by};
ghost use Rattle.plan_maker.specs.PlanEdges as graphs;
ghost use Rattle.plan_maker.specs.Plans as plans;

use crate::boost::boosted;
use crate::finding::node_at;
use crate::graph::{plan_edges, refuse_loop};
use crate::lost::first_lost;
use crate::needed::needed;
use crate::numbering::number_nodes;
use bulk_base::{Files, NoMemory, Sequence, Text, copy_of};
use bulk_model::{EdgeLists, Flags, Jobs, MaybeTexts, Numbers, Plan, Which};
use job_files::PlanError;
use std::alloc::Global;
use tree_index::Index;

/// A plan but for its jobs and its base root.
#[derive(Drop)]
pub(crate) struct Outline {
    /// The needed nodes, by their numbers in the tree.
    pub(crate) nodes: Numbers,
    /// The dependencies of each, in the plan's numbers.
    pub(crate) edges: EdgeLists,
    /// Why each is ignored, where it is.
    pub(crate) ignored: MaybeTexts,
    /// The wanted nodes, in the plan's numbers.
    pub(crate) wanted: Numbers,
    /// The nodes that are to be built before others.
    pub(crate) boosted: Flags,
}

/// The needed nodes: refused where a dependency of one leads to no node, then where there are too many.
fn few_nodes(alloc: Global, index: &Index, wanted: &Numbers) -> Result<Numbers, PlanError>
    requires { AreNodes index.now wanted.now }
    ensures nodes { IfOk result (λ nodes. nodes ≡ needs.needed index.now wanted.now) }
    ensures needed { IfOk result (AreNeeded index.now) }
    ensures begun { IfOk result (λ nodes. All (λ n. IsTrue (has nodes n)) wanted.now) }
    ensures within { IfOk result (AreNodes index.now) }
    ensures few { IfOk result (λ nodes. length nodes ≤ 6144) }
    ensures ok { OnOk result (plans.few_nodes index.now wanted.now ≡ Ok (needs.needed index.now wanted.now)) }
    ensures refused { IfErr result (λ e. e ≢ PlanError.NoMemory → plans.few_nodes index.now wanted.now ≡ Err e) }
    ensures quiet { IfErr result (λ e. e ≢ PlanError.TreeFault) }
{
    let nodes = needed(alloc, index, wanted)?;
    if let Some(lost) = first_lost(alloc, index, nodes.as_slice())? {
        return Err(lost);
    }
    if nodes.len() as u64 > Which::PlanNodes.most() {
        return Err(PlanError::Limit {
            which: Which::PlanNodes,
            count: nodes.len() as u64,
        });
    }
    Ok(nodes)
}

/// Why each of some nodes is ignored, where it is.
fn reasons(alloc: Global, index: &Index, nodes: &[u32]) -> Result<MaybeTexts, NoMemory>
    requires { AreNodes index.now nodes.now }
    ensures { IfOk result (λ reasons. reasons ≡ map (λ n. (jobs.node_at index.now n).ignored) nodes.now) }
{
    let mut reasons = Sequence::new(alloc);
    for n in nodes {
        reasons.push(copy_of(alloc, node_at(index, *n).ignored.as_ref())?)?;
    }
    Ok(reasons)
}

/// The numbers of wanted nodes in the plan.
fn places_of(
    alloc: Global,
    index: &Index,
    nodes: &[u32],
    wanted: &[u32],
) -> Result<Numbers, NoMemory>
    requires needed { AreNeeded index.now nodes.now }
    requires begun { All (λ n. IsTrue (has nodes.now n)) wanted.now }
    ensures { IfOk result (λ places. places ≡ map (graphs.place_in nodes.now) wanted.now) }
{
    let numbers = number_nodes(alloc, index.nodes.len(), nodes)?;
    let mut places = Sequence::new(alloc);
    for n in wanted {
        places.push(numbers[*n as usize])?;
    }
    Ok(places)
}

/// The outline of nodes with their edges.
fn outline_of(
    alloc: Global,
    index: &Index,
    wanted: &Numbers,
    boost: &Text,
    nodes: Numbers,
    edges: EdgeLists,
) -> Result<Outline, NoMemory>
    requires within { AreNodes index.now nodes }
    requires needed { AreNeeded index.now nodes }
    requires begun { All (λ n. IsTrue (has nodes n)) wanted.now }
    ensures nodes { IfOk result (λ outline. outline.nodes ≡ nodes) }
    ensures edges { IfOk result (λ outline. outline.edges ≡ edges) }
    ensures ignored { IfOk result (λ outline. outline.ignored ≡ map (λ n. (jobs.node_at index.now n).ignored) nodes) }
    ensures wanted { IfOk result (λ outline. outline.wanted ≡ map (graphs.place_in nodes) wanted.now) }
    ensures boosted { IfOk result (λ outline. outline.boosted ≡ map (λ n. is_boosted boost.now (jobs.node_at index.now n).desc.name) nodes) }
{
    let ignored = reasons(alloc, index, nodes.as_slice())?;
    let wanted = places_of(alloc, index, nodes.as_slice(), wanted.as_slice())?;
    let boosted = boosted(alloc, index, nodes.as_slice(), boost)?;
    Ok(Outline {
        nodes,
        edges,
        ignored,
        wanted,
        boosted,
    })
}

/// A plan but for its jobs and its base root, or the first refusal that needs no file.
#[tactic(auto, unfolding(crate::specs::Plans::plan_nodes))]
pub(crate) fn make_outline(
    alloc: Global,
    index: &Index,
    wanted: &Numbers,
    boost: &Text,
) -> Result<Outline, PlanError>
    requires { AreNodes index.now wanted.now }
    ensures outline { IfOk result (IsOutline index.now wanted.now boost.now) }
    ensures allowed { OnOk result (plans.plan_nodes index.now wanted.now ≡ Ok (needs.needed index.now wanted.now)) }
    ensures refused { IfErr result (λ e. e ≢ PlanError.NoMemory → plans.plan_nodes index.now wanted.now ≡ Err e) }
    ensures quiet { IfErr result (λ e. e ≢ PlanError.TreeFault) }
{
    let nodes = few_nodes(alloc, index, wanted)?;
    let edges = plan_edges(alloc, index, nodes.as_slice())?;
    refuse_loop(alloc, index, nodes.as_slice(), &edges)?;
    Ok(outline_of(alloc, index, wanted, boost, nodes, edges)?)
}

/// The plan with an outline, jobs and a base root.
pub(crate) fn complete(outline: Outline, jobs: Jobs, base: Files) -> Plan
    requires { IsPlan (plan_by outline jobs base) }
    ensures { result ≡ plan_by outline jobs base }
{
    let Outline {
        nodes: _,
        edges,
        ignored,
        wanted,
        boosted,
    } = outline;
    Plan {
        jobs,
        edges,
        ignored,
        wanted,
        base,
        boosted,
    }
}
