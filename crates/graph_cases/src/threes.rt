// Plans of three ports, and what is installed for their builds.
ghost use Rattle.std.specs.Prelude.{◌≡◌, ◌<◌, [], ◌∷◌, length, map, codes, None, IfOk};
ghost use Rattle.bulk_base.specs.Names.{IsPackageName};
ghost use Rattle.graph_cases.specs.Threes.{chain_edges, fan_edges, three_names};

use crate::graphs::push_numbers;
use crate::making::kind_named;
use bulk_base::{NoMemory, Sequence, Text};
use bulk_model::{DepKind, Edge, EdgeLists, Edges, Flags, Job, Jobs, MaybeTexts, Plan, Steps};
use case_text::{CaseError, number_of, push_str};
use dep_graph::{Collector, installs};
use std::alloc::Global;

/// A port with nothing to do.
fn job(alloc: Global, name: Text) -> Result<Job, NoMemory>
    requires { IsPackageName name }
    ensures { IfOk result (λ job. job.name ≡ name) }
{
    Ok(Job {
        name,
        origin: Text::of(alloc, b"a/x")?,
        flavor: None,
        options: Sequence::new(alloc),
        depends: Sequence::new(alloc),
        steps: Steps {
            extract: Sequence::new(alloc),
            patch: Sequence::new(alloc),
            configure: Sequence::new(alloc),
            build: Sequence::new(alloc),
            stage: Sequence::new(alloc),
        },
        files: Sequence::new(alloc),
    })
}

/// Three of them.
fn three_jobs(alloc: Global) -> Result<Jobs, NoMemory>
    ensures { IfOk result (λ jobs. map (λ job. job.name) jobs ≡ three_names) }
{
    let mut jobs = Sequence::new(alloc);
    jobs.push(job(alloc, Text::of(alloc, b"a-1")?)?)?;
    jobs.push(job(alloc, Text::of(alloc, b"b-1")?)?)?;
    jobs.push(job(alloc, Text::of(alloc, b"c-1")?)?)?;
    Ok(jobs)
}

/// One edge.
fn one_edge(alloc: Global, kind: DepKind, to: u32) -> Result<Edges, NoMemory>
    ensures { IfOk result (λ edges. edges ≡ record { kind = kind; to = to } ∷ []) }
{
    let mut edges = Sequence::new(alloc);
    edges.push(Edge { kind, to })?;
    Ok(edges)
}

/// The second depends on the first, and the third on the second.
fn chain_edges(alloc: Global, first: DepKind, second: DepKind) -> Result<EdgeLists, NoMemory>
    ensures { IfOk result (λ lists. lists ≡ chain_edges first second) }
{
    let mut lists = Sequence::new(alloc);
    lists.push(Sequence::new(alloc))?;
    lists.push(one_edge(alloc, first, 0)?)?;
    lists.push(one_edge(alloc, second, 1)?)?;
    Ok(lists)
}

/// Two edges, to the first and to the second.
fn two_edges(alloc: Global, first: DepKind, second: DepKind) -> Result<Edges, NoMemory>
    ensures { IfOk result (λ edges. edges ≡ record { kind = first; to = 0 } ∷ record { kind = second; to = 1 } ∷ []) }
{
    let mut edges = one_edge(alloc, first, 0)?;
    edges.push(Edge {
        kind: second,
        to: 1,
    })?;
    Ok(edges)
}

/// The third depends on the first and on the second.
fn fan_edges(alloc: Global, first: DepKind, second: DepKind) -> Result<EdgeLists, NoMemory>
    ensures { IfOk result (λ lists. lists ≡ fan_edges first second) }
{
    let mut lists = Sequence::new(alloc);
    lists.push(Sequence::new(alloc))?;
    lists.push(Sequence::new(alloc))?;
    lists.push(two_edges(alloc, first, second)?)?;
    Ok(lists)
}

/// Nothing is ignored.
fn three_kept(alloc: Global) -> Result<MaybeTexts, NoMemory>
    ensures { IfOk result (λ reasons. reasons ≡ None ∷ None ∷ None ∷ []) }
{
    let mut reasons = Sequence::new(alloc);
    reasons.push(None)?;
    reasons.push(None)?;
    reasons.push(None)?;
    Ok(reasons)
}

fn chain_of_three(alloc: Global, first: DepKind, second: DepKind) -> Result<Plan, NoMemory>
    ensures { IfOk result (λ plan. length plan.jobs ≡ 3) }
{
    Ok(Plan {
        jobs: three_jobs(alloc)?,
        edges: chain_edges(alloc, first, second)?,
        ignored: three_kept(alloc)?,
        wanted: Sequence::new(alloc),
        base: Sequence::new(alloc),
        boosted: Flags::none(alloc, 3)?,
    })
}

fn fan_of_three(alloc: Global, first: DepKind, second: DepKind) -> Result<Plan, NoMemory>
    ensures { IfOk result (λ plan. length plan.jobs ≡ 3) }
{
    Ok(Plan {
        jobs: three_jobs(alloc)?,
        edges: fan_edges(alloc, first, second)?,
        ignored: three_kept(alloc)?,
        wanted: Sequence::new(alloc),
        base: Sequence::new(alloc),
        boosted: Flags::none(alloc, 3)?,
    })
}

/// Puts the nodes at the end that are installed for the build of a node.
fn push_installed(
    alloc: Global,
    plan: &Plan,
    node: &str,
    out: &mut Vec<u8>,
) -> Result<(), CaseError> {
    let node = number_of(node)?;
    if node >= plan.jobs.len() as u64 {
        return Err(CaseError::Unfit);
    }
    let nodes = installs(alloc, plan, node as u32)?;
    Ok(push_numbers(alloc, nodes.as_slice(), out)?)
}

/// Puts at the end what a collector collects for a node.
fn push_next(
    alloc: Global,
    collector: &mut Collector,
    plan: &Plan,
    node: u32,
    out: &mut Vec<u8>,
) -> Result<(), NoMemory>
    requires plan { collector.old ≡ length plan.now.jobs }
    requires node { node < length plan.now.jobs }
    ensures { collector.new ≡ collector.old }
{
    let nodes = collector.collect(alloc, plan, node)?;
    push_numbers(alloc, nodes.as_slice(), out)?;
    push_str(out, ";")
}

/// Puts at the end what one collector collects for each node in turn, and then for the last and the first again.
fn push_collected(alloc: Global, plan: &Plan, out: &mut Vec<u8>) -> Result<(), NoMemory>
    requires { length plan.now.jobs ≡ 3 }
{
    let mut collector = Collector::new(alloc, plan)?;
    push_next(alloc, &mut collector, plan, 0, out)?;
    push_next(alloc, &mut collector, plan, 1, out)?;
    push_next(alloc, &mut collector, plan, 2, out)?;
    push_next(alloc, &mut collector, plan, 2, out)?;
    push_next(alloc, &mut collector, plan, 0, out)
}

fn push_of_chain(
    alloc: Global,
    first: DepKind,
    second: DepKind,
    out: &mut Vec<u8>,
) -> Result<(), NoMemory> {
    push_collected(alloc, &chain_of_three(alloc, first, second)?, out)
}

fn push_of_fan(
    alloc: Global,
    first: DepKind,
    second: DepKind,
    out: &mut Vec<u8>,
) -> Result<(), NoMemory> {
    push_collected(alloc, &fan_of_three(alloc, first, second)?, out)
}

/// What one collector collects for the nodes of the chain of three, and of the fan of three.
pub(crate) fn answer_collected(
    alloc: Global,
    first: &str,
    second: &str,
    out: &mut Vec<u8>,
) -> Result<(), CaseError> {
    let (first, second) = (kind_named(first)?, kind_named(second)?);
    push_of_chain(alloc, first, second, out)?;
    push_str(out, " fan")?;
    Ok(push_of_fan(alloc, first, second, out)?)
}

/// What is installed for a node of three, the second of which depends on the first by a kind, and the third on the second by another.
pub(crate) fn answer_chain(
    alloc: Global,
    [first, second, node]: [&str; 3],
    out: &mut Vec<u8>,
) -> Result<(), CaseError> {
    let (first, second) = (kind_named(first)?, kind_named(second)?);
    let plan = chain_of_three(alloc, first, second)?;
    push_installed(alloc, &plan, node, out)
}

/// What is installed for a node of three, the third of which depends on the first by a kind, and on the second by another.
pub(crate) fn answer_fan(
    alloc: Global,
    [first, second, node]: [&str; 3],
    out: &mut Vec<u8>,
) -> Result<(), CaseError> {
    let (first, second) = (kind_named(first)?, kind_named(second)?);
    let plan = fan_of_three(alloc, first, second)?;
    push_installed(alloc, &plan, node, out)
}
