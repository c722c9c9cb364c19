// Plans of many nodes.
use crate::plans::plan_of;
use crate::ports::port;
use crate::written::{Marks, boosted_of, ignored_of};
use bulk_base::{NoMemory, Sequence};
use bulk_model::{DepKind, Edge, EdgeLists, Edges, Jobs, Plan};
use case_text::{CaseError, number_of};
use std::alloc::Global;

/// So many ports, whose names stand in the order of their numbers.
fn jobs_of(alloc: Global, count: u32) -> Result<Jobs, CaseError> {
    let mut jobs = Sequence::new(alloc);
    for n in 0..count {
        let name = format!(in alloc; "n{n:05}")?;
        jobs.push(port(alloc, name.as_str())?)?;
    }
    Ok(jobs)
}

/// The plan of these edges.
pub fn plan_with(alloc: Global, edges: EdgeLists, marks: &[Marks]) -> Result<Plan, CaseError> {
    let jobs = jobs_of(alloc, edges.len().min(100_000) as u32)?;
    let ignored = ignored_of(alloc, marks)?;
    let boosted = boosted_of(alloc, marks)?;
    plan_of(alloc, jobs, edges, ignored, boosted)
}

fn to(alloc: Global, kind: DepKind, node: u32) -> Result<Edges, NoMemory> {
    let mut edges = Sequence::new(alloc);
    edges.push(Edge { kind, to: node })?;
    Ok(edges)
}

/// Each node is built with the one before it.
fn chain(alloc: Global, count: u32) -> Result<EdgeLists, NoMemory> {
    let mut lists = Sequence::new(alloc);
    for n in 0..count {
        lists.push(if n == 0 {
            Sequence::new(alloc)
        } else {
            to(alloc, DepKind::Build, n - 1)?
        })?;
    }
    Ok(lists)
}

/// Each node runs the first.
fn fan(alloc: Global, count: u32) -> Result<EdgeLists, NoMemory> {
    let mut lists = Sequence::new(alloc);
    for n in 0..count {
        lists.push(if n == 0 {
            Sequence::new(alloc)
        } else {
            to(alloc, DepKind::Run, 0)?
        })?;
    }
    Ok(lists)
}

/// Three edges of a node, BUILD and RUN mixed, to nodes of its own group of 32 that stand before it.
fn three(alloc: Global, n: u32) -> Result<Edges, NoMemory> {
    let place = n % 32;
    let first = n - place;
    let mut edges = Sequence::new(alloc);
    if place != 0 {
        edges.push(Edge {
            kind: DepKind::Build,
            to: n - 1,
        })?;
        edges.push(Edge {
            kind: DepKind::Run,
            to: first + place / 2,
        })?;
        edges.push(Edge {
            kind: DepKind::Build,
            to: first + place / 3,
        })?;
    }
    Ok(edges)
}

/// Each node depends on three of its own group of 32, but for the first of each.
fn groups(alloc: Global, count: u32) -> Result<EdgeLists, NoMemory> {
    let mut lists = Sequence::new(alloc);
    for n in 0..count {
        lists.push(three(alloc, n)?)?;
    }
    Ok(lists)
}

/// The next of the numbers that a seed begins.
pub fn next_number(seed: &mut u64) -> u64 {
    *seed = seed
        .wrapping_mul(6364136223846793005)
        .wrapping_add(1442695040888963407);
    *seed >> 33
}

/// Edges of up to three kinds to nodes before one.
fn some_edges(alloc: Global, n: u32, seed: &mut u64) -> Result<Edges, NoMemory> {
    let mut edges = Sequence::new(alloc);
    if n != 0 {
        for _ in 0..next_number(seed) % 4 {
            edges.push(Edge {
                kind: DepKind::Run,
                to: (next_number(seed) % u64::from(n)) as u32,
            })?;
        }
    }
    Ok(edges)
}

fn some_marks(edges: &Edges, seed: &mut u64) -> Marks {
    let number = next_number(seed) % 16;
    Marks {
        ignored: number == 0 && edges.is_empty(),
        kept: number == 1,
        boosted: number == 2,
        fails: number == 3,
        given: false,
    }
}

/// Nodes with up to three edges each to nodes before them; some are ignored, kept, boosted or fail.
pub fn mixed(
    alloc: Global,
    count: u32,
    seed: &mut u64,
) -> Result<(EdgeLists, Vec<Marks>), NoMemory> {
    let mut lists = Sequence::new(alloc);
    let mut marks = Vec::new(alloc);
    for n in 0..count {
        let edges = some_edges(alloc, n, seed)?;
        marks.push(some_marks(&edges, seed))?;
        lists.push(edges)?;
    }
    Ok((lists, marks))
}

/// So many nodes of which nothing is said, but perhaps that the first is ignored.
fn marks_of(alloc: Global, count: usize, is_first_ignored: bool) -> Result<Vec<Marks>, NoMemory> {
    let mut marks = vec![in alloc; Marks::none(); count]?;
    if is_first_ignored && !marks.is_empty() {
        marks[0] = Marks {
            ignored: true,
            ..Marks::none()
        };
    }
    Ok(marks)
}

fn edges_of(alloc: Global, shape: &str, count: u32) -> Result<EdgeLists, CaseError> {
    match shape {
        "chain" => Ok(chain(alloc, count)?),
        "fan" => Ok(fan(alloc, count)?),
        "groups" => Ok(groups(alloc, count)?),
        _ => Err(CaseError::Unfit),
    }
}

/// A chain, a fan or groups of so many nodes, of which the first may be ignored.
pub fn plan_marked(
    alloc: Global,
    shape: &str,
    count: &str,
    is_first_ignored: bool,
) -> Result<Plan, CaseError> {
    let count = number_of(count)?.min(50_000) as u32;
    let edges = edges_of(alloc, shape, count)?;
    let marks = marks_of(alloc, edges.len(), is_first_ignored)?;
    plan_with(alloc, edges, marks.as_slice())
}

/// A chain, a fan or groups of so many nodes, of which nothing is said.
pub fn plan_in(alloc: Global, shape: &str, count: &str) -> Result<Plan, CaseError> {
    plan_marked(alloc, shape, count, false)
}
