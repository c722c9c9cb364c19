// Loops of graphs.
use crate::graphs::push_numbers;
use crate::making::{chain_of, graph_of, lists_of};
use bulk_model::Numbers;
use case_text::{CaseError, number_of, push_number, push_str};
use dep_graph::Graph;
use loop_report::loop_of;
use std::alloc::{AllocError, Global};

fn push_loop(alloc: Global, nodes: &Option<Numbers>, out: &mut Vec<u8>) -> Result<(), AllocError> {
    match nodes {
        Some(nodes) => push_numbers(alloc, nodes.as_slice(), out),
        None => push_str(out, "none"),
    }
}

/// The loop of a graph.
pub(crate) fn answer_loop(alloc: Global, field: &str, out: &mut Vec<u8>) -> Result<(), CaseError> {
    let graph = graph_of(alloc, lists_of(alloc, field)?)?;
    Ok(push_loop(alloc, &loop_of(alloc, &graph)?, out)?)
}

fn push_length(
    alloc: Global,
    name: &str,
    nodes: &Option<Numbers>,
    out: &mut Vec<u8>,
) -> Result<(), AllocError> {
    push_str(out, name)?;
    match nodes {
        Some(nodes) => push_number(alloc, out, nodes.len() as u64),
        None => push_str(out, "none"),
    }
}

fn push_chain(alloc: Global, graph: &Graph, out: &mut Vec<u8>) -> Result<(), AllocError> {
    push_number(alloc, out, graph.edges().len() as u64)?;
    push_length(alloc, " nodes; order ", &graph.order(alloc)?, out)?;
    push_str(out, "; dependents ")?;
    push_number(alloc, out, graph.dependents(alloc)?.edges().len() as u64)?;
    push_length(alloc, "; loop ", &loop_of(alloc, graph)?, out)
}

/// How many nodes a chain has, its order, the graph of its dependents and its loop.
pub(crate) fn answer_chain(
    alloc: Global,
    count: &str,
    closed_to: &str,
    out: &mut Vec<u8>,
) -> Result<(), CaseError> {
    let count = number_of(count)?.min(50_000) as u32;
    let closed_to = number_of(closed_to)?.min(1_000_000) as u32;
    let graph = graph_of(alloc, chain_of(alloc, count, closed_to)?)?;
    Ok(push_chain(alloc, &graph, out)?)
}
