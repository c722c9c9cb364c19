// Orders, chains of dependents, what is reached, and dependents.
ghost use Rattle.std.specs.Prelude.{◌<◌, length, IsTrue};
ghost use Rattle.std.specs.List.{All};

use crate::making::{graph_of, lists_of};
use bulk_base::Sequence;
use bulk_model::{DepKind, Edge, Edges, Numbers};
use case_text::{CaseError, number_of, push_number, push_str};
use dep_graph::Graph;
use std::alloc::{AllocError, Global};

/// Puts numbers at the end, each behind a blank.
pub(crate) fn push_numbers(
    alloc: Global,
    numbers: &[u32],
    out: &mut Vec<u8>,
) -> Result<(), AllocError> {
    for number in numbers {
        push_str(out, " ")?;
        push_number(alloc, out, u64::from(*number))?;
    }
    Ok(())
}

fn kind_letter(kind: DepKind) -> &'static str {
    match kind {
        DepKind::Pkg => " p",
        DepKind::Fetch => " f",
        DepKind::Extract => " e",
        DepKind::Patch => " a",
        DepKind::Build => " b",
        DepKind::Lib => " l",
        DepKind::Run => " r",
    }
}

fn push_edges(alloc: Global, edges: &[Edge], out: &mut Vec<u8>) -> Result<(), AllocError> {
    for edge in edges {
        push_str(out, kind_letter(edge.kind))?;
        push_number(alloc, out, u64::from(edge.to))?;
    }
    Ok(())
}

fn push_lists(alloc: Global, lists: &[Edges], out: &mut Vec<u8>) -> Result<(), AllocError> {
    for edges in lists {
        push_edges(alloc, edges.as_slice(), out)?;
        push_str(out, ";")?;
    }
    Ok(())
}

/// Whether each node of an order stands behind its dependencies, and all nodes are there.
fn is_order(alloc: Global, lists: &[Edges], order: &[u32]) -> Result<bool, AllocError> {
    let mut seen = vec![in alloc; false; lists.len()]?;
    let mut good = order.len() == lists.len();
    for node in order {
        let at = *node as usize;
        if at < lists.len() && at < seen.len() {
            good = good
                && !seen[at]
                && lists[at].iter().all(|edge| {
                    seen.get(edge.to as usize).copied().unwrap_or(false)
                });
            seen[at] = true;
        }
    }
    Ok(good)
}

/// Puts at the end whether there is an order, and the longest chains where there is one.
fn push_order(alloc: Global, graph: &Graph, out: &mut Vec<u8>) -> Result<(), AllocError> {
    match graph.order(alloc)? {
        Some(order) => {
            let good = is_order(alloc, graph.edges().as_slice(), order.as_slice())?;
            push_str(
                out,
                if good {
                    "order; chains"
                } else {
                    "no such order; chains"
                },
            )?;
            push_numbers(alloc, graph.chains(alloc)?.as_slice(), out)
        }
        None => push_str(out, "none"),
    }
}

fn push_graph(alloc: Global, graph: &Graph, out: &mut Vec<u8>) -> Result<(), AllocError> {
    push_order(alloc, graph, out)?;
    push_str(out, "; dependents")?;
    let dependents = graph.dependents(alloc)?;
    push_lists(alloc, dependents.edges().as_slice(), out)
}

/// Whether a graph has an order; the longest chains of dependents; and the graph of dependents.
pub(crate) fn answer_graph(alloc: Global, field: &str, out: &mut Vec<u8>) -> Result<(), CaseError> {
    let graph = graph_of(alloc, lists_of(alloc, field)?)?;
    Ok(push_graph(alloc, &graph, out)?)
}

fn nodes_of(alloc: Global, field: &str) -> Result<Numbers, CaseError> {
    let mut nodes = Sequence::new(alloc);
    for word in field.split(' ') {
        nodes.push(number_of(word)?.min(1_000_000) as u32)?;
    }
    Ok(nodes)
}

fn are_nodes(lists: &[Edges], nodes: &[u32]) -> bool
    ensures { IsTrue result → All (λ n. n < length lists.now) nodes.now }
{
    nodes.iter().all(|node| (*node as usize) < lists.len())
}

/// What some nodes reach. Unfit where one is no node.
pub(crate) fn answer_reach(
    alloc: Global,
    field: &str,
    from: &str,
    out: &mut Vec<u8>,
) -> Result<(), CaseError> {
    let graph = graph_of(alloc, lists_of(alloc, field)?)?;
    let from = nodes_of(alloc, from)?;
    if !are_nodes(graph.edges().as_slice(), from.as_slice()) {
        return Err(CaseError::Unfit);
    }
    let reached = graph.reach(alloc, from.as_slice())?;
    Ok(push_numbers(alloc, reached.as_slice(), out)?)
}
