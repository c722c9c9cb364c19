// What nodes of an index depend on.
use crate::indexes::good_index;
use crate::nodes::kind_name;
use bulk_model::{Depends, Edges};
use case_text::{CaseError, number_of, push_number, push_str, push_text};
use std::alloc::{AllocError, Global};
use tree_index::{Index, depends_of, edges_of};

fn push_edges(alloc: Global, edges: &Option<Edges>, out: &mut Vec<u8>) -> Result<(), AllocError> {
    let Some(edges) = edges else {
        return push_str(out, "none");
    };
    push_str(out, "edges")?;
    for edge in edges {
        push_str(out, kind_name(edge.kind))?;
        push_number(alloc, out, u64::from(edge.to))?;
    }
    Ok(())
}

fn push_depends(depends: &Option<Depends>, out: &mut Vec<u8>) -> Result<(), AllocError> {
    let Some(depends) = depends else {
        return push_str(out, "; none");
    };
    push_str(out, "; depends")?;
    for depend in depends {
        push_str(out, kind_name(depend.kind))?;
        push_text(out, &depend.node)?;
        push_str(out, " ")?;
        push_text(out, &depend.name)?;
    }
    Ok(())
}

fn push_depending(
    alloc: Global,
    index: &Index,
    node: &str,
    out: &mut Vec<u8>,
) -> Result<(), CaseError> {
    let node = number_of(node)?;
    if node >= index.nodes.len() as u64 {
        return Err(CaseError::Unfit);
    }
    push_edges(alloc, &edges_of(alloc, index, node as u32)?, out)?;
    Ok(push_depends(&depends_of(alloc, index, node as u32)?, out)?)
}

/// What the node of a number depends on, by numbers and by names.
pub(crate) fn answer_depends(
    alloc: Global,
    files: &str,
    node: &str,
    out: &mut Vec<u8>,
) -> Result<(), CaseError> {
    push_depending(alloc, &good_index(alloc, files)?, node, out)
}
