// Plans.
ghost use Rattle.std.specs.Prelude.{◌<◌, length};
ghost use Rattle.std.specs.List.{AllByRecursion};

use crate::refusals::push_refusal;
use crate::trees::{index_of, numbers_of, tree_of};
use bulk_base::{Files, Text};
use bulk_model::{DepKind, Edges, Job, Numbers, Plan};
use case_text::{CaseError, push_number, push_str, push_text, text_of};
use outside::MemTree;
use plan_maker::{PlanError, plan};
use std::alloc::{AllocError, Global};
use tree_index::Index;

fn kind_name(kind: DepKind) -> &'static str {
    match kind {
        DepKind::Pkg => " pkg ",
        DepKind::Fetch => " fetch ",
        DepKind::Extract => " extract ",
        DepKind::Patch => " patch ",
        DepKind::Build => " build ",
        DepKind::Lib => " lib ",
        DepKind::Run => " run ",
    }
}

fn push_node(job: &Job, out: &mut Vec<u8>) -> Result<(), AllocError> {
    push_str(out, "; ")?;
    push_text(out, &job.origin)?;
    if let Some(flavor) = &job.flavor {
        push_str(out, "@")?;
        push_text(out, flavor)?;
    }
    push_str(out, " ")?;
    push_text(out, &job.name)
}

fn push_edges(alloc: Global, edges: &Edges, out: &mut Vec<u8>) -> Result<(), AllocError> {
    for edge in edges {
        push_str(out, kind_name(edge.kind))?;
        push_number(alloc, out, u64::from(edge.to))?;
    }
    Ok(())
}

fn push_files(alloc: Global, files: &Files, out: &mut Vec<u8>) -> Result<(), AllocError> {
    for file in files {
        push_str(out, " ")?;
        push_text(out, file.path.text())?;
        push_str(out, "=")?;
        push_number(alloc, out, file.bytes.len() as u64)?;
    }
    Ok(())
}

fn push_reason(reason: &Option<Text>, out: &mut Vec<u8>) -> Result<(), AllocError> {
    let Some(reason) = reason else {
        return Ok(());
    };
    push_str(out, " (")?;
    push_text(out, reason)?;
    push_str(out, ")")
}

fn push_job(
    alloc: Global,
    plan: &Plan,
    n: usize,
    job: &Job,
    out: &mut Vec<u8>,
) -> Result<(), AllocError> {
    push_node(job, out)?;
    if plan.boosted.get(n) {
        push_str(out, " ^")?;
    }
    if let Some(reason) = plan.ignored.get(n) {
        push_reason(reason, out)?;
    }
    if let Some(edges) = plan.edges.get(n) {
        push_edges(alloc, edges, out)?;
    }
    push_files(alloc, &job.files, out)
}

fn push_wanted(alloc: Global, wanted: &Numbers, out: &mut Vec<u8>) -> Result<(), AllocError> {
    push_str(out, "wanted")?;
    for n in wanted {
        push_str(out, " ")?;
        push_number(alloc, out, u64::from(*n))?;
    }
    Ok(())
}

/// Puts a plan at the end: the wanted nodes; each node with its package's name, `^` where it is boosted, why it is ignored, its
/// edges, and its files with their lengths; and the base root. Of more than twenty nodes just how many there are.
fn push_plan(alloc: Global, plan: &Plan, out: &mut Vec<u8>) -> Result<(), AllocError> {
    push_wanted(alloc, &plan.wanted, out)?;
    if plan.jobs.len() > 20 {
        push_str(out, "; nodes ")?;
        push_number(alloc, out, plan.jobs.len() as u64)?;
    } else {
        for n in 0..plan.jobs.len() {
            if let Some(job) = plan.jobs.get(n) {
                push_job(alloc, plan, n, job, out)?;
            }
        }
    }
    push_str(out, "; base")?;
    push_files(alloc, &plan.base, out)
}

/// Puts what came of a plan at the end; behind it, how often the tree failed, if it did.
fn push_found(
    alloc: Global,
    found: &Result<Plan, PlanError>,
    out: &mut Vec<u8>,
) -> Result<(), AllocError> {
    match found {
        Ok(plan) => push_plan(alloc, plan, out),
        Err(refusal) => push_refusal(alloc, refusal, out),
    }
}

fn push_faults(alloc: Global, faults: u64, out: &mut Vec<u8>) -> Result<(), AllocError> {
    if faults == 0 {
        return Ok(());
    }
    push_str(out, "; faults ")?;
    push_number(alloc, out, faults)
}

/// The plan of nodes.
fn answer_nodes(
    alloc: Global,
    tree: &mut MemTree,
    index: &Index,
    wanted: &Numbers,
    boost: &Text,
    out: &mut Vec<u8>,
) -> Result<(), AllocError>
    requires { AllByRecursion (λ n. n < length index.now.nodes) wanted.now }
{
    let found = plan(alloc, tree, index, wanted, boost);
    push_found(alloc, &found, out)
}

/// The plan of the nodes that a field names.
fn answer_over(
    alloc: Global,
    tree: &mut MemTree,
    index: &Index,
    [wanted, boost]: [&str; 2],
    out: &mut Vec<u8>,
) -> Result<(), CaseError> {
    let boost = text_of(alloc, boost)?;
    let wanted = numbers_of(alloc, index, wanted)?;
    answer_nodes(alloc, tree, index, &wanted, &boost, out)?;
    Ok(push_faults(alloc, tree.faults(), out)?)
}

/// The same over a tree of which some calls fail.
fn answer_failing(
    alloc: Global,
    files: &str,
    index: &Index,
    [wanted, boost, fails]: [&str; 3],
    out: &mut Vec<u8>,
) -> Result<(), CaseError> {
    let mut tree = tree_of(alloc, files, fails)?;
    answer_over(alloc, &mut tree, index, [wanted, boost], out)
}

fn answer_in(
    alloc: Global,
    tree: &mut MemTree,
    files: &str,
    [wanted, boost, fails]: [&str; 3],
    out: &mut Vec<u8>,
) -> Result<(), CaseError> {
    let index = index_of(alloc, tree)?;
    if fails.is_empty() {
        answer_over(alloc, tree, &index, [wanted, boost], out)
    } else {
        answer_failing(alloc, files, &index, [wanted, boost, fails], out)
    }
}

/// The plan of the nodes that a field names, with the words of PRIORITY_BOOST and the calls that fail, or its refusal; behind it,
/// how often the tree failed, if it did.
pub(crate) fn answer_plan(
    alloc: Global,
    files: &str,
    fields: [&str; 3],
    out: &mut Vec<u8>,
) -> Result<(), CaseError> {
    let mut tree = tree_of(alloc, files, "")?;
    answer_in(alloc, &mut tree, files, fields, out)
}
