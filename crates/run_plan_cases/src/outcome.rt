// What a run plans, as a line.
use bulk_base::{Files, Text};
use bulk_model::{DepKind, Edges, Job, Notices, Plan};
use case_text::{push_number, push_str, push_text};
use command_words::Clean;
use run_plan::Planned;
use std::alloc::{AllocError, Global};

fn kind_name(kind: DepKind) -> &'static str {
    match kind {
        DepKind::Pkg => " pkg ",
        DepKind::Fetch => " fetch ",
        DepKind::Extract => " extract ",
        DepKind::Patch => " patch ",
        DepKind::Build => " build ",
        DepKind::Lib => " lib ",
        DepKind::Run => " run ",
    }
}

fn push_asked(alloc: Global, planned: &Planned, out: &mut Vec<u8>) -> Result<(), AllocError> {
    push_str(out, "builders ")?;
    push_number(alloc, out, planned.builders)?;
    push_str(
        out,
        match planned.clean {
            Clean::Nothing => "",
            Clean::Wanted => " clean wanted",
            Clean::All => " clean all",
        },
    )?;
    push_str(out, if planned.dry_run { " dry" } else { "" })
}

fn push_node(job: &Job, out: &mut Vec<u8>) -> Result<(), AllocError> {
    push_str(out, "; ")?;
    push_text(out, &job.origin)?;
    if let Some(flavor) = &job.flavor {
        push_str(out, "@")?;
        push_text(out, flavor)?;
    }
    push_str(out, " ")?;
    push_text(out, &job.name)
}

fn push_edges(alloc: Global, edges: &Edges, out: &mut Vec<u8>) -> Result<(), AllocError> {
    for edge in edges {
        push_str(out, kind_name(edge.kind))?;
        push_number(alloc, out, u64::from(edge.to))?;
    }
    Ok(())
}

fn push_files(files: &Files, out: &mut Vec<u8>) -> Result<(), AllocError> {
    for file in files {
        push_str(out, " +")?;
        push_text(out, file.path.text())?;
    }
    Ok(())
}

fn push_reason(ignored: Option<&Option<Text>>, out: &mut Vec<u8>) -> Result<(), AllocError> {
    let Some(Some(reason)) = ignored else {
        return Ok(());
    };
    push_str(out, " (")?;
    push_text(out, reason)?;
    push_str(out, ")")
}

/// Puts the marks of the node of a number at the end: wanted, boosted, why it is ignored.
fn push_marks(plan: &Plan, n: usize, out: &mut Vec<u8>) -> Result<(), AllocError> {
    if plan.wanted.iter().any(|wanted| *wanted as usize == n) {
        push_str(out, " wanted")?;
    }
    if plan.boosted.get(n) {
        push_str(out, " boosted")?;
    }
    push_reason(plan.ignored.get(n), out)
}

fn push_nodes(alloc: Global, plan: &Plan, out: &mut Vec<u8>) -> Result<(), AllocError> {
    for (n, job) in plan.jobs.as_slice().iter().enumerate() {
        push_node(job, out)?;
        push_marks(plan, n, out)?;
        if let Some(edges) = plan.edges.get(n) {
            push_edges(alloc, edges, out)?;
        }
        push_files(&job.files, out)?;
    }
    Ok(())
}

fn push_notices(notices: &Notices, out: &mut Vec<u8>) -> Result<(), AllocError> {
    for notice in notices {
        push_str(out, "; moved ")?;
        push_text(out, &notice.word)?;
        push_str(out, " ")?;
        push_text(out, &notice.name)?;
    }
    Ok(())
}

/// Puts what a run plans at the end: what is asked; each node with its package's name, its marks, its edges and its files; what
/// moved; the base root. Of more than 40 nodes only their number is told.
pub(crate) fn push_planned(
    alloc: Global,
    planned: &Planned,
    out: &mut Vec<u8>,
) -> Result<(), AllocError> {
    push_asked(alloc, planned, out)?;
    if planned.plan.jobs.len() > 40 {
        push_str(out, "; nodes ")?;
        return push_number(alloc, out, planned.plan.jobs.len() as u64);
    }
    push_nodes(alloc, &planned.plan, out)?;
    push_notices(&planned.notices, out)?;
    if !planned.plan.base.is_empty() {
        push_str(out, "; base")?;
        push_files(&planned.plan.base, out)?;
    }
    Ok(())
}
