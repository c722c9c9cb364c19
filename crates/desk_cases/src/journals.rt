// What was done to a store.
use bulk_base::{NoMemory, Sequence, Text, Texts};
use bulk_model::{Edge, Flags, Kept, Plan, file_name};
use case_plans::is_kept;
use case_text::{push_str, push_text};
use outside::Change;
use std::alloc::Global;

/// Puts the names of the files that were put, each behind a blank, and those that were removed behind a
/// blank and a minus.
pub(crate) fn push_journal(journal: &[Change], out: &mut Vec<u8>) -> Result<(), NoMemory> {
    for change in journal {
        match change {
            Change::Put { name, bytes: _ } => {
                push_str(out, " ")?;
                push_text(out, name)?;
            }
            Change::Remove { name } => {
                push_str(out, " -")?;
                push_text(out, name)?;
            }
        }
    }
    Ok(())
}

/// The names of the nodes' files.
fn file_names(alloc: Global, plan: &Plan) -> Result<Texts, NoMemory> {
    let mut names = Sequence::new(alloc);
    for job in plan.jobs.as_slice() {
        names.push(file_name(alloc, &job.name)?)?;
    }
    Ok(names)
}

/// The place of the name that a change puts a file under.
fn place_of(names: &[Text], change: &Change) -> Option<usize> {
    match change {
        Change::Put { name, bytes: _ } => names.iter().position(|other| other == name),
        Change::Remove { name: _ } => None,
    }
}

fn are_there(kept: &Kept, put: &Flags, edges: &[Edge]) -> bool {
    edges.iter().all(|edge| is_kept(kept, edge.to as usize) || put.get(edge.to as usize))
}

/// Marks the node of a change. Answers whether it is a put of a node whose dependencies are all kept or
/// marked.
fn mark_put(plan: &Plan, kept: &Kept, names: &[Text], put: &mut Flags, change: &Change) -> bool {
    let Some(n) = place_of(names, change) else {
        return false;
    };
    let Some(edges) = plan.edges.get(n) else {
        return false;
    };
    if n >= put.len() || !are_there(kept, put, edges.as_slice()) {
        return false;
    }
    put.set(n);
    true
}

/// Whether a journal is puts of a plan's nodes, each behind those of its dependencies.
pub(crate) fn is_in_order(
    alloc: Global,
    plan: &Plan,
    kept: &Kept,
    journal: &[Change],
) -> Result<bool, NoMemory> {
    let names = file_names(alloc, plan)?;
    let mut put = Flags::none(alloc, plan.jobs.len())?;
    for change in journal {
        if !mark_put(plan, kept, names.as_slice(), &mut put, change) {
            return Ok(false);
        }
    }
    Ok(true)
}
