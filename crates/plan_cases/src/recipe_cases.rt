// Recipes.
ghost use Rattle.std.specs.Prelude.{◌<◌, length};
ghost use Rattle.std.specs.List.{AllByRecursion};

use crate::trees::{index_of, numbers_of, tree_of};
use bulk_base::Text;
use bulk_model::{Digest, Numbers, Plan, Recipes};
use case_text::{CaseError, push_str, push_text};
use outside::{MemTree, Outer};
use plan_maker::{plan, recipes};
use std::alloc::{AllocError, Global};
use tree_index::Index;

fn planned(
    alloc: Global,
    tree: &mut MemTree,
    index: &Index,
    wanted: &Numbers,
) -> Result<Plan, CaseError>
    requires { AllByRecursion (λ n. n < length index.now.nodes) wanted.now }
{
    let boost = Text::literal(alloc, b"")?;
    match plan(alloc, tree, index, wanted, &boost) {
        Ok(plan) => Ok(plan),
        Err(_) => Err(CaseError::Unfit),
    }
}

/// The plan of nodes over a tree of which no call fails.
fn plan_of(
    alloc: Global,
    tree: &mut MemTree,
    index: &Index,
    field: &str,
) -> Result<Plan, CaseError> {
    let wanted = numbers_of(alloc, index, field)?;
    planned(alloc, tree, index, &wanted)
}

fn push_digest(
    alloc: Global,
    digest: &Option<Digest>,
    out: &mut Vec<u8>,
) -> Result<(), AllocError> {
    match digest {
        Some(digest) => push_text(out, &digest.hex(alloc)?),
        None => push_str(out, "-"),
    }
}

fn push_recipes(
    alloc: Global,
    index: &Index,
    found: &Recipes,
    out: &mut Vec<u8>,
) -> Result<(), AllocError> {
    let nodes = index.nodes.as_slice();
    for n in 0..nodes.len() {
        push_text(out, &nodes[n].node)?;
        push_str(out, " ")?;
        if let Some(digest) = found.digests.get(n) {
            push_digest(alloc, digest, out)?;
        }
        push_str(out, ";")?;
    }
    Ok(())
}

fn push_answer(
    alloc: Global,
    index: &Index,
    found: &Result<Recipes, Outer>,
    out: &mut Vec<u8>,
) -> Result<(), AllocError> {
    match found {
        Ok(recipes) => push_recipes(alloc, index, recipes, out),
        Err(Outer::Fault) => push_str(out, "Fault"),
        Err(Outer::NoMemory) => push_str(out, "NoMemory"),
    }
}

/// The recipes of nodes over a tree.
fn answer_nodes(
    alloc: Global,
    tree: &mut MemTree,
    index: &Index,
    plan: &Plan,
    nodes: &Numbers,
    out: &mut Vec<u8>,
) -> Result<(), AllocError>
    requires { AllByRecursion (λ n. n < length index.now.nodes) nodes.now }
{
    let found = recipes(alloc, tree, index, plan, nodes);
    push_answer(alloc, index, &found, out)
}

/// The recipes of the nodes that a field names over a tree.
fn answer_over(
    alloc: Global,
    tree: &mut MemTree,
    index: &Index,
    plan: &Plan,
    nodes: &str,
    out: &mut Vec<u8>,
) -> Result<(), CaseError> {
    let nodes = numbers_of(alloc, index, nodes)?;
    Ok(answer_nodes(alloc, tree, index, plan, &nodes, out)?)
}

/// The same over a tree of which some calls fail.
fn answer_failing(
    alloc: Global,
    files: &str,
    index: &Index,
    plan: &Plan,
    [nodes, fails]: [&str; 2],
    out: &mut Vec<u8>,
) -> Result<(), CaseError> {
    let mut tree = tree_of(alloc, files, fails)?;
    answer_over(alloc, &mut tree, index, plan, nodes, out)
}

fn answer_planned(
    alloc: Global,
    tree: &mut MemTree,
    files: &str,
    index: &Index,
    [wanted, nodes, fails]: [&str; 3],
    out: &mut Vec<u8>,
) -> Result<(), CaseError> {
    let plan = plan_of(alloc, tree, index, wanted)?;
    answer_failing(alloc, files, index, &plan, [nodes, fails], out)
}

fn answer_in(
    alloc: Global,
    tree: &mut MemTree,
    files: &str,
    fields: [&str; 3],
    out: &mut Vec<u8>,
) -> Result<(), CaseError> {
    let index = index_of(alloc, tree)?;
    answer_planned(alloc, tree, files, &index, fields, out)
}

/// The recipes of the nodes that a field names over the base root of the plan of others, with the calls that fail: each node of
/// the tree, with its recipe's digest or `-`.
pub(crate) fn answer_recipes(
    alloc: Global,
    files: &str,
    fields: [&str; 3],
    out: &mut Vec<u8>,
) -> Result<(), CaseError> {
    let mut tree = tree_of(alloc, files, "")?;
    answer_in(alloc, &mut tree, files, fields, out)
}
