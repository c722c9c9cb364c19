// The recipes of nodes.
ghost use Rattle.std.specs.Prelude.{◌≡◌, ◌≢◌, ◌<◌, ℕ, true, false, length, map, slice_index_or, Some, None, Ok, Err, is_some, IsTrue, IfOk, IfErr, IfSome};
ghost use Rattle.std.specs.List.{AllByRecursion};
ghost use Rattle.std.specs.Option.{option_map};
ghost use Rattle.std.specs.Result.{result_ok};
ghost use Rattle.bulk_model.specs.Facts.{IsDependList, IsFileList};
ghost use Rattle.bulk_model.specs.Recipe as texts;
ghost use Rattle.dep_graph.specs.Graphs.{has};
ghost use Rattle.job_files.specs.NodeFiles.{node_files};
ghost use Rattle.outside.specs.Faults.{HasCause};
ghost use Rattle.bulk_model.specs.Flags.{flag};
ghost use Rattle.plan_maker.specs.Jobs as jobs;
ghost use Rattle.plan_maker.specs.Nodes.{AreNodes};
ghost use Rattle.plan_maker.specs.Recipes as listed;
ghost use Rattle.tree_index.specs.Depends as depends;
ghost use Rattle.tree_index.specs.Facts.{IsNodeInfo};

use crate::finding::node_at;
use crate::node_job::job_with;
use bulk_base::{Files, NoMemory, Sequence};
use bulk_model::{Depends, Digest, Flags, Job, Numbers, Plan, Recipes};
use job_files::{Gathered, PlanError, read_node_files};
use outside::{Outer, Tree};
use pkg_record::recipe;
use std::alloc::Global;
use tree_index::{Index, NodeInfo, depends_of};

/// What of the outside is to blame for a refusal; None where it is the files themselves.
fn outer_of(refusal: &PlanError) -> Option<Outer>
    ensures fault { result ≡ Some Outer.Fault → refusal.now ≡ PlanError.TreeFault }
    ensures memory { result ≡ Some Outer.NoMemory → refusal.now ≡ PlanError.NoMemory }
    ensures none { result ≡ None → (refusal.now ≢ PlanError.TreeFault) × (refusal.now ≢ PlanError.NoMemory) }
{
    match refusal {
        PlanError::TreeFault => Some(Outer::Fault),
        PlanError::NoMemory => Some(Outer::NoMemory),
        PlanError::NoDepend { .. }
        | PlanError::MovedDepend { .. }
        | PlanError::Limit { .. }
        | PlanError::Loop { .. }
        | PlanError::BadPort { .. }
        | PlanError::BadDist { .. } => None,
    }
}

/// The files of a node's job by itself; None where something is refused of them.
fn read_files<T: Tree>(
    alloc: Global,
    tree: &mut T,
    node: &NodeInfo,
) -> Result<Option<Gathered>, Outer>
    requires { IsNodeInfo node.now }
    ensures files { IsTrue T.tells → IfOk result (λ found. found ≡ result_ok (node_files (T.content tree.old) node.now 0)) }
    ensures form { IfOk result (λ found. IfSome found (λ gathered. IsFileList 1019 gathered.files)) }
    ensures same { T.content tree.new ≡ T.content tree.old }
    ensures cause { HasCause (T.faults tree.old) (T.faults tree.new) result }
{
    match read_node_files(alloc, tree, node, 0) {
        Ok(found) => Ok(Some(found)),
        Err(refusal) => match outer_of(&refusal) {
            Some(outer) => Err(outer),
            None => Ok(None),
        },
    }
}

/// The job of a node by itself, with these dependencies; None where something is refused of its files.
fn read_job<T: Tree>(
    alloc: Global,
    tree: &mut T,
    node: &NodeInfo,
    depends: Depends,
) -> Result<Option<Job>, Outer>
    requires node { IsNodeInfo node.now }
    requires depends { IsDependList depends }
    ensures job { IsTrue T.tells → IfOk result (λ job. job ≡ listed.job_alone (T.content tree.old) node.now depends) }
    ensures same { T.content tree.new ≡ T.content tree.old }
    ensures cause { HasCause (T.faults tree.old) (T.faults tree.new) result }
{
    match read_files(alloc, tree, node)? {
        Some(gathered) => Ok(Some(job_with(alloc, node, depends, gathered.files)?)),
        None => Ok(None),
    }
}

/// The job of the node of a number, where it can be built.
fn job_to_build<T: Tree>(
    alloc: Global,
    tree: &mut T,
    index: &Index,
    n: u32,
) -> Result<Option<Job>, Outer>
    requires { n < length index.now.nodes }
    ensures job { IsTrue T.tells → IfOk result (λ job. job ≡ listed.job_to_build (T.content tree.old) index.now n) }
    ensures ignored { is_some (jobs.node_at index.now n).ignored ≡ true → IfOk result (λ job. job ≡ None) }
    ensures lost { depends.depends_of index.now n ≡ None → IfOk result (λ job. job ≡ None) }
    ensures same { T.content tree.new ≡ T.content tree.old }
    ensures cause { HasCause (T.faults tree.old) (T.faults tree.new) result }
{
    let node = node_at(index, n);
    if node.ignored.is_some() {
        return Ok(None);
    }
    match depends_of(alloc, index, n)? {
        Some(depends) => read_job(alloc, tree, node, depends),
        None => Ok(None),
    }
}

/// The recipe of a job over a base root.
fn recipe_of(alloc: Global, base: &Files, job: &Job) -> Result<Option<Digest>, Outer>
    ensures recipe { IfOk result (λ found. found ≡ Some (texts.recipe base.now job.now)) }
    ensures quiet { IfErr result (λ e. e ≡ Outer.NoMemory) }
{
    match recipe(alloc, base, job) {
        Ok(digest) => Ok(Some(digest)),
        Err(_) => Err(Outer::NoMemory),
    }
}

/// The recipe of the node of a number over a base root, where it can be built.
fn read_recipe<T: Tree>(
    alloc: Global,
    tree: &mut T,
    index: &Index,
    base: &Files,
    n: u32,
) -> Result<Option<Digest>, Outer>
    requires { n < length index.now.nodes }
    ensures recipe { IsTrue T.tells → IfOk result (λ found. found ≡ option_map (texts.recipe base.now) (listed.job_to_build (T.content tree.old) index.now n)) }
    ensures ignored { is_some (jobs.node_at index.now n).ignored ≡ true → IfOk result (λ found. found ≡ None) }
    ensures lost { depends.depends_of index.now n ≡ None → IfOk result (λ found. found ≡ None) }
    ensures same { T.content tree.new ≡ T.content tree.old }
    ensures cause { HasCause (T.faults tree.old) (T.faults tree.new) result }
{
    match job_to_build(alloc, tree, index, n)? {
        Some(job) => recipe_of(alloc, base, &job),
        None => Ok(None),
    }
}

/// The same where it is asked for.
fn recipe_at<T: Tree>(
    alloc: Global,
    tree: &mut T,
    index: &Index,
    base: &Files,
    asked: bool,
    n: u32,
) -> Result<Option<Digest>, Outer>
    requires { n < length index.now.nodes }
    ensures recipe { IsTrue T.tells → IfOk result (λ found. found ≡ listed.recipe_where (T.content tree.old) index.now base.now asked n) }
    ensures none { IfOk result (λ found. is_some found ≡ true → listed.MayHaveRecipe index.now asked n) }
    ensures same { T.content tree.new ≡ T.content tree.old }
    ensures cause { HasCause (T.faults tree.old) (T.faults tree.new) result }
{
    if asked {
        read_recipe(alloc, tree, index, base, n)
    } else {
        Ok(None)
    }
}

/// A mark at each of some numbers, of so many.
fn marked(alloc: Global, count: usize, nodes: &[u32]) -> Result<Flags, NoMemory>
    requires { AllByRecursion (λ n. n < count) nodes.now }
    ensures size { IfOk result (λ marks. length marks ≡ count) }
    ensures marks { IfOk result (λ marks. (n : ℕ) → n < count → flag marks n ≡ has nodes.now n) }
{
    let mut marks = Flags::none(alloc, count)?;
    for n in nodes {
        marks.set(*n as usize);
    }
    Ok(marks)
}

/// The recipes of some nodes over a plan's base root, one place for each node of the index (docs/DEFINITIONS.md, "The recipe").
/// A node of `nodes` has one exactly where it is not ignored, all its dependencies lead to nodes, and nothing would be refused of
/// its files if the plan were of it alone: no file of its port has more than 4,194,304 bytes, its list of distfiles is in form, none
/// of its own files stands where a distfile would, each distfile is there, as stated and of at most 67,108,864 bytes, and its
/// files have at most 268,435,456 bytes together. Every other place has none.
///
/// Nothing is refused: Fault only where the tree's count of faults rose, NoMemory for want of memory alone. Each file is read
/// once for each node that is asked for; of a node that is ignored or of which a dependency leads to no node none is read.
pub fn recipes<T: Tree>(
    alloc: Global,
    tree: &mut T,
    index: &Index,
    plan: &Plan,
    nodes: &Numbers,
) -> Result<Recipes, Outer>
    requires { AreNodes index.now nodes.now }
    // the answer, over a tree that tells
    ensures recipes { IsTrue T.tells → IfOk result (λ found. found.digests ≡ listed.recipes_in (T.content tree.old) index.now plan.now.base nodes.now) }
    // over every tree
    ensures places { IfOk result (λ found. length found.digests ≡ length index.now.nodes) }
    ensures none { IfOk result (λ found. listed.HasOnlyAsked index.now nodes.now found.digests) }
    // the tree
    ensures same { T.content tree.new ≡ T.content tree.old }
    ensures cause { HasCause (T.faults tree.old) (T.faults tree.new) result }
{
    let count = index.nodes.len();
    let asked = marked(alloc, count, nodes.as_slice())?;
    let mut digests = Sequence::new(alloc);
    for n in 0..count {
        let asked = asked.get(n);
        digests.push(recipe_at(alloc, tree, index, &plan.base, asked, n as u32)?)?;
    }
    Ok(Recipes { digests })
}
