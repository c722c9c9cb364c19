// The jobs of nodes.
ghost use Rattle.std.specs.Prelude.{◌≡◌, ◌≢◌, ◌≤◌, ◌<◌, [], ◌∷◌, ◌++◌, length, map, IsTrue, Ok, Err, IfOk, IfErr};
ghost use Rattle.std.specs.Option.{unwrap_or};
ghost use Rattle.bulk_model.specs.Facts.{IsFileList, IsDependList};
ghost use Rattle.bulk_model.specs.Limits.{most};
ghost use Rattle.bulk_model.specs.declared.which.Which.TheVariants.{JobBytes};
ghost use Rattle.job_files.specs.Faults.{IsCaused};
ghost use Rattle.plan_maker.specs.Jobs as jobs;
ghost use Rattle.plan_maker.specs.Nodes.{AreNodes};
ghost use Rattle.plan_maker.specs.Over.{bare};
ghost use Rattle.tree_index.specs.Depends as depends;
ghost use Rattle.tree_index.specs.Facts.{IsNodeInfo};

use crate::finding::node_at;
use crate::job_list::JobList;
use bulk_base::{Files, NoMemory, Sequence, copy_of, switch_copies};
use bulk_model::{Depends, Job};
use job_files::{Gathered, PlanError, read_node_files};
use outside::Tree;
use std::alloc::Global;
use tree_index::{Index, NodeInfo, depends_of, origin_name};

/// The job of a node with these dependencies and files.
pub(crate) fn job_with(
    alloc: Global,
    node: &NodeInfo,
    depends: Depends,
    files: Files,
) -> Result<Job, NoMemory>
    requires node { IsNodeInfo node.now }
    requires depends { IsDependList depends }
    requires files { IsFileList 1019 files }
    ensures { IfOk result (λ job. job ≡ jobs.job_with node.now depends files) }
{
    Ok(Job {
        name: node.desc.name.copy(alloc)?,
        origin: origin_name(alloc, &node.origin)?,
        flavor: copy_of(alloc, node.flavor.as_ref())?,
        options: switch_copies(alloc, node.options.as_slice())?,
        depends,
        steps: node.desc.steps.copy(alloc)?,
        files,
    })
}

/// What a node depends on; nothing where a dependency leads to no node.
fn depends_at(alloc: Global, index: &Index, n: u32) -> Result<Depends, NoMemory>
    requires { n < length index.now.nodes }
    ensures depends { IfOk result (λ found. found ≡ unwrap_or (depends.depends_of index.now n) []) }
    ensures form { IfOk result IsDependList }
{
    match depends_of(alloc, index, n)? {
        Some(found) => Ok(found),
        None => Ok(Sequence::new(alloc)),
    }
}

/// The job of the node of a number with these files.
fn job_of(alloc: Global, index: &Index, n: u32, files: Files) -> Result<Job, NoMemory>
    requires node { n < length index.now.nodes }
    requires files { IsFileList 1019 files }
    ensures { IfOk result (λ job. job ≡ jobs.job_of index.now n files) }
{
    let depends = depends_at(alloc, index, n)?;
    job_with(alloc, node_at(index, n), depends, files)
}

/// The jobs with that of one node more.
fn add_job(
    alloc: Global,
    index: &Index,
    n: u32,
    found: JobList,
    gathered: Gathered,
) -> Result<JobList, NoMemory>
    requires node { n < length index.now.nodes }
    requires files { IsFileList 1019 gathered.files }
    ensures jobs { IfOk result (λ more. more.jobs ≡ found.jobs ++ jobs.job_of index.now n gathered.files ∷ []) }
    ensures bytes { IfOk result (λ more. more.bytes ≡ gathered.bytes) }
{
    let JobList { mut jobs, bytes: _ } = found;
    let bytes = gathered.bytes;
    jobs.push(job_of(alloc, index, n, gathered.files)?)?;
    Ok(JobList { jobs, bytes })
}

/// The jobs with that of one node more, whose files are read.
fn read_job<T: Tree>(
    alloc: Global,
    tree: &mut T,
    index: &Index,
    found: JobList,
    n: u32,
) -> Result<JobList, PlanError>
    requires node { n < length index.now.nodes }
    requires counted { found.bytes ≤ most JobBytes }
    ensures ok { IsTrue T.tells → IfOk result (λ more. jobs.with_job (T.content tree.old) index.now found n ≡ Ok more) }
    ensures refused { IsTrue T.tells → IfErr result (λ e. e ≢ PlanError.NoMemory → e ≢ PlanError.TreeFault
        → jobs.with_job (T.content tree.old) index.now found n ≡ Err e) }
    ensures bare { IfOk result (λ more. map bare more.jobs ≡ map bare found.jobs ++ jobs.job_of index.now n [] ∷ []) }
    ensures few { IfOk result (λ more. more.bytes ≤ most JobBytes) }
    ensures same { T.content tree.new ≡ T.content tree.old }
    ensures cause { IsCaused (T.faults tree.old) (T.faults tree.new) result }
{
    let gathered = read_node_files(alloc, tree, node_at(index, n), found.bytes)?;
    Ok(add_job(alloc, index, n, found, gathered)?)
}

/// The jobs of nodes, in the nodes' order, or the first refusal of their files.
pub(crate) fn read_jobs<T: Tree>(
    alloc: Global,
    tree: &mut T,
    index: &Index,
    nodes: &[u32],
) -> Result<JobList, PlanError>
    requires { AreNodes index.now nodes.now }
    ensures ok { IsTrue T.tells → IfOk result (λ found. jobs.jobs_in (T.content tree.old) index.now nodes.now ≡ Ok found) }
    ensures refused { IsTrue T.tells → IfErr result (λ e. e ≢ PlanError.NoMemory → e ≢ PlanError.TreeFault
        → jobs.jobs_in (T.content tree.old) index.now nodes.now ≡ Err e) }
    ensures bare { IfOk result (λ found. map bare found.jobs ≡ map (λ n. jobs.job_of index.now n []) nodes.now) }
    ensures few { IfOk result (λ found. found.bytes ≤ most JobBytes) }
    ensures same { T.content tree.new ≡ T.content tree.old }
    ensures cause { IsCaused (T.faults tree.old) (T.faults tree.new) result }
{
    let mut found = JobList {
        jobs: Sequence::new(alloc),
        bytes: 0,
    };
    for n in nodes {
        found = read_job(alloc, tree, index, found, *n)?;
    }
    Ok(found)
}
