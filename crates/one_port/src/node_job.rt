// The jobs of nodes.
ghost use Rattle.std.specs.Prelude.{◌≡◌, map, slice_get, IsTrue, IfOk};
ghost use Rattle.std.specs.Option.{option_copied};
ghost use Rattle.std.specs.List.{AllByRecursion};
ghost use Rattle.bulk_model.specs.Facts.{IsFileList};
ghost use Rattle.tree_index.specs.Facts.{IsNodeInfo};
ghost use Rattle.outside.specs.Faults.{IsCaused, err_is};
ghost use Rattle.one_port.specs.Causes.{blames_tree};
ghost use Rattle.one_port.specs.Decided.{IsOfReading, Tells};
ghost use Rattle.one_port.specs.NodeJobs.{job_in, job_with, jobs_in, nodes_at};
ghost use Rattle.one_port.specs.PortsWanted.{names_of};

use crate::answer::Answer;
use crate::port_files::{PortFiles, read_files};
use crate::tree_answer::tree_answer;
use bulk_base::{Files, NoMemory, Sequence, copy_of, switch_copies};
use bulk_model::{Job, Jobs};
use outside::Tree;
use std::alloc::Global;
use tree_index::{NodeInfo, files_folder, origin_name};

/// The node with a number, if there is one.
pub(crate) fn node_at(nodes: &[NodeInfo], number: u32) -> Option<&NodeInfo>
    ensures { option_copied result ≡ slice_get nodes.now number }
{
    nodes.get(number as usize)
}

// The job of a node without dependencies, with its port's files.
fn job_with(alloc: Global, node: &NodeInfo, files: Files) -> Result<Job, NoMemory>
    requires node { IsNodeInfo node.now }
    requires files { IsFileList 1019 files }
    ensures { IfOk result (λ job. job ≡ job_with node.now files) }
{
    Ok(Job {
        name: node.desc.name.copy(alloc)?,
        origin: origin_name(alloc, &node.origin)?,
        flavor: copy_of(alloc, node.flavor.as_ref())?,
        options: switch_copies(alloc, node.options.as_slice())?,
        depends: Sequence::new(alloc),
        steps: node.desc.steps.copy(alloc)?,
        files,
    })
}

// The job of a node; a file of its port that is too large is not served yet.
fn read_job<T: Tree>(alloc: Global, tree: &mut T, node: &NodeInfo) -> Result<Job, Answer>
    requires { IsNodeInfo node.now }
    ensures told { IsTrue T.tells → Tells (job_in (T.content tree.old) node.now) result }
    ensures name { IfOk result (λ job. job.name ≡ node.now.desc.name) }
    ensures reading { IsOfReading result }
    ensures same { T.content tree.new ≡ T.content tree.old }
    ensures cause { IsCaused (T.faults tree.old) (T.faults tree.new) (err_is blames_tree result) }
{
    let folder = files_folder(alloc, &node.origin)?;
    match read_files(alloc, tree, &folder) {
        Ok(PortFiles::Whole(files)) => Ok(job_with(alloc, node, files)?),
        Ok(PortFiles::Large(path)) => Err(Answer::NotYet { path }),
        Err(outer) => Err(tree_answer(outer)),
    }
}

/// The jobs of the nodes with some numbers, in the numbers' order, or the first refusal.
pub(crate) fn read_jobs<T: Tree>(
    alloc: Global,
    tree: &mut T,
    nodes: &[NodeInfo],
    numbers: &[u32],
) -> Result<Jobs, Answer>
    requires { AllByRecursion IsNodeInfo nodes.now }
    ensures told { IsTrue T.tells → Tells (jobs_in (T.content tree.old) (nodes_at nodes.now numbers.now)) result }
    ensures names { IfOk result (λ jobs. names_of jobs ≡ map (λ node. node.desc.name) (nodes_at nodes.now numbers.now)) }
    ensures reading { IsOfReading result }
    ensures same { T.content tree.new ≡ T.content tree.old }
    ensures cause { IsCaused (T.faults tree.old) (T.faults tree.new) (err_is blames_tree result) }
{
    let mut jobs = Sequence::new(alloc);
    for number in numbers {
        if let Some(node) = node_at(nodes, *number) {
            jobs.push(read_job(alloc, tree, node)?)?;
        }
    }
    Ok(jobs)
}
