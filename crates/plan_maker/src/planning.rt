// The plan of what is wanted.
ghost use Rattle.std.specs.Prelude.{◌≡◌, ◌≢◌, ◌≤◌, ◌⊎◌, length, Ok, Err, IsTrue, IfOk, IfErr, OnOk};
ghost use Rattle.bulk_model.specs.Trees.{IsOrderly};
ghost use Rattle.job_files.specs.declared.fault.PlanError.{PlanError as WhyNot};
ghost use Rattle.job_files.specs.Faults.{IsCaused};
ghost use Rattle.plan_maker.specs.Nodes.{AreNodes, IsIndexView};
ghost use Rattle.plan_maker.specs.Needed.{needed};
ghost use Rattle.plan_maker.specs.Over.{IsOver, IsBoostedBy};
ghost use Rattle.plan_maker.specs.Plans.{plan_nodes, plan_in};

use crate::node_job::read_jobs;
use crate::outline::{complete, make_outline};
use bulk_base::Text;
use bulk_model::{Numbers, Plan};
use job_files::{PlanError, read_base};
use outside::Tree;
use std::alloc::Global;
use tree_index::Index;

/// That an index is one, for what the plan is to hold.
fn index_form(index: &Index)
    ensures { IsIndexView index.now }
{
    let _ = index.nodes.len();
}

/// The plan of what is wanted of a tree (poudriere-bulk(8); docs/DEFINITIONS.md, "The plan"): the nodes of `wanted` and all that
/// they lead to, in node order, with the job of each, the graph of their dependencies by their places in the plan, why each is
/// ignored where it is, the places of the wanted nodes, the base root, and which of them a word of `boost` matches. An ignored
/// node has its files and no dependencies.
///
/// The first of these refusals is answered:
///
/// 1. NoDepend or MovedDepend at the least needed node that is not ignored and has an entry that leads to no node, at its first
///    such entry
/// 2. Limit of PlanNodes with the number of needed nodes, where it passes 6,144
/// 3. Loop with exactly the nodes of the loop that docs/DEFINITIONS.md names
/// 4. while files are read, each at its file: for each node in node order those that `read_node_files` has (Limit of FileBytes,
///    JobBytes and DistBytes; BadPort with Distinfo or Reserved; BadDist), a port's files counted once for each needed node
/// 5. those of the base root, as `read_base` has them: BadPort with Reserved, Limit of FileBytes, Limit of JobBytes
///
/// TreeFault only where the tree's count of faults rose, NoMemory for want of memory alone. No file is read where one of the
/// first three holds.
///
/// Each node and each edge of the tree is looked at a fixed number of times, each pattern is tried at each needed node, and each
/// file is read once for each needed node of its port.
#[tactic(auto, unfolding(crate::specs::Plans::plan_in))]
pub fn plan<T: Tree>(
    alloc: Global,
    tree: &mut T,
    index: &Index,
    wanted: &Numbers,
    boost: &Text,
) -> Result<Plan, PlanError>
    requires { AreNodes index.now wanted.now }
    // the answer, over a tree that tells
    ensures ok { IsTrue T.tells → IfOk result (λ plan. plan_in (T.content tree.old) index.now wanted.now boost.now ≡ Ok plan) }
    ensures refused { IsTrue T.tells → IfErr result (λ e. e ≢ PlanError.NoMemory → e ≢ PlanError.TreeFault
        → plan_in (T.content tree.old) index.now wanted.now boost.now ≡ Err e) }
    // the refusals that need no file, over every tree
    ensures allowed { OnOk result (plan_nodes index.now wanted.now ≡ Ok (needed index.now wanted.now)) }
    ensures barred { (e : WhyNot) → plan_nodes index.now wanted.now ≡ Err e → (result ≡ Err e) ⊎ (result ≡ Err PlanError.NoMemory) }
    // the plan, over every tree
    ensures over { IfOk result (IsOver index.now wanted.now) }
    ensures boosted { IfOk result (IsBoostedBy index.now wanted.now boost.now) }
    ensures orderly { IfOk result IsOrderly }
    // the tree
    ensures same { T.content tree.new ≡ T.content tree.old }
    ensures cause { IsCaused (T.faults tree.old) (T.faults tree.new) result }
{
    index_form(index);
    let outline = make_outline(alloc, index, wanted, boost)?;
    let found = read_jobs(alloc, tree, index, outline.nodes.as_slice())?;
    let base = read_base(alloc, tree, found.bytes)?;
    Ok(complete(outline, found.jobs, base.files))
}
