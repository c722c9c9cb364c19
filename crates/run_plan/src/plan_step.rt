// The plan of the nodes that a run wants.
ghost use Rattle.std.specs.Prelude.{◌≡◌, false, IsTrue, IfOk};
ghost use Rattle.bulk_model.specs.Trees.{IsOrderly};
ghost use Rattle.outside.specs.Faults.{IsCaused, err_is};
ghost use Rattle.plan_maker.specs.Nodes.{AreNodes};
ghost use Rattle.plan_maker.specs.Over.{IsOver};
ghost use Rattle.run_answer.specs.Kind.{blames_tree};
ghost use Rattle.run_answer.specs.Steps.{IsOfReading, Tells};
ghost use Rattle.run_plan.specs.Answering.{is_of_command};
ghost use Rattle.run_plan.specs.Steps as steps;

use crate::told::plan_answer;
use bulk_base::Text;
use bulk_model::{Numbers, Plan};
use outside::Tree;
use plan_maker::plan;
use run_answer::Answer;
use std::alloc::Global;
use tree_index::Index;

/// The plan of wanted nodes and all that they lead to: the fifth step of a run (poudriere-bulk(8);
/// docs/DEFINITIONS.md, "The plan"). The words of `boost`, of PRIORITY_BOOST, match the packages
/// that are to be built early.
///
/// Refusals, TreeFault and NoMemory as `plan` of plan_maker has them, and its cost. The tree stays
/// as it is.
pub fn make_plan<T: Tree>(
    alloc: Global,
    tree: &mut T,
    index: &Index,
    wanted: &Numbers,
    boost: &Text,
) -> Result<Plan, Answer>
    requires { AreNodes index.now wanted.now }
    ensures told { IsTrue T.tells → Tells
        (steps.plan_step index.now wanted.now boost.now (T.content tree.old)) result }
    ensures over { IfOk result (IsOver index.now wanted.now) }
    ensures orderly { IfOk result IsOrderly }
    ensures reading { IsOfReading result }
    ensures files { err_is is_of_command result ≡ false }
    ensures same { T.content tree.new ≡ T.content tree.old }
    ensures cause { IsCaused (T.faults tree.old) (T.faults tree.new) (err_is blames_tree result) }
{
    match plan(alloc, tree, index, wanted, boost) {
        Ok(plan) => Ok(plan),
        Err(fault) => Err(plan_answer(fault)),
    }
}
