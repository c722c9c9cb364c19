// The index of a run's tree.
ghost use Rattle.std.specs.Prelude.{◌≡◌, false, IsTrue};
ghost use Rattle.outside.specs.Faults.{IsCaused, err_is};
ghost use Rattle.run_answer.specs.Kind.{blames_tree};
ghost use Rattle.run_answer.specs.Steps.{IsOfReading, Tells};
ghost use Rattle.run_plan.specs.Answering.{is_of_command};
ghost use Rattle.run_plan.specs.Steps as steps;

use crate::told::index_answer;
use conf_file::MakeConf;
use outside::Tree;
use run_answer::Answer;
use std::alloc::Global;
use tree_index::{Index, index};

/// The index of a tree under a make.conf: the third step of a run (poudriere-bulk(8), "-T"). Broken
/// ports are tried where `try_broken` or make.conf says so.
///
/// BadPort, Limit and DupName as `index` of tree_index has them; TreeFault where the tree failed;
/// NoMemory for want of memory alone. The cost is that of `index`. The tree stays as it is.
pub fn index_tree<T: Tree>(
    alloc: Global,
    tree: &mut T,
    make: &MakeConf,
    try_broken: bool,
) -> Result<Index, Answer>
    ensures told { IsTrue T.tells → Tells
        (steps.tree_step make.now try_broken (T.content tree.old)) result }
    ensures reading { IsOfReading result }
    ensures files { err_is is_of_command result ≡ false }
    ensures same { T.content tree.new ≡ T.content tree.old }
    ensures cause { IsCaused (T.faults tree.old) (T.faults tree.new) (err_is blames_tree result) }
{
    match index(alloc, tree, make, try_broken) {
        Ok(index) => Ok(index),
        Err(fault) => Err(index_answer(fault)),
    }
}
