// What a dry run finds out and tells.
ghost use Rattle.std.specs.Prelude.{◌≡◌, ◌≤◌, false, None, IsTrue, IfOk};
ghost use Rattle.bulk_model.specs.Trees.{IsOrderly};
ghost use Rattle.outside.specs.Changes.{IsUnchanged};
ghost use Rattle.outside.specs.Faults.{IsCaused, err_is};
ghost use Rattle.run_answer.specs.Kind.{blames_store, blames_tree};
ghost use Rattle.run_answer.specs.Steps.{Tells};
ghost use Rattle.run_plan.specs.Answering.{AnswersWords, lacks_rooms};
ghost use Rattle.run_plan.specs.Planned.{planned as planned_in};
ghost use Rattle.run_plan.specs.Words.{words_step};
ghost use Rattle.run_store.specs.Sifting.{IsOverSome};
ghost use Rattle.run_store.specs.Told.{IsOfStore};
ghost use Rattle.bulk_run.specs.DryRun as specs;
ghost use Rattle.bulk_run.specs.Refusals.{FindsByPlan, IsOfFinding};

use crate::ending::Report;
use bulk_base::{NoMemory, Sequence, Text};
use command_words::Clean;
use outside::{Store, Tree};
use run_answer::Answer;
use run_plan::{Planned, plan_run};
use run_store::{Sifted, sift_all, sift_store};
use status_lists::{dry_lists, dry_status};
use std::alloc::Global;

// What of a store goes and what stays, by which packages are to be built anew.
fn sift<T: Tree, S: Store>(
    alloc: Global,
    tree: &mut T,
    store: &mut S,
    run: &Planned,
) -> Result<Sifted, Answer>
    requires over { IsOverSome run.now.index run.now.plan }
    requires orderly { IsOrderly run.now.plan }
    ensures told { IsTrue T.tells → IsTrue S.tells → Tells
        (specs.sift_by run.now.clean (T.content tree.old) (S.content store.old) run.now) result }
    ensures answers { IsOfStore result }
    ensures tree { T.content tree.new ≡ T.content tree.old }
    ensures same { IsUnchanged (S.content store.old) (S.content store.new)
        (S.journal store.old) (S.journal store.new) }
    ensures tree_cause { IsCaused (T.faults tree.old) (T.faults tree.new) (err_is blames_tree result) }
    ensures store_cause { IsCaused (S.faults store.old) (S.faults store.new) (err_is blames_store result) }
{
    let (index, plan) = (&run.index, &run.plan);
    match run.clean {
        Clean::Nothing => sift_store(alloc, tree, store, index, plan, &[]),
        Clean::Wanted => sift_store(alloc, tree, store, index, plan, run.wanted.as_slice()),
        Clean::All => sift_all(alloc, store, plan),
    }
}

// The lists and the exit status of a dry run.
#[tactic(auto, using(crate::proofs::Printing::small_exit_status))]
fn write_report(alloc: Global, run: &Planned, sifted: &Sifted) -> Result<Report, NoMemory>
    ensures told { IfOk result (λ report. report ≡ specs.dry_report run.now sifted.now) }
    ensures status { IfOk result (λ report. report.status ≤ 1) }
{
    let text = dry_lists(
        alloc,
        &run.plan,
        &sifted.kept,
        &sifted.deleted,
        &run.notices,
    )?;
    let status = dry_status(alloc, &run.plan, &sifted.kept)?;
    Ok(Report {
        text: Sequence::from_vec(text),
        status,
    })
}

// What is told of a plan, or the refusal of the store.
#[tactic(auto, unfolding(crate::specs::DryRun::told_of))]
fn tell_plan<T: Tree, S: Store>(
    alloc: Global,
    tree: &mut T,
    store: &mut S,
    run: &Planned,
) -> Result<Report, Answer>
    requires over { IsOverSome run.now.index run.now.plan }
    requires orderly { IsOrderly run.now.plan }
    ensures told { IsTrue T.tells → IsTrue S.tells → Tells
        (specs.told_of (T.content tree.old) (S.content store.old) run.now) result }
    ensures answers { IsOfStore result }
    ensures status { IfOk result (λ report. report.status ≤ 1) }
    ensures tree { T.content tree.new ≡ T.content tree.old }
    ensures same { IsUnchanged (S.content store.old) (S.content store.new)
        (S.journal store.old) (S.journal store.new) }
    ensures tree_cause { IsCaused (T.faults tree.old) (T.faults tree.new) (err_is blames_tree result) }
    ensures store_cause { IsCaused (S.faults store.old) (S.faults store.new) (err_is blames_store result) }
{
    let sifted = sift(alloc, tree, store, run)?;
    Ok(write_report(alloc, run, &sifted)?)
}

/// What a dry run has to print: its words and the tree give a plan, the store is looked through
/// for it, and every build is taken to succeed. Or the first refusal: those of `plan_run` of
/// run_plan, whatever builders are asked for, then those of `sift_store` of run_store, or with `-c`
/// those of `sift_all`. TreeFault or StoreFault where that object failed; NoMemory for want of
/// memory alone. Tree and store stay as they are. The cost is that of these calls and of the lists.
#[tactic(auto, unfolding(crate::specs::DryRun::dry_step))]
pub(crate) fn find_report<T: Tree, S: Store>(
    alloc: Global,
    words: &[Text],
    tree: &mut T,
    store: &mut S,
) -> Result<Report, Answer>
    // what is told, over a tree and a store that tell
    ensures told { IsTrue T.tells → IsTrue S.tells → Tells
        (specs.dry_step words.now (T.content tree.old) (S.content store.old)) result }
    // what the plan decides over every store, the words over every tree, and the rest over all
    ensures in_tree { IsTrue T.tells
        → FindsByPlan (planned_in words.now (T.content tree.old) None) result }
    ensures in_words { AnswersWords (words_step words.now) result }
    ensures rooms { err_is lacks_rooms result ≡ false }
    ensures answers { IsOfFinding result }
    ensures status { IfOk result (λ report. report.status ≤ 1) }
    // tree and store
    ensures tree { T.content tree.new ≡ T.content tree.old }
    ensures same { IsUnchanged (S.content store.old) (S.content store.new)
        (S.journal store.old) (S.journal store.new) }
    ensures tree_cause { IsCaused (T.faults tree.old) (T.faults tree.new) (err_is blames_tree result) }
    ensures store_cause { IsCaused (S.faults store.old) (S.faults store.new) (err_is blames_store result) }
{
    let run = plan_run(alloc, tree, words, None)?;
    tell_plan(alloc, tree, store, &run)
}
