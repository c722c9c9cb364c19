// The calls of `bulk`.
ghost use Rattle.std.specs.Prelude.{◌≡◌, ◌≢◌, ◌++◌, true, false, not, None, IsTrue};
ghost use Rattle.std.specs.Result.{is_ok};
ghost use Rattle.outside.specs.Changes.{IsUnchanged};
ghost use Rattle.outside.specs.Faults.{Rose};
ghost use Rattle.run_answer.specs.Kind.{blames_store, blames_tree};
ghost use Rattle.run_plan.specs.Answering.{lacks_rooms};
ghost use Rattle.run_plan.specs.Planned.{planned};
ghost use Rattle.run_plan.specs.Words.{words_step};
ghost use Rattle.bulk_run.specs.DryRun.{dry_step};
ghost use Rattle.bulk_run.specs.Blame.{HaveNotRisen, IsCounted, blames_sink, is_done, spares};
ghost use Rattle.bulk_run.specs.Ending.{BeginsToPrint, EndsWhole, HasStatus, answer_line, due_lists};
ghost use Rattle.bulk_run.specs.Refusals.{EndsAs, EndsByPlan, EndsByWords, is_of_dry_run};

use crate::dry_report::find_report;
use crate::ending::{print_report, refuse};
use bulk_base::Text;
use outside::{Sink, Store, Tree};
use run_answer::{Answer, Closed};
use std::alloc::Global;

/// `bulk -n`: prints what a run would delete, keep, build and skip, if every build succeeded, and
/// changes nothing (poudriere-bulk(8), "-n"; docs/FORMATS.md, "What is printed").
///
/// `words` are those behind the program's name, and are read as if `-n` stood among them. No room
/// is needed, however many builders they ask for. What is asked is planned over the tree; the
/// packages of the store are held against that; and the lists are printed in one write. With `-c`
/// nothing of the store is read but its names.
///
/// The refusals, of which the first in this order is answered:
/// 1. Usage: the words are none of `bulk`, those of other commands included
/// 2. BadConf of `etc/poudriere.conf`, then of `etc/make.conf`
/// 3. BadPort, Limit or DupName of the tree
/// 4. NoList, Limit, BadList, NoOrigin, NoFlavor, Gone or MovedLoop of what is wanted
/// 5. NoDepend, MovedDepend, Limit, Loop, BadPort or BadDist of the plan
/// 6. Limit of StoreNames, then, without `-c`, of StoreBytes
///
/// TreeFault, StoreFault and SinkFault come where that object failed, and NoMemory may come
/// anywhere. Each answer but Done is printed as its one line in place of the lists. Where the sink
/// fails at that line the answer stays; where memory is refused for it the answer is NoMemory, but
/// SinkFault stays.
///
/// The exit status is 0, or 1 where a node would be skipped, with Done; 2 for a refusal, 3 for a
/// fault, 4 for want of memory.
///
/// Costs what `plan_run` of run_plan, `sift_store` of run_store and `dry_lists` of status_lists
/// cost, and the memory of the packages of the store and of the printed text.
pub fn dry_run<T: Tree, S: Store, K: Sink>(
    alloc: Global,
    words: &[Text],
    tree: &mut T,
    store: &mut S,
    out: &mut K,
) -> Closed
    // where tree, store and sink tell: the lists and their status with Done, and the whole run
    // where no object failed and memory was not refused
    ensures lists { IsTrue T.tells → IsTrue S.tells → IsTrue K.tells → result.answer ≡ Answer.Done
        → EndsWhole (dry_step words.now (T.content tree.old) (S.content store.old))
        (K.written out.old) (K.written out.new) result }
    ensures whole { IsTrue T.tells → IsTrue S.tells → IsTrue K.tells → result.answer ≢ Answer.NoMemory
        → HaveNotRisen (T.faults tree.old) (T.faults tree.new) (S.faults store.old) (S.faults store.new)
        (K.faults out.old) (K.faults out.new)
        → EndsWhole (dry_step words.now (T.content tree.old) (S.content store.old))
        (K.written out.old) (K.written out.new) result }
    // what is refused, as far as the objects tell
    ensures told { IsTrue T.tells → IsTrue S.tells
        → EndsAs (dry_step words.now (T.content tree.old) (S.content store.old)) result.answer }
    ensures in_tree { IsTrue T.tells
        → EndsByPlan (planned words.now (T.content tree.old) None) result.answer }
    ensures in_words { EndsByWords (words_step words.now) result.answer }
    ensures no_builders { lacks_rooms result.answer ≡ false }
    ensures answers { is_of_dry_run result.answer ≡ true }
    // Done, where nothing is refused, no object failed and memory was not refused
    ensures complete { IsTrue T.tells → IsTrue S.tells
        → is_ok (dry_step words.now (T.content tree.old) (S.content store.old)) ≡ true
        → HaveNotRisen (T.faults tree.old) (T.faults tree.new) (S.faults store.old) (S.faults store.new)
        (K.faults out.old) (K.faults out.new)
        → result.answer ≢ Answer.NoMemory → result.answer ≡ Answer.Done }
    // whom an answer blames: none with Done
    ensures tree_cause { IsCounted (T.faults tree.old) (T.faults tree.new)
        (blames_tree result.answer) (spares blames_tree result.answer) }
    ensures store_cause { IsCounted (S.faults store.old) (S.faults store.new)
        (blames_store result.answer) (spares blames_store result.answer) }
    ensures sink_cause { IsCounted (K.faults out.old) (K.faults out.new)
        (blames_sink result.answer) (is_done result.answer) }
    ensures status { HasStatus result }
    // what changes: nothing but what is printed
    ensures tree { T.content tree.new ≡ T.content tree.old }
    ensures same { IsUnchanged (S.content store.old) (S.content store.new)
        (S.journal store.old) (S.journal store.new) }
    ensures line { IsTrue K.tells → result.answer ≢ Answer.Done → result.answer ≢ Answer.NoMemory
        → (Rose (K.faults out.old) (K.faults out.new) → ⊥)
        → K.written out.new ≡ K.written out.old ++ answer_line result.answer }
    ensures begun { IsTrue T.tells → IsTrue S.tells → IsTrue K.tells → BeginsToPrint
        (due_lists (dry_step words.now (T.content tree.old) (S.content store.old)))
        (K.written out.old) (K.written out.new) result.answer }
{
    match find_report(alloc, words, tree, store) {
        Ok(report) => print_report(alloc, out, &report),
        Err(answer) => refuse(alloc, out, answer),
    }
}
