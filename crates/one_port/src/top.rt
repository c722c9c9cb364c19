// The top calls.
ghost use Rattle.std.specs.Prelude.{◌≡◌, ◌≢◌, ◌≤◌, ◌<◌, ◌^◌, ◌⊎◌, ◌++◌, ℕ, true, None, drop, vec_len, IsTrue, IfOk, IfErr, OnOk};
ghost use Rattle.outside.specs.Changes.{IsUnchanged};
ghost use Rattle.outside.specs.Faults.{Rose, IsCaused, err_is};
ghost use Rattle.one_port.specs.AnswerLine.{answer_line};
ghost use Rattle.one_port.specs.Ending.{BeganAtMost, BeganOnce, IsBlamed, HaveNotRisen, IsStatusOf, faults_of_first, begun_in_first};
ghost use Rattle.one_port.specs.PortsRun.{HasStoredFirstWanted, HasStoredWanted, IsWhole, RanWanted};
ghost use Rattle.one_port.specs.Causes.{leaves_rooms, leaves_store, blames_tree, blames_store, blames_room};
ghost use Rattle.one_port.specs.Refusals.{asked_words, refusal, refusal_before_store, refusal_over, refusal_over_before_store, roomless_refusal, told_refusal, told_refusal_over, wanted_ports};
ghost use Rattle.one_port.specs.Decided.{AnswersRoomless, AnswersWords, AnswersWordsOver, IsInner, EndsAs, EndsInTree, RunEndsAs, RunEndsInTree};

use crate::answer::{Answer, Closed, Finished};
use crate::decision::{decide, is_command};
use crate::port_run::{Report, run_ports};
use crate::refusal::refuse;
use bulk_base::Text;
use outside::{Gate, Outer, Room, Sink, Store, Tree};
use std::alloc::Global;
use std::sync::Wait;
use std::thread::Threads;

fn run<T: Tree, S: Store, R: Room>(
    alloc: Global,
    words: &[Text],
    tree: &mut T,
    store: &mut S,
    room: &mut R,
) -> Result<Report, Answer>
    ensures told { IsTrue T.tells → IsTrue S.tells → RunEndsAs (refusal words.now (T.content tree.old) (S.content store.old)) result }
    ensures before_store { IsTrue T.tells → RunEndsInTree (refusal_before_store words.now (T.content tree.old)) result }
    ensures words { IfErr result (AnswersWords (asked_words words.now)) }
    ensures whole { IsTrue T.tells → IsTrue S.tells → IfOk result (RanWanted R.Ways.tells R.Ways.runs words.now (T.content tree.old) (S.content store.old) (S.content store.new) (R.begun room.old) (R.begun room.new)) }
    ensures left { IsTrue T.tells → IsTrue S.tells → (S.content store.new ≡ S.content store.old) ⊎ HasStoredFirstWanted R.Ways.tells R.Ways.runs words.now (T.content tree.old) (S.content store.old) (S.content store.new) }
    ensures unrefused { OnOk result (told_refusal T.tells S.tells words.now (T.content tree.old) (S.content store.old) ≡ None) }
    ensures tree { IsCaused (T.faults tree.old) (T.faults tree.new) (err_is blames_tree result) }
    ensures store { IsCaused (S.faults store.old) (S.faults store.new) (err_is blames_store result) }
    ensures room { IsCaused (R.faults room.old) (R.faults room.new) (err_is blames_room result) }
    ensures inner { IsInner result }
    ensures begun { BeganOnce (R.begun room.old) (R.begun room.new) }
    ensures name { IsTrue T.tells → BeganAtMost (wanted_ports words.now (T.content tree.old)) (R.begun room.old) (R.begun room.new) }
    ensures same { err_is leaves_store result ≡ true → IsUnchanged (S.content store.old) (S.content store.new) (S.journal store.old) (S.journal store.new) }
    ensures idle { err_is leaves_rooms result ≡ true → R.begun room.new ≡ R.begun room.old }
    ensures kept { told_refusal T.tells S.tells words.now (T.content tree.old) (S.content store.old) ≢ None → IsUnchanged (S.content store.old) (S.content store.new) (S.journal store.old) (S.journal store.new) }
    ensures still { told_refusal T.tells S.tells words.now (T.content tree.old) (S.content store.old) ≢ None → R.begun room.new ≡ R.begun room.old }
    ensures status { IfOk result (λ r. r.status ≤ 1) }
{
    match decide(alloc, words, tree, store) {
        Err(answer) => Err(answer),
        Ok(ports) => run_ports(alloc, store, room, &ports),
    }
}

/// Runs a command with one builder (poudriere-bulk(8); docs/FORMATS.md, "The command").
///
/// `words` are those behind the program's name. All that they ask for is read from the tree first. Then the wanted nodes are
/// built in `room`, one after another in the byte order of their names, a failed one not keeping the others from being
/// built; then the packages of those that were built are put into the store, in that order; then the notices and the status
/// lists are printed in one write. Answers how the run ended, with the exit status: 0, or 1 where a node failed, where the
/// answer is Done; 2 for a refusal, 3 for a fault, 4 for want of memory.
///
/// The refusals, of which the first in this order is answered, with the store as it was and no build begun:
/// - Usage: the words are not `bulk` and at least one more;
/// - BadConf: etc/make.conf is at fault;
/// - NotYet: etc/poudriere.conf or a file below base/ is there;
/// - BadPort, Limit, DupName, or NotYet for a MOVED that is too long: the tree is at fault (`tree_index::index`);
/// - NoOrigin, NoFlavor, Gone, MovedLoop: a word is refused (`origin_flavor::wanted`);
/// - NotYet: a wanted node has dependencies or is ignored, then a file of its files is too long, then a name of the store
///   ends in `.pkg`.
///
/// TreeFault, StoreFault, RoomFault and SinkFault come where that object failed, in the place of what the failed call was
/// made for; NoMemory may come anywhere. Any answer but Done and NoMemory is printed as one line. An answer that comes
/// behind the builds leaves the packages of some first nodes in the store.
///
/// Costs those of `index` and `wanted`, a listing of files and a build for each wanted node, and the memory of all their
/// packages.
pub fn bulk_alone<T: Tree, S: Store, R: Room, K: Sink>(
    alloc: Global,
    words: &[Text],
    tree: &mut T,
    store: &mut S,
    room: &mut R,
    out: &mut K,
) -> Closed
    ensures told { IsTrue T.tells → IsTrue S.tells → EndsAs (refusal words.now (T.content tree.old) (S.content store.old)) result.answer }
    ensures before_store { IsTrue T.tells → EndsInTree (refusal_before_store words.now (T.content tree.old)) result.answer }
    ensures words { AnswersWords (asked_words words.now) result.answer }
    ensures whole { IsTrue T.tells → IsTrue S.tells → IsTrue K.tells → result.answer ≡ Answer.Done → IsWhole R.Ways.tells R.Ways.runs words.now (T.content tree.old) (S.content store.old) (S.content store.new) (R.begun room.old) (R.begun room.new) (K.written out.old) (K.written out.new) result.status }
    ensures done { IsTrue T.tells → IsTrue S.tells → refusal words.now (T.content tree.old) (S.content store.old) ≡ None → result.answer ≢ Answer.NoMemory → HaveNotRisen (T.faults tree.old) (T.faults tree.new) (S.faults store.old) (S.faults store.new) (R.faults room.old) (R.faults room.new) (K.faults out.old) (K.faults out.new) → result.answer ≡ Answer.Done }
    ensures cause { IsBlamed result.answer (T.faults tree.old) (T.faults tree.new) (S.faults store.old) (S.faults store.new) (R.faults room.old) (R.faults room.new) (K.faults out.old) (K.faults out.new) }
    ensures status { IsStatusOf result.answer result.status }
    ensures begun { BeganOnce (R.begun room.old) (R.begun room.new) }
    ensures name { IsTrue T.tells → BeganAtMost (wanted_ports words.now (T.content tree.old)) (R.begun room.old) (R.begun room.new) }
    ensures same { leaves_store result.answer ≡ true → IsUnchanged (S.content store.old) (S.content store.new) (S.journal store.old) (S.journal store.new) }
    ensures idle { leaves_rooms result.answer ≡ true → R.begun room.new ≡ R.begun room.old }
    ensures kept { told_refusal T.tells S.tells words.now (T.content tree.old) (S.content store.old) ≢ None → IsUnchanged (S.content store.old) (S.content store.new) (S.journal store.old) (S.journal store.new) }
    ensures still { told_refusal T.tells S.tells words.now (T.content tree.old) (S.content store.old) ≢ None → R.begun room.new ≡ R.begun room.old }
    ensures left { IsTrue T.tells → IsTrue S.tells → (S.content store.new ≡ S.content store.old) ⊎ HasStoredFirstWanted R.Ways.tells R.Ways.runs words.now (T.content tree.old) (S.content store.old) (S.content store.new) }
    ensures finished { IsTrue T.tells → IsTrue S.tells → result.answer ≡ Answer.SinkFault → HasStoredWanted R.Ways.tells R.Ways.runs words.now (T.content tree.old) (S.content store.old) (S.content store.new) }
    ensures line { IsTrue K.tells → result.answer ≢ Answer.Done → result.answer ≢ Answer.NoMemory → (Rose (K.faults out.old) (K.faults out.new) → ⊥) → K.written out.new ≡ K.written out.old ++ answer_line result.answer }
{
    match run(alloc, words, tree, store, room) {
        Err(answer) => refuse(alloc, out, answer),
        Ok(report) => match out.write(alloc, &report.text) {
            Ok(()) => Closed {
                status: report.status,
                answer: Answer::Done,
            },
            Err(Outer::Fault) => refuse(alloc, out, Answer::SinkFault),
            Err(Outer::NoMemory) => refuse(alloc, out, Answer::NoMemory),
        },
    }
}

// Runs a command that has no room.
fn without_rooms<K: Sink>(alloc: Global, words: &[Text], out: &mut K) -> Closed
    ensures told { EndsAs (roomless_refusal words.now) result.answer }
    ensures words { AnswersRoomless (asked_words words.now) result.answer }
    ensures refused { result.answer ≢ Answer.Done }
    ensures unprinted { result.answer ≢ Answer.SinkFault }
    ensures cause { (tb tn sb sn : ℕ) → IsBlamed result.answer tb tn sb sn 0 0 (K.faults out.old) (K.faults out.new) }
    ensures status { IsStatusOf result.answer result.status }
    ensures line { IsTrue K.tells → result.answer ≢ Answer.Done → result.answer ≢ Answer.NoMemory → (Rose (K.faults out.old) (K.faults out.new) → ⊥) → K.written out.new ≡ K.written out.old ++ answer_line result.answer }
{
    if is_command(words) {
        refuse(alloc, out, Answer::Builders { asked: 1, had: 0 })
    } else {
        refuse(alloc, out, Answer::Usage)
    }
}

/// Runs a command over a tree, a store and rooms, and prints to a sink: the program's whole work.
///
/// As `bulk_alone` in the first room; the others are not touched. Without a room the answer is Usage where that answers
/// Usage, and else Builders. The store and the rooms come back, the rooms in their order, whatever the answer is.
pub fn poudriere<
    W: Threads + Wait + Sync,
    T: Tree,
    S: Store + Send,
    R: Room + Send,
    G: Gate + Sync,
    K: Sink,
>(
    _rt: &W,
    alloc: Global,
    words: &[Text],
    tree: &mut T,
    store: S,
    rooms: Vec<R>,
    _gate: &G,
    out: &mut K,
) -> Finished<S, R>
where
    R::Ways: Send + Sync,
    requires { vec_len rooms < 2 ^ 32 }
    ensures told { IsTrue T.tells → IsTrue S.tells → EndsAs (refusal_over rooms.items words.now (T.content tree.old) (S.content store)) result.answer }
    ensures before_store { IsTrue T.tells → EndsInTree (refusal_over_before_store rooms.items words.now (T.content tree.old)) result.answer }
    ensures words { AnswersWordsOver rooms.items (asked_words words.now) result.answer }
    ensures whole { IsTrue T.tells → IsTrue S.tells → IsTrue K.tells → result.answer ≡ Answer.Done → IsWhole R.Ways.tells R.Ways.runs words.now (T.content tree.old) (S.content store) (S.content result.store) (begun_in_first R.begun rooms.items) (begun_in_first R.begun result.rooms.items) (K.written out.old) (K.written out.new) result.status }
    ensures done { IsTrue T.tells → IsTrue S.tells → refusal_over rooms.items words.now (T.content tree.old) (S.content store) ≡ None → result.answer ≢ Answer.NoMemory → HaveNotRisen (T.faults tree.old) (T.faults tree.new) (S.faults store) (S.faults result.store) (faults_of_first R.faults rooms.items) (faults_of_first R.faults result.rooms.items) (K.faults out.old) (K.faults out.new) → result.answer ≡ Answer.Done }
    ensures same { leaves_store result.answer ≡ true → IsUnchanged (S.content store) (S.content result.store) (S.journal store) (S.journal result.store) }
    ensures idle { leaves_rooms result.answer ≡ true → begun_in_first R.begun result.rooms.items ≡ begun_in_first R.begun rooms.items }
    ensures kept { told_refusal_over rooms.items T.tells S.tells words.now (T.content tree.old) (S.content store) ≢ None → IsUnchanged (S.content store) (S.content result.store) (S.journal store) (S.journal result.store) }
    ensures still { told_refusal_over rooms.items T.tells S.tells words.now (T.content tree.old) (S.content store) ≢ None → begun_in_first R.begun result.rooms.items ≡ begun_in_first R.begun rooms.items }
    ensures left { IsTrue T.tells → IsTrue S.tells → (S.content result.store ≡ S.content store) ⊎ HasStoredFirstWanted R.Ways.tells R.Ways.runs words.now (T.content tree.old) (S.content store) (S.content result.store) }
    ensures finished { IsTrue T.tells → IsTrue S.tells → result.answer ≡ Answer.SinkFault → HasStoredWanted R.Ways.tells R.Ways.runs words.now (T.content tree.old) (S.content store) (S.content result.store) }
    ensures cause { IsBlamed result.answer (T.faults tree.old) (T.faults tree.new) (S.faults store) (S.faults result.store) (faults_of_first R.faults rooms.items) (faults_of_first R.faults result.rooms.items) (K.faults out.old) (K.faults out.new) }
    ensures status { IsStatusOf result.answer result.status }
    ensures begun { BeganOnce (begun_in_first R.begun rooms.items) (begun_in_first R.begun result.rooms.items) }
    ensures name { IsTrue T.tells → BeganAtMost (wanted_ports words.now (T.content tree.old)) (begun_in_first R.begun rooms.items) (begun_in_first R.begun result.rooms.items) }
    ensures rooms { vec_len result.rooms ≡ vec_len rooms }
    ensures others { drop 1 result.rooms.items ≡ drop 1 rooms.items }
    ensures line { IsTrue K.tells → result.answer ≢ Answer.Done → result.answer ≢ Answer.NoMemory → (Rose (K.faults out.old) (K.faults out.new) → ⊥) → K.written out.new ≡ K.written out.old ++ answer_line result.answer }
{
    let mut store = store;
    let mut rooms = rooms;
    let closed = if rooms.is_empty() {
        without_rooms(alloc, words, out)
    } else {
        bulk_alone(alloc, words, tree, &mut store, &mut rooms[0], out)
    };
    Finished {
        status: closed.status,
        answer: closed.answer,
        store,
        rooms,
    }
}
