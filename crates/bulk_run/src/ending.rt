// How a run ends: the lists that it prints, or the line of an answer in place of them.
ghost use Rattle.std.specs.Prelude.{◌≡◌, ◌≢◌, ◌≤◌, ◌++◌, ◌⊎◌, true, IsTrue, []};
ghost use Rattle.outside.specs.Faults.{HasCause, Rose};
ghost use Rattle.outside.specs.Outcomes.{Wrote};
ghost use Rattle.run_answer.specs.AnswerLine.{answer_status};
ghost use Rattle.bulk_run.specs.Blame.{IsCounted, blames_sink, is_done};
ghost use Rattle.bulk_run.specs.Ending.{BeginsToPrint, answer_line};
ghost use Rattle.bulk_run.specs.Refusals.{is_of_printing};

use bulk_base::Bytes;
use command_words::{CommandName, usage_line};
use outside::{Outer, Sink};
use run_answer::{Answer, Closed, exit_status, write_line};
use std::alloc::Global;

/// What a run prints where nothing is refused, and its exit status.
#[derive(Debug, Drop)]
pub(crate) struct Report {
    /// The lists.
    pub(crate) text: Bytes,
    /// 1 where a port failed or was skipped, or would be, else 0.
    pub(crate) status: u8,
}

// Prints the line of an answer, once.
fn say<K: Sink>(alloc: Global, out: &mut K, answer: &Answer) -> Result<(), Outer>
    ensures told { IsTrue K.tells → Wrote (answer_line answer.now)
        (K.written out.old) (K.written out.new) result }
    ensures cause { HasCause (K.faults out.old) (K.faults out.new) result }
{
    let line = write_line(alloc, answer, usage_line(CommandName::Bulk))?;
    out.write(alloc, &line)
}

// The answer where memory was refused for the line of another one: a fault of the sink stays.
fn without_memory(answer: Answer) -> Answer
    ensures answer { (result ≡ answer) ⊎ (result ≡ Answer.NoMemory) }
    ensures sink { answer ≡ Answer.SinkFault → result ≡ Answer.SinkFault }
    ensures memory { answer ≢ Answer.SinkFault → result ≡ Answer.NoMemory }
{
    match answer {
        Answer::SinkFault => Answer::SinkFault,
        _ => Answer::NoMemory,
    }
}

/// Ends a run with an answer that is not Done, and prints its line, once. Where the sink fails at
/// it the answer stays; where memory is refused for it the answer is want of memory, but a fault of
/// the sink stays. The line's bytes are copied once.
pub(crate) fn refuse<K: Sink>(alloc: Global, out: &mut K, answer: Answer) -> Closed
    ensures answer { (result.answer ≡ answer) ⊎ (result.answer ≡ Answer.NoMemory) }
    ensures sink { answer ≡ Answer.SinkFault → result.answer ≡ Answer.SinkFault }
    ensures status { result.status ≡ answer_status result.answer }
    ensures later { K.faults out.old ≤ K.faults out.new }
    ensures line { IsTrue K.tells → answer ≢ Answer.SinkFault → result.answer ≢ Answer.NoMemory
        → (Rose (K.faults out.old) (K.faults out.new) → ⊥)
        → K.written out.new ≡ K.written out.old ++ answer_line result.answer }
    ensures begun { IsTrue K.tells
        → BeginsToPrint [] (K.written out.old) (K.written out.new) result.answer }
{
    match say(alloc, out, &answer) {
        Err(Outer::NoMemory) => {
            let answer = without_memory(answer);
            Closed {
                status: exit_status(&answer),
                answer,
            }
        }
        _ => Closed {
            status: exit_status(&answer),
            answer,
        },
    }
}

/// Ends a run with the lists of its report, printed in one write. SinkFault where the sink failed
/// at them, and NoMemory where memory was refused for them, each then with its line behind what of
/// the lists was printed.
pub(crate) fn print_report<K: Sink>(alloc: Global, out: &mut K, report: &Report) -> Closed
    ensures answers { is_of_printing result.answer ≡ true }
    ensures done { result.answer ≡ Answer.Done → result.status ≡ report.now.status }
    ensures text { IsTrue K.tells → result.answer ≡ Answer.Done
        → K.written out.new ≡ K.written out.old ++ report.now.text }
    ensures status { result.answer ≢ Answer.Done → result.status ≡ answer_status result.answer }
    ensures cause { IsCounted (K.faults out.old) (K.faults out.new)
        (blames_sink result.answer) (is_done result.answer) }
    ensures begun { IsTrue K.tells → BeginsToPrint report.now.text
        (K.written out.old) (K.written out.new) result.answer }
{
    match out.write(alloc, report.text.as_slice()) {
        Ok(()) => Closed {
            status: report.status,
            answer: Answer::Done,
        },
        Err(Outer::Fault) => refuse(alloc, out, Answer::SinkFault),
        Err(Outer::NoMemory) => refuse(alloc, out, Answer::NoMemory),
    }
}
