// How a run ends: the line of an answer in place of the lists.
ghost use Rattle.std.specs.Prelude.{◌≡◌, ◌≢◌, ◌≤◌, ◌++◌, ◌⊎◌, IsTrue, OnOk};
ghost use Rattle.outside.specs.Faults.{HasCause, Rose};
ghost use Rattle.one_port.specs.AnswerLine.{answer_line, answer_status};

use crate::answer::{Answer, Closed};
use crate::answer_line::{line, status};
use outside::{Outer, Sink};
use std::alloc::Global;

fn say<K: Sink>(alloc: Global, out: &mut K, answer: &Answer) -> Result<(), Outer>
    ensures told { IsTrue K.tells → OnOk result (K.written out.new ≡ K.written out.old ++ answer_line answer.now) }
    ensures cause { HasCause (K.faults out.old) (K.faults out.new) result }
{
    let text = line(alloc, answer)?;
    out.write(alloc, &text)
}

fn without_memory(answer: Answer) -> Answer
    ensures answer { (result ≡ answer) ⊎ (result ≡ Answer.NoMemory) }
    ensures sink { answer ≡ Answer.SinkFault → result ≡ Answer.SinkFault }
    ensures memory { answer ≢ Answer.SinkFault → result ≡ Answer.NoMemory }
{
    match answer {
        Answer::SinkFault => Answer::SinkFault,
        _ => Answer::NoMemory,
    }
}

/// Prints an answer's line, once. Where the sink fails at it the answer stays; where memory is refused for it the answer
/// is want of memory, but a fault of the sink stays.
pub(crate) fn refuse<K: Sink>(alloc: Global, out: &mut K, answer: Answer) -> Closed
    ensures answer { (result.answer ≡ answer) ⊎ (result.answer ≡ Answer.NoMemory) }
    ensures sink { answer ≡ Answer.SinkFault → result.answer ≡ Answer.SinkFault }
    ensures status { result.status ≡ answer_status result.answer }
    ensures later { K.faults out.old ≤ K.faults out.new }
    ensures line { IsTrue K.tells → answer ≢ Answer.SinkFault → result.answer ≢ Answer.NoMemory → (Rose (K.faults out.old) (K.faults out.new) → ⊥) → K.written out.new ≡ K.written out.old ++ answer_line result.answer }
{
    match say(alloc, out, &answer) {
        Err(Outer::NoMemory) => {
            let answer = without_memory(answer);
            Closed {
                status: status(&answer),
                answer,
            }
        }
        _ => Closed {
            status: status(&answer),
            answer,
        },
    }
}
