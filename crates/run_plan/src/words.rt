// The words of a run.
ghost use Rattle.run_answer.specs.Kind.{blames_tree};
ghost use Rattle.std.specs.Prelude.{◌≡◌, false};
ghost use Rattle.outside.specs.Faults.{err_is};
ghost use Rattle.run_answer.specs.Steps.{IsOfReading, Tells};
ghost use Rattle.run_plan.specs.Answering.{AnswersWords, lacks_rooms};
ghost use Rattle.run_plan.specs.Words.{words_step};

use bulk_base::Text;
use command_words::{Asked, BulkWords, read_words};
use run_answer::Answer;
use std::alloc::Global;

/// What the words of `bulk` ask for: the first step of a run (poudriere-bulk(8); docs/FORMATS.md,
/// "The words of a command").
///
/// Usage exactly where they are not well-formed words of `bulk`: those of another command are not.
/// NoMemory for want of memory alone. The cost is that of `read_words` of command_words.
pub fn read_bulk(alloc: Global, words: &[Text]) -> Result<BulkWords, Answer>
    ensures told { Tells (words_step words.now) result }
    ensures words { AnswersWords (words_step words.now) result }
    ensures rooms { err_is lacks_rooms result ≡ false }
    ensures reading { IsOfReading result }
    ensures quiet { err_is blames_tree result ≡ false }
{
    match read_words(alloc, words)? {
        Asked::Bulk(words) => Ok(words),
        _ => Err(Answer::Usage),
    }
}
