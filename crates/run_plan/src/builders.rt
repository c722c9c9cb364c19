// The number of builders of a run.
ghost use Rattle.std.specs.Prelude.{◌≡◌, false, Ok, IfOk};
ghost use Rattle.std.specs.Option.{option_copied};
ghost use Rattle.outside.specs.Faults.{err_is};
ghost use Rattle.run_answer.specs.Kind.{blames_tree};
ghost use Rattle.run_answer.specs.Steps.{IsOfReading};
ghost use Rattle.run_plan.specs.Answering.{is_usage, lacks_rooms, may_lack};
ghost use Rattle.run_plan.specs.Settings as settings;

use run_answer::Answer;

/// How many builders are asked for: by the words, else by poudriere.conf, else one
/// (poudriere-bulk(8), "-J"; the comments of poudriere.conf, "PARALLEL_JOBS"). Takes no memory.
pub fn asked_builders(words: Option<u64>, conf: Option<u64>) -> u64
    ensures { result ≡ settings.builders_asked words conf }
{
    words.unwrap_or(conf.unwrap_or(1))
}

/// The number of builders, `asked`, where there are so many: the end of the second step of a run.
///
/// Builders exactly where a number of rooms is handed in, the run is no dry one, and 0 or more than
/// the rooms are asked. Takes no memory.
pub fn check_builders(rooms: Option<u64>, dry_run: bool, asked: u64) -> Result<u64, Answer>
    ensures told { result ≡ settings.builders_step rooms dry_run asked }
    ensures enough { IfOk result (λ builders. (builders ≡ asked)
        × (settings.builders_step rooms dry_run builders ≡ Ok builders)) }
    ensures reading { IsOfReading result }
    ensures usage { err_is is_usage result ≡ false }
    ensures rooms { may_lack rooms dry_run ≡ false → err_is lacks_rooms result ≡ false }
    ensures quiet { err_is blames_tree result ≡ false }
{
    match rooms {
        Some(had) if !dry_run && (asked == 0 || had < asked) => Err(Answer::Builders {
            asked,
            had,
        }),
        _ => Ok(asked),
    }
}
