// How a run ended, and what comes back from it.
ghost use Rattle.std.specs.Prelude.{◌≡◌};
ghost use Rattle.run_answer.specs.AnswerLine.{answer_status};

use crate::answer::Answer;

/// How a run ended, and what comes back from it.
pub struct Finished<S, R> {
    /// The process's exit status: 0, or 1 where a port failed or was skipped; 2 for a refusal, 3
    /// for a fault, 4 for want of memory.
    pub status: u8,
    /// How the run ended.
    pub answer: Answer,
    /// The store that was handed in.
    pub store: S,
    /// The rooms that were handed in, in their order.
    pub rooms: Vec<R>,
}

/// How a run ended that was lent what it worked on.
#[derive(Debug, Drop)]
pub struct Closed {
    /// The process's exit status: as that of [`Finished`].
    pub status: u8,
    /// How the run ended.
    pub answer: Answer,
}

/// The exit status of an answer: 2 for a refusal, 3 for a fault, 4 for want of memory. Of a run
/// that is Done, 0: what was built and skipped decides whether it is 1 instead. Takes no memory.
pub fn exit_status(answer: &Answer) -> u8
    ensures { result ≡ answer_status answer.now }
{
    match answer {
        Answer::Done => 0,
        Answer::TreeFault
        | Answer::StoreFault
        | Answer::DistFault
        | Answer::SiteFault
        | Answer::RoomFault { .. }
        | Answer::SinkFault => 3,
        Answer::NoMemory => 4,
        Answer::Usage
        | Answer::Builders { .. }
        | Answer::BadConf { .. }
        | Answer::BadPort { .. }
        | Answer::DupName { .. }
        | Answer::Limit { .. }
        | Answer::NoList { .. }
        | Answer::BadList { .. }
        | Answer::NoOrigin { .. }
        | Answer::NoFlavor { .. }
        | Answer::Gone { .. }
        | Answer::MovedLoop { .. }
        | Answer::NoDepend { .. }
        | Answer::MovedDepend { .. }
        | Answer::Loop { .. }
        | Answer::BadDist { .. }
        | Answer::BadCurrent => 2,
    }
}
