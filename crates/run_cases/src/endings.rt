// How runs end.
use case_text::{push_number, push_str};
use one_port::{Answer, Closed};
use std::alloc::{AllocError, Global};

/// The variant of an answer.
fn answer_name(answer: &Answer) -> &'static str {
    match answer {
        Answer::Done => "Done",
        Answer::Usage => "Usage",
        Answer::Builders { .. } => "Builders",
        Answer::BadConf { .. } => "BadConf",
        Answer::BadPort { .. } => "BadPort",
        Answer::DupName { .. } => "DupName",
        Answer::Limit { .. } => "Limit",
        Answer::NoOrigin { .. } => "NoOrigin",
        Answer::NoFlavor { .. } => "NoFlavor",
        Answer::Gone { .. } => "Gone",
        Answer::MovedLoop { .. } => "MovedLoop",
        Answer::NotYet { .. } => "NotYet",
        Answer::TreeFault => "TreeFault",
        Answer::StoreFault => "StoreFault",
        Answer::RoomFault { .. } => "RoomFault",
        Answer::SinkFault => "SinkFault",
        Answer::NoMemory => "NoMemory",
    }
}

/// Puts at the end how a run ended: its status, and the variant of its answer.
pub(crate) fn push_closed(
    alloc: Global,
    closed: &Closed,
    out: &mut Vec<u8>,
) -> Result<(), AllocError> {
    push_number(alloc, out, u64::from(closed.status))?;
    push_str(out, " ")?;
    push_str(out, answer_name(&closed.answer))
}
