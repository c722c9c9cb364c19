// What a run prints in place of its lists, and its exit status.
ghost use Rattle.std.specs.Prelude.{◌≡◌, IfOk};
ghost use Rattle.std.specs.String.{string_bytes};
ghost use Rattle.one_port.specs.AnswerLine as lines;

use crate::answer::Answer;
use crate::kind_text::{conf_text, limit_name, port_text, spaced};
use bulk_base::{NoMemory, Text};
use bulk_model::Which;
use std::alloc::Global;

const USAGE: &str = "usage: poudriere bulk [-acCnT] [-f path] [-J n] [origin ...]\n";

// What is said of a line of a file.
fn said_at(alloc: Global, path: &Text, line: u32, text: &str) -> Result<String, NoMemory>
    ensures { IfOk result (λ said. string_bytes said ≡ lines.said_at path.now line text.now) }
{
    Ok(format!(in alloc; "poudriere: {path}:{line}: {text}\n")?)
}

fn limit_text(alloc: Global, which: Which, count: u64) -> Result<String, NoMemory>
    ensures { IfOk result (λ text. string_bytes text ≡ lines.answer_line (Answer.Limit which count)) }
{
    let name = limit_name(which);
    Ok(format!(in alloc; "poudriere: limit {name}: {count}\n")?)
}

fn circle_text(alloc: Global, origins: &[Text]) -> Result<String, NoMemory>
    ensures { IfOk result (λ text. string_bytes text ≡ lines.answer_line (Answer.MovedLoop origins.now)) }
{
    let names = spaced(alloc, origins)?;
    Ok(format!(in alloc; "poudriere: MOVED comes back:{names}\n")?)
}

fn text(alloc: Global, answer: &Answer) -> Result<String, NoMemory>
    ensures { IfOk result (λ text. string_bytes text ≡ lines.answer_line answer.now) }
{
    match answer {
        Answer::Done => Ok(String::new(alloc)),
        Answer::Usage => Ok(String::from_str(alloc, USAGE)?),
        Answer::Builders { asked, had } => {
            Ok(format!(in alloc; "poudriere: {asked} builders asked, {had} rooms\n")?)
        }
        Answer::BadConf { path, line, kind } => {
            said_at(alloc, path, *line, conf_text(alloc, kind)?.as_str())
        }
        Answer::BadPort { path, line, kind } => {
            said_at(alloc, path, *line, port_text(alloc, kind)?.as_str())
        }
        Answer::DupName { a, b, name } => {
            Ok(format!(in alloc; "poudriere: {a} and {b} are both {name}\n")?)
        }
        Answer::Limit { which, count } => limit_text(alloc, *which, *count),
        Answer::NoOrigin { word } => Ok(format!(in alloc; "poudriere: no origin {word}\n")?),
        Answer::NoFlavor { word } => Ok(format!(in alloc; "poudriere: no flavor {word}\n")?),
        Answer::Gone { word, reason } => {
            Ok(format!(in alloc; "poudriere: {word} was removed: {reason}\n")?)
        }
        Answer::MovedLoop { origins } => circle_text(alloc, origins.as_slice()),
        Answer::NotYet { path } => Ok(format!(in alloc; "poudriere: {path}: not yet\n")?),
        Answer::TreeFault => Ok(String::from_str(alloc, "poudriere: tree failed\n")?),
        Answer::StoreFault => Ok(String::from_str(alloc, "poudriere: store failed\n")?),
        Answer::RoomFault { builder } => {
            Ok(format!(in alloc; "poudriere: room {builder} failed\n")?)
        }
        Answer::SinkFault => Ok(String::from_str(alloc, "poudriere: output failed\n")?),
        Answer::NoMemory => Ok(String::from_str(alloc, "poudriere: out of memory\n")?),
    }
}

/// The line that an answer prints; nothing for a run that printed its lists.
pub(crate) fn line(alloc: Global, answer: &Answer) -> Result<Vec<u8>, NoMemory>
    ensures { IfOk result (λ bytes. bytes.items ≡ lines.answer_line answer.now) }
{
    Ok(text(alloc, answer)?.into_bytes())
}

/// The exit status of an answer; 0 for a run that printed its lists.
pub(crate) fn status(answer: &Answer) -> u8
    ensures { result ≡ lines.answer_status answer.now }
{
    match answer {
        Answer::Done => 0,
        Answer::Usage
        | Answer::Builders { .. }
        | Answer::BadConf { .. }
        | Answer::BadPort { .. }
        | Answer::DupName { .. }
        | Answer::Limit { .. }
        | Answer::NoOrigin { .. }
        | Answer::NoFlavor { .. }
        | Answer::Gone { .. }
        | Answer::MovedLoop { .. }
        | Answer::NotYet { .. } => 2,
        Answer::TreeFault | Answer::StoreFault | Answer::RoomFault { .. } | Answer::SinkFault => 3,
        Answer::NoMemory => 4,
    }
}
