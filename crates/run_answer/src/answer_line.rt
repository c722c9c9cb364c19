// What a run prints in place of its lists.
ghost use Rattle.std.specs.Prelude.{◌≡◌, IfOk, []};
ghost use Rattle.std.specs.String.{string_bytes};
ghost use Rattle.run_answer.specs.AnswerLine as lines;

use crate::answer::Answer;
use crate::kind_text::{conf_text, dist_text, limit_name, port_text, spaced};
use bulk_base::{NoMemory, Path, Text};
use bulk_model::Which;
use std::alloc::Global;

// A line of the program's own.
fn own_line(alloc: Global, text: &str) -> Result<String, NoMemory>
    ensures { IfOk result (λ said. string_bytes said ≡ lines.message text.now) }
{
    Ok(format!(in alloc; "poudriere: {text}\n")?)
}

// What is said of a line of a file.
fn file_line(alloc: Global, path: &Text, line: u32, text: &str) -> Result<String, NoMemory>
    ensures { IfOk result (λ said. string_bytes said ≡ lines.message_at path.now line text.now) }
{
    Ok(format!(in alloc; "poudriere: {path}:{line}: {text}\n")?)
}

fn builders_line(alloc: Global, asked: u64, had: u64) -> Result<String, NoMemory>
    ensures { IfOk result (λ said. string_bytes said
        ≡ lines.answer_line [] (Answer.Builders asked had)) }
{
    Ok(format!(in alloc; "poudriere: {asked} builders asked, {had} rooms\n")?)
}

fn limit_line(alloc: Global, which: Which, count: u64) -> Result<String, NoMemory>
    ensures { IfOk result (λ said. string_bytes said
        ≡ lines.answer_line [] (Answer.Limit which count)) }
{
    let name = limit_name(which);
    Ok(format!(in alloc; "poudriere: limit {name}: {count}\n")?)
}

fn same_name_line(alloc: Global, a: &Text, b: &Text, name: &Text) -> Result<String, NoMemory>
    ensures { IfOk result (λ said. string_bytes said
        ≡ lines.answer_line [] (Answer.DupName a.now b.now name.now)) }
{
    Ok(format!(in alloc; "poudriere: {a} and {b} are both {name}\n")?)
}

fn bad_list_line(alloc: Global, path: &Text, line: u32) -> Result<String, NoMemory>
    ensures { IfOk result (λ said. string_bytes said
        ≡ lines.answer_line [] (Answer.BadList path.now line)) }
{
    Ok(format!(in alloc; "poudriere: bad list {path}:{line}\n")?)
}

fn gone_line(alloc: Global, word: &Text, reason: &Text) -> Result<String, NoMemory>
    ensures { IfOk result (λ said. string_bytes said
        ≡ lines.answer_line [] (Answer.Gone word.now reason.now)) }
{
    Ok(format!(in alloc; "poudriere: {word} was removed: {reason}\n")?)
}

fn circle_line(alloc: Global, origins: &[Text]) -> Result<String, NoMemory>
    ensures { IfOk result (λ said. string_bytes said
        ≡ lines.answer_line [] (Answer.MovedLoop origins.now)) }
{
    let names = spaced(alloc, origins)?;
    Ok(format!(in alloc; "poudriere: MOVED comes back:{names}\n")?)
}

fn absent_depend_line(alloc: Global, port: &Text, origin: &Text) -> Result<String, NoMemory>
    ensures { IfOk result (λ said. string_bytes said
        ≡ lines.answer_line [] (Answer.NoDepend port.now origin.now)) }
{
    Ok(format!(in alloc; "poudriere: {port} depends on {origin}, which is not there\n")?)
}

fn moved_depend_line(alloc: Global, port: &Text, old: &Text, new: &Text) -> Result<String, NoMemory>
    ensures { IfOk result (λ said. string_bytes said
        ≡ lines.answer_line [] (Answer.MovedDepend port.now old.now new.now)) }
{
    Ok(format!(in alloc; "poudriere: {port} depends on {old}, which moved to {new}\n")?)
}

fn loop_line(alloc: Global, ports: &[Text]) -> Result<String, NoMemory>
    ensures { IfOk result (λ said. string_bytes said
        ≡ lines.answer_line [] (Answer.Loop ports.now)) }
{
    let names = spaced(alloc, ports)?;
    Ok(format!(in alloc; "poudriere: dependency loop:{names}\n")?)
}

fn dist_line(alloc: Global, port: &Text, file: &Path, differs: &str) -> Result<String, NoMemory>
    ensures { IfOk result (λ said. string_bytes said
        ≡ lines.dist_line port.now file.now differs.now) }
{
    Ok(format!(in alloc; "poudriere: {port}: distfile {file}: {differs}\n")?)
}

fn text(alloc: Global, answer: &Answer, usage: &str) -> Result<String, NoMemory>
    ensures { IfOk result (λ said. string_bytes said ≡ lines.answer_line usage.now answer.now) }
{
    match answer {
        Answer::Done => Ok(String::new(alloc)),
        Answer::Usage => Ok(format!(in alloc; "{usage}\n")?),
        Answer::Builders { asked, had } => builders_line(alloc, *asked, *had),
        Answer::BadConf { path, line, kind } => {
            file_line(alloc, path, *line, conf_text(alloc, kind)?.as_str())
        }
        Answer::BadPort { path, line, kind } => {
            file_line(alloc, path, *line, port_text(alloc, kind)?.as_str())
        }
        Answer::DupName { a, b, name } => same_name_line(alloc, a, b, name),
        Answer::Limit { which, count } => limit_line(alloc, *which, *count),
        Answer::NoList { path } => Ok(format!(in alloc; "poudriere: no list {path}\n")?),
        Answer::BadList { path, line } => bad_list_line(alloc, path, *line),
        Answer::NoOrigin { word } => Ok(format!(in alloc; "poudriere: no origin {word}\n")?),
        Answer::NoFlavor { word } => Ok(format!(in alloc; "poudriere: no flavor {word}\n")?),
        Answer::Gone { word, reason } => gone_line(alloc, word, reason),
        Answer::MovedLoop { origins } => circle_line(alloc, origins.as_slice()),
        Answer::NoDepend { port, origin } => absent_depend_line(alloc, port, origin),
        Answer::MovedDepend { port, old, new } => moved_depend_line(alloc, port, old, new),
        Answer::Loop { ports } => loop_line(alloc, ports.as_slice()),
        Answer::BadDist { port, file, why } => dist_line(alloc, port, file, dist_text(*why)),
        Answer::BadCurrent => own_line(alloc, "bad current"),
        Answer::TreeFault => own_line(alloc, "tree failed"),
        Answer::StoreFault => own_line(alloc, "store failed"),
        Answer::DistFault => own_line(alloc, "distfiles failed"),
        Answer::SiteFault => own_line(alloc, "site failed"),
        Answer::RoomFault { builder } => {
            Ok(format!(in alloc; "poudriere: room {builder} failed\n")?)
        }
        Answer::SinkFault => own_line(alloc, "output failed"),
        Answer::NoMemory => own_line(alloc, "out of memory"),
    }
}

/// The one line that is printed of an answer, with its line feed; nothing for Done, whose lists are
/// printed instead. `usage` is the usage line of the command, without a line feed. Takes time in
/// the line's bytes. Source: docs/FORMATS.md, "Refusals".
pub fn write_line(alloc: Global, answer: &Answer, usage: &str) -> Result<Vec<u8>, NoMemory>
    ensures { IfOk result (λ bytes. bytes.items ≡ lines.answer_line usage.now answer.now) }
{
    Ok(text(alloc, answer, usage)?.into_bytes())
}
