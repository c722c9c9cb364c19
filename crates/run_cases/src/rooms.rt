// Rooms in memory, and the programs that run in them.
use crate::memory::{MemRoom, Outer, Room};
use crate::stores::push_done;
use crate::trees::{push_file, push_paths};
use bulk_base::{Path, Text};
use case_text::{
    CaseError, bytes_of, fails_of, number_of, path_of, push_number, push_str, push_texts, text_of,
    words_of,
};
use std::alloc::{AllocError, Global};

/// Begins a build in a room with one file.
fn begin(
    alloc: Global,
    room: &mut MemRoom,
    name: &Text,
    file: &Path,
    bytes: &[u8],
) -> Result<(), Outer> {
    room.clear(alloc, name)?;
    room.put(alloc, file, bytes)
}

fn push_begun(
    alloc: Global,
    room: &mut MemRoom,
    [name, file, bytes]: [&str; 3],
    out: &mut Vec<u8>,
) -> Result<(), CaseError> {
    let name = text_of(alloc, name)?;
    let file = path_of(alloc, file)?;
    let bytes = bytes_of(alloc, bytes)?;
    Ok(push_done(&begin(alloc, room, &name, &file, bytes.as_slice()), out)?)
}

fn push_status(
    alloc: Global,
    status: &Result<u8, Outer>,
    out: &mut Vec<u8>,
) -> Result<(), AllocError> {
    match status {
        Ok(status) => push_number(alloc, out, u64::from(*status)),
        Err(Outer::Fault) => push_str(out, "Fault"),
        Err(Outer::NoMemory) => push_str(out, "NoMemory"),
    }
}

/// Puts at the end the status of a command.
fn push_run(
    alloc: Global,
    room: &mut MemRoom,
    command: &str,
    out: &mut Vec<u8>,
) -> Result<(), CaseError> {
    let words = words_of(alloc, command)?;
    if words.is_empty() {
        return Err(CaseError::Unfit);
    }
    Ok(push_status(alloc, &room.run(alloc, words.as_slice()), out)?)
}

/// Puts at the end what a call of the room answers.
fn push_call(
    alloc: Global,
    room: &mut MemRoom,
    call: &[&str],
    out: &mut Vec<u8>,
) -> Result<(), CaseError> {
    match call {
        ["clear", name] => Ok(push_done(&room.clear(alloc, &text_of(alloc, name)?), out)?),
        ["begin", name, file, bytes] => push_begun(alloc, room, [name, file, bytes], out),
        ["names", folder] => Ok(push_paths(&room.names(alloc, &path_of(alloc, folder)?), out)?),
        ["take", most, file] => {
            let found = room.take(alloc, &path_of(alloc, file)?, number_of(most)?);
            Ok(push_file(&found, out)?)
        }
        _ => Err(CaseError::Unfit),
    }
}

/// Puts at the end what a call of the room answers that may be a command, behind `$ `.
fn push_call_or_run(
    alloc: Global,
    room: &mut MemRoom,
    call: &str,
    out: &mut Vec<u8>,
) -> Result<(), CaseError> {
    match call.strip_prefix("$ ") {
        Some(command) => push_run(alloc, room, command, out),
        None => {
            let words: Vec<&str> = call.split(' ').collect(alloc)?;
            push_call(alloc, room, words.as_slice(), out)
        }
    }
}

fn push_calls(
    alloc: Global,
    room: &mut MemRoom,
    calls: &str,
    out: &mut Vec<u8>,
) -> Result<(), CaseError> {
    for call in calls.split(';') {
        push_call_or_run(alloc, room, call, out)?;
        push_str(out, "; ")?;
    }
    push_str(out, "begun")?;
    push_texts(out, room.begun())?;
    push_str(out, "; faults ")?;
    Ok(push_number(alloc, out, room.faults())?)
}

/// What the calls of a room answer, one after another, with `;` between, the names that were begun, and how many calls failed. A call
/// that begins with `$ ` is a command.
pub(crate) fn answer_room(
    alloc: Global,
    fails: &str,
    calls: &str,
    out: &mut Vec<u8>,
) -> Result<(), CaseError> {
    let mut room = MemRoom::new(alloc, fails_of(alloc, fails, "")?)?;
    push_calls(alloc, &mut room, calls, out)
}
