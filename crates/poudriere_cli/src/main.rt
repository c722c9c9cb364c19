//! The program `poudriere`: the ports tree, the package store, the rooms and standard output as they stand outside,
//! handed to the builder.
#![tactic(auto)]

mod dir_room;
mod dir_store;
mod dir_tree;
mod fault;
mod folder_files;
mod listing;
mod out_sink;
mod place;
#[cfg(test)]
mod tests;
mod walk;
mod words;

ghost use Rattle.std.specs.Prelude.{◌≡◌, ◌≤◌, vec_len, IfOk};
ghost use Rattle.command_words.specs.Asked.{asked_of};
ghost use Rattle.poudriere_cli.specs.Choice.{is_dry_run};

use crate::dir_room::DirRoom;
use crate::dir_store::DirStore;
use crate::dir_tree::DirTree;
use crate::out_sink::OutSink;
use crate::words::{WordsError, given_words};
use bulk_base::{NoMemory, Text};
use bulk_run::dry_run;
use command_words::{Asked, read_words};
use one_port::{Finished, poudriere};
use outside::{OpenGate, Sink};
use std::alloc::{AllocError, Global};
use std::process::ExitCode;
use std::sync::Wait;
use std::thread::Threads;

/// How many rooms there are.
const ROOMS: u32 = 64;

const USAGE: &str = "usage: poudriere bulk [-acCnT] [-f path] [-J n] [origin ...]\n";

const OUT_OF_MEMORY: &str = "poudriere: out of memory\n";

/// The exit status where the words are no command.
const USAGE_STATUS: u8 = 2;

/// The exit status for want of memory.
const OUT_OF_MEMORY_STATUS: u8 = 4;

/// What a run works on, but for its output.
struct Outside<'a> {
    tree: DirTree<&'a HostRuntime>,
    store: DirStore<&'a HostRuntime>,
    rooms: Vec<DirRoom<&'a HostRuntime>>,
}

/// A room's folder begins with a dot, so that the shell takes it as it stands, whatever CDPATH says.
fn rooms(rt: &HostRuntime, alloc: Global) -> Result<Vec<DirRoom<&HostRuntime>>, NoMemory>
    ensures { IfOk result (λ rooms. vec_len rooms ≤ 64) }
{
    let mut rooms = Vec::new(alloc);
    for number in 0..ROOMS {
        let folder = format!(in alloc; "./rooms/{number:02}")?;
        rooms.push(DirRoom::new(rt, alloc, folder))?;
    }
    Ok(rooms)
}

impl<'a> Outside<'a> {
    fn new(rt: &'a HostRuntime, alloc: Global) -> Result<Outside<'a>, NoMemory>
        ensures { IfOk result (λ outside. vec_len outside.rooms ≤ 64) }
    {
        Ok(Outside {
            tree: DirTree::new(rt, String::from_str(alloc, "tree")?),
            store: DirStore::new(rt, String::from_str(alloc, "packages")?),
            rooms: rooms(rt, alloc)?,
        })
    }
}

/// Prints why no command was run; the exit status, whether the line is taken or not.
fn refuse<K: Sink>(alloc: Global, out: &mut K, error: WordsError) -> ExitCode {
    let (line, status) = match error {
        WordsError::NotText => (USAGE, USAGE_STATUS),
        WordsError::NoMemory => (OUT_OF_MEMORY, OUT_OF_MEMORY_STATUS),
    };
    let _ = out.write(alloc, line.as_bytes());
    ExitCode::from(status)
}

/// Whether words ask what `bulk` would do, and for nothing to be done.
fn asks_dry_run(alloc: Global, words: &[Text]) -> Result<bool, NoMemory>
    ensures { IfOk result (λ dry. dry ≡ is_dry_run (asked_of words.now)) }
{
    match read_words(alloc, words)? {
        Asked::Bulk(bulk) => Ok(bulk.dry_run),
        _ => Ok(false),
    }
}

/// Runs the command that words ask for; its exit status.
fn run<W: Threads + Wait + Sync, K: Sink>(
    rt: &W,
    alloc: Global,
    words: &[Text],
    outside: Outside,
    out: &mut K,
) -> Result<u8, NoMemory>
    requires { vec_len outside.rooms ≤ 64 }
{
    let Outside {
        mut tree,
        mut store,
        rooms,
    } = outside;
    if asks_dry_run(alloc, words)? {
        return Ok(dry_run(alloc, words, &mut tree, &mut store, out).status);
    }
    let Finished {
        status,
        answer: _,
        store: _,
        rooms: _,
    } = poudriere(rt, alloc, words, &mut tree, store, rooms, &OpenGate, out);
    Ok(status)
}

fn main(rt: HostRuntime) -> ExitCode {
    let alloc = rt.alloc();
    let mut out = OutSink::new(rt.stdout());
    let words = match given_words(&rt, alloc) {
        Ok(words) => words,
        Err(error) => return refuse(alloc, &mut out, error),
    };
    let Ok(outside) = Outside::new(&rt, alloc) else {
        return refuse(alloc, &mut out, WordsError::NoMemory);
    };
    match run(&rt, alloc, words.as_slice(), outside, &mut out) {
        Ok(status) => ExitCode::from(status),
        Err(AllocError) => refuse(alloc, &mut out, WordsError::NoMemory),
    }
}
