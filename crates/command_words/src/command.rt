// A command line read whole.
ghost use Rattle.std.specs.Prelude.{◌≡◌, OnOk, IfOk};
ghost use Rattle.clap.specs.Walk.{texts};
ghost use Rattle.command_words.specs.Asked as asked;
ghost use Rattle.command_words.specs.Refused.{HasUsageWhereRefused};
ghost use Rattle.command_words.specs.Texts.{HaveTextBytes};

use crate::asked::{Asked, CommandName};
use crate::description::{Flags, match_words};
use crate::matches::read_matches;
use bulk_base::{NoMemory, Text, number};
use std::alloc::Global;

/// Words as clap takes them.
fn strings_of<'a>(alloc: Global, words: &'a [Text]) -> Result<Vec<&'a str>, NoMemory>
    ensures same { IfOk result (λ strings. texts strings.items ≡ words.entry.now) }
    ensures form { OnOk result (HaveTextBytes words.entry.now) }
{
    let mut strings = Vec::new(alloc);
    for word in words {
        strings.push(word.as_str())?;
    }
    Ok(strings)
}

fn usage_for(flags: Flags) -> Asked
    ensures { result ≡ Asked.Usage (asked.name_of flags) }
{
    let command = match flags {
        Flags::OfBulk => CommandName::Bulk,
        Flags::OfPkgclean => CommandName::PkgClean,
    };
    Asked::Usage { command }
}

/// What a command with flags asks for, by all its words.
fn read_flags(alloc: Global, flags: Flags, words: &[Text]) -> Result<Asked, NoMemory>
    ensures { IfOk result (λ found. found ≡ asked.flags_asked flags words.now) }
{
    let strings = strings_of(alloc, words)?;
    match match_words(alloc, flags, strings.as_slice())? {
        Some(matches) => read_matches(alloc, flags, &matches),
        None => Ok(usage_for(flags)),
    }
}

fn read_sample(rest: &[Text]) -> Asked
    ensures { result ≡ asked.sample_asked rest.now }
{
    if let [word] = rest {
        if let Some(number) = number(word) {
            return Asked::Sample { number };
        }
    }
    Asked::Usage {
        command: CommandName::Bulk,
    }
}

fn read_testport(alloc: Global, rest: &[Text]) -> Result<Asked, NoMemory>
    ensures { IfOk result (λ found. found ≡ asked.testport_asked rest.now) }
{
    match rest {
        [word] if !word.bytes().ends_with(b"@all") => Ok(Asked::TestPort {
            word: word.copy(alloc)?,
        }),
        _ => Ok(Asked::Usage {
            command: CommandName::TestPort,
        }),
    }
}

fn read_distclean(rest: &[Text]) -> Asked
    ensures { result ≡ asked.distclean_asked rest.now }
{
    match rest {
        [] => Asked::DistClean { dry_run: false },
        [word] if word.is(b"-n") => Asked::DistClean { dry_run: true },
        _ => Asked::Usage {
            command: CommandName::DistClean,
        },
    }
}

fn read_publish(rest: &[Text]) -> Asked
    ensures { result ≡ asked.publish_asked rest.now }
{
    if rest.is_empty() {
        Asked::Publish
    } else {
        Asked::Usage {
            command: CommandName::Publish,
        }
    }
}

/// Whose flags a command's words are read by, if they are.
fn flags_of(command: &Text) -> Option<Flags>
    ensures { result ≡ asked.flags_of command.now }
{
    if command.is(b"bulk") {
        Some(Flags::OfBulk)
    } else if command.is(b"pkgclean") {
        Some(Flags::OfPkgclean)
    } else {
        None
    }
}

/// What another command asks for, by its name and the words behind it.
fn read_others(alloc: Global, command: &Text, rest: &[Text]) -> Result<Asked, NoMemory>
    ensures { IfOk result (λ found. found ≡ asked.words_asked command.now rest.now) }
{
    if command.is(b"sample") {
        Ok(read_sample(rest))
    } else if command.is(b"testport") {
        read_testport(alloc, rest)
    } else if command.is(b"distclean") {
        Ok(read_distclean(rest))
    } else if command.is(b"publish") {
        Ok(read_publish(rest))
    } else {
        Ok(Asked::Usage {
            command: CommandName::Bulk,
        })
    }
}

/// What the words behind the program's name ask for, every command line read whole (poudriere-bulk(8),
/// poudriere-pkgclean(8); docs/FORMATS.md, "The words of a command").
///
/// The first word chooses the command. `bulk` and `pkgclean` are read by clap as one simple command with short flags. Usage
/// of `bulk` comes exactly where there is no word or none that is a command, where clap's reading of `bulk` has a fault,
/// where the value of `-J` is no number, where `-a` stands beside `-f` or an origin, where none of these three is there, and
/// where `sample` has not just one number behind it. `pkgclean` has its own usage under the same rules without `-J`;
/// `testport` where there is not just one word, or one that ends in `@all`; `distclean` where there is anything but one `-n`;
/// `publish` where there is any word. NoMemory for want of memory alone.
///
/// Each word is looked at a fixed number of times for each flag. Memory is taken for the description of the flags, a list of
/// the words, and a copy of each value.
pub fn read_words(alloc: Global, words: &[Text]) -> Result<Asked, NoMemory>
    // What the words ask for, exactly.
    ensures asked { IfOk result (λ found. found ≡ asked.asked_of words.now) }
    // When `bulk` and `pkgclean` are answered by usage, rule by rule.
    ensures usage { IfOk result (HasUsageWhereRefused words.now) }
{
    let [command, rest @ ..] = words else {
        return Ok(Asked::Usage {
            command: CommandName::Bulk,
        });
    };
    match flags_of(command) {
        Some(flags) => read_flags(alloc, flags, words),
        None => read_others(alloc, command, rest),
    }
}
