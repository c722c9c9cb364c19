// The description by which clap reads flags, and clap's reading of words by it.
ghost use Rattle.std.specs.Prelude.{◌≡◌, ◌≢◌, None, false, map, fold, option_map, IfOk, OnOk, IfSome};
ghost use Rattle.clap.specs.Words.{app_of, found_of, kind_of, rows_of, rule_of, with_rule};
ghost use Rattle.clap.specs.Walk.{texts};
ghost use Rattle.clap.specs.declared.error.kind.ErrorKind.TheVariants.{OutOfMemory};
ghost use Rattle.command_words.specs.Description.{build_rules, flag_rules, shared_rules};
ghost use Rattle.command_words.specs.Description.{description as described};
ghost use Rattle.command_words.specs.Description.{flag_rule, option_rule, origins_rule};
ghost use Rattle.command_words.specs.Reading.{read_by};
ghost use Rattle.command_words.specs.Texts.{HaveTextBytes, RowsHaveTextBytes};

use bulk_base::NoMemory;
use clap::error::ErrorKind;
use clap::{Arg, ArgAction, ArgMatches, Command, Error};
use std::alloc::{AllocError, Global};

/// Whose flags are read.
#[derive(Clone, Copy, Debug, PartialEq, Eq)]
pub(crate) enum Flags {
    /// Those of `bulk`.
    OfBulk,
    /// Those of `pkgclean`, which are some of them.
    OfPkgclean,
}

/// A flag.
fn flag<'a>(alloc: Global, id: &'a str, letter: char) -> Arg<'a>
    ensures rule { rule_of result ≡ flag_rule id.entry.now letter }
    ensures local { result.global ≡ false }
{
    Arg::new(alloc, id).short(letter).action(ArgAction::SetTrue)
}

/// An option with one value.
fn option<'a>(alloc: Global, id: &'a str, letter: char) -> Arg<'a>
    ensures rule { rule_of result ≡ option_rule id.entry.now letter }
    ensures local { result.global ≡ false }
{
    Arg::new(alloc, id).short(letter).action(ArgAction::Set)
}

/// The words that are neither.
fn origins<'a>(alloc: Global) -> Arg<'a>
    ensures rule { rule_of result ≡ origins_rule }
    ensures local { result.global ≡ false }
{
    Arg::new(alloc, "origins")
        .action(ArgAction::Append)
        .num_args(0..)
}

/// The command with the flags that all commands with flags have.
fn with_shared_flags<'a>(alloc: Global, command: Command<'a>) -> Result<Command<'a>, NoMemory>
    ensures { IfOk result (λ c. app_of c ≡ fold with_rule (app_of command.entry) shared_rules) }
{
    command
        .arg(flag(alloc, "all", 'a'))?
        .arg(flag(alloc, "dry_run", 'n'))?
        .arg(option(alloc, "list", 'f'))
}

/// The command with the flags that only `bulk` has.
fn with_build_flags<'a>(alloc: Global, command: Command<'a>) -> Result<Command<'a>, NoMemory>
    ensures { IfOk result (λ c. app_of c ≡ fold with_rule (app_of command.entry) build_rules) }
{
    command
        .arg(flag(alloc, "clean_all", 'c'))?
        .arg(flag(alloc, "clean_wanted", 'C'))?
        .arg(flag(alloc, "try_broken", 'T'))?
        .arg(option(alloc, "builders", 'J'))
}

/// The command with a command's flags.
fn with_flags<'a>(
    alloc: Global,
    flags: Flags,
    command: Command<'a>,
) -> Result<Command<'a>, NoMemory>
    ensures { IfOk result (λ c.
        app_of c ≡ fold with_rule (app_of command.entry) (flag_rules flags)) }
{
    let shared = with_shared_flags(alloc, command)?;
    match flags {
        Flags::OfBulk => with_build_flags(alloc, shared),
        Flags::OfPkgclean => Ok(shared),
    }
}

/// The description: the flags, and origins between and behind them.
fn describe<'a>(alloc: Global, flags: Flags) -> Result<Command<'a>, NoMemory>
    ensures { IfOk result (λ c. app_of c ≡ described flags) }
{
    let bare = Command::new(alloc, "poudriere").disable_help_flag(true);
    with_flags(alloc, flags, bare)?.arg(origins(alloc))
}

/// Passes on want of memory; that words are refused for another cause is told as None.
fn pass_memory<'a>(error: &Error) -> Result<Option<ArgMatches<'a>>, NoMemory>
    ensures none { IfOk result (λ read. read ≡ None) }
    ensures cause { OnOk result (kind_of error.now ≢ OutOfMemory) }
{
    match error.kind() {
        ErrorKind::OutOfMemory => Err(AllocError),
        _ => Ok(None),
    }
}

/// clap's matches of words, of which the first is not looked at; None where clap refuses them. Each word is looked at a fixed
/// number of times for each flag.
pub(crate) fn match_words<'a>(
    alloc: Global,
    flags: Flags,
    words: &'a [&'a str],
) -> Result<Option<ArgMatches<'a>>, NoMemory>
    requires { HaveTextBytes (texts words.now) }
    ensures rows { IfOk result (λ read. option_map (λ m. rows_of (found_of m)) read
        ≡ read_by (described flags) (texts words.entry.now)) }
    ensures form { IfOk result (λ read. IfSome read (λ m.
        RowsHaveTextBytes (rows_of (found_of m)))) }
{
    match describe(alloc, flags)?.try_get_matches_from(words) {
        Ok(matches) => Ok(Some(matches)),
        Err(error) => pass_memory(&error),
    }
}
