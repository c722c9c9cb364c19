// What clap's matches say of `bulk` and `pkgclean`.
ghost use Rattle.std.specs.Prelude.{◌≡◌, IsTrue, IfOk};
ghost use Rattle.std.specs.Option.{option_copied};
ghost use Rattle.clap.specs.Words.{first_of, found_of, rows_of};
ghost use Rattle.clap.specs.Walk.{texts};
ghost use Rattle.bulk_base.specs.Text.{has_text_bytes};
ghost use Rattle.command_words.specs.Asked as asked;
ghost use Rattle.command_words.specs.Reading as reading;
ghost use Rattle.command_words.specs.Texts.{HaveTextBytes, RowsHaveTextBytes};

use crate::asked::{Asked, BulkWords, Clean, CommandName, PkgCleanWords, PortWords};
use crate::description::Flags;
use bulk_base::{NoMemory, Sequence, Text, Texts, number};
use clap::ArgMatches;
use std::alloc::Global;

/// Whether a flag stands in the words.
fn has_flag(matches: &ArgMatches<'_>, id: &str) -> bool
    ensures { result ≡ reading.has_flag id.now (rows_of (found_of matches.now)) }
{
    match matches.get_str(id) {
        Some(value) => value == "true",
        None => false,
    }
}

/// The text of a value.
fn text_of(alloc: Global, value: &str) -> Result<Text, NoMemory>
    requires { IsTrue (has_text_bytes value.now) }
    ensures { IfOk result (λ text. text ≡ value.now) }
{
    Text::of(alloc, value.as_bytes())
}

/// The texts of values, in their order.
fn texts_of(alloc: Global, values: &[&str]) -> Result<Texts, NoMemory>
    requires { HaveTextBytes (texts values.now) }
    ensures { IfOk result (λ found. found ≡ texts values.now) }
{
    let mut found = Sequence::new(alloc);
    for value in values {
        found.push(text_of(alloc, value)?)?;
    }
    Ok(found)
}

/// The value of an option, if the option stands in the words.
fn value_of(alloc: Global, matches: &ArgMatches<'_>, id: &str) -> Result<Option<Text>, NoMemory>
    requires { RowsHaveTextBytes (rows_of (found_of matches.now)) }
    ensures { IfOk result (λ v. v ≡ first_of id.now (rows_of (found_of matches.now))) }
{
    match matches.get_str(id) {
        Some(value) => Ok(Some(text_of(alloc, value)?)),
        None => Ok(None),
    }
}

/// The words that are no flag, no option and no value of one.
fn read_origins(alloc: Global, matches: &ArgMatches<'_>) -> Result<Texts, NoMemory>
    requires { RowsHaveTextBytes (rows_of (found_of matches.now)) }
    ensures { IfOk result (λ found. found ≡ reading.origins_of (rows_of (found_of matches.now))) }
{
    match matches.get_strs("origins") {
        Some(values) => texts_of(alloc, values),
        None => Ok(Sequence::new(alloc)),
    }
}

/// The ports that are named.
fn read_ports(alloc: Global, matches: &ArgMatches<'_>) -> Result<PortWords, NoMemory>
    requires { RowsHaveTextBytes (rows_of (found_of matches.now)) }
    ensures { IfOk result (λ ports. ports ≡ asked.ports_of (rows_of (found_of matches.now))) }
{
    let list = value_of(alloc, matches, "list")?;
    Ok(PortWords {
        all: has_flag(matches, "all"),
        list,
        origins: read_origins(alloc, matches)?,
    })
}

/// Whether `-a` stands alone, or without it `-f` or an origin is there.
fn are_fit(ports: &PortWords) -> bool
    ensures { result ≡ asked.are_fit ports.now }
{
    let named = ports.list.is_some() || !ports.origins.is_empty();
    if ports.all { !named } else { named }
}

/// What is to be built anew: `-c` rules over `-C`.
fn read_clean(matches: &ArgMatches<'_>) -> Clean
    ensures { result ≡ asked.clean_of (rows_of (found_of matches.now)) }
{
    if has_flag(matches, "clean_all") {
        Clean::All
    } else if has_flag(matches, "clean_wanted") {
        Clean::Wanted
    } else {
        Clean::Nothing
    }
}

/// The number of builders, if it stands in the words; None where its value is no number.
fn read_builders(value: Option<&Text>) -> Option<Option<u64>>
    ensures { result ≡ asked.builders_of (option_copied value.entry) }
{
    match value {
        Some(text) => match number(text) {
            Some(number) => Some(Some(number)),
            None => None,
        },
        None => Some(None),
    }
}

/// The words of `bulk` with these ports and builders.
fn bulk_words(matches: &ArgMatches<'_>, ports: PortWords, builders: Option<u64>) -> Asked
    requires { ports ≡ asked.ports_of (rows_of (found_of matches.now)) }
    ensures { result ≡ asked.bulk_words (rows_of (found_of matches.now)) builders }
{
    Asked::Bulk(BulkWords {
        ports,
        clean: read_clean(matches),
        dry_run: has_flag(matches, "dry_run"),
        try_broken: has_flag(matches, "try_broken"),
        builders,
    })
}

/// What the words of `bulk` ask for.
fn read_bulk(alloc: Global, matches: &ArgMatches<'_>) -> Result<Asked, NoMemory>
    requires { RowsHaveTextBytes (rows_of (found_of matches.now)) }
    ensures { IfOk result (λ found. found ≡ asked.bulk_asked (rows_of (found_of matches.now))) }
{
    let value = value_of(alloc, matches, "builders")?;
    let ports = read_ports(alloc, matches)?;
    match read_builders(value.as_ref()) {
        Some(builders) if are_fit(&ports) => Ok(bulk_words(matches, ports, builders)),
        _ => Ok(Asked::Usage {
            command: CommandName::Bulk,
        }),
    }
}

/// What the words of `pkgclean` ask for.
fn read_pkgclean(alloc: Global, matches: &ArgMatches<'_>) -> Result<Asked, NoMemory>
    requires { RowsHaveTextBytes (rows_of (found_of matches.now)) }
    ensures { IfOk result (λ found. found ≡ asked.pkgclean_asked (rows_of (found_of matches.now))) }
{
    let ports = read_ports(alloc, matches)?;
    if !are_fit(&ports) {
        return Ok(Asked::Usage {
            command: CommandName::PkgClean,
        });
    }
    let dry_run = has_flag(matches, "dry_run");
    Ok(Asked::PkgClean(PkgCleanWords { ports, dry_run }))
}

/// What the words of a command with flags ask for. One pass over the values; takes memory for a copy of each.
pub(crate) fn read_matches(
    alloc: Global,
    flags: Flags,
    matches: &ArgMatches<'_>,
) -> Result<Asked, NoMemory>
    requires { RowsHaveTextBytes (rows_of (found_of matches.now)) }
    ensures { IfOk result (λ found.
        found ≡ asked.matches_asked flags (rows_of (found_of matches.now))) }
{
    match flags {
        Flags::OfBulk => read_bulk(alloc, matches),
        Flags::OfPkgclean => read_pkgclean(alloc, matches),
    }
}
