// The lines that a record and a recipe have in common.
ghost use Rattle.std.specs.Prelude.{◌≡◌, ◌++◌, codes, length, OnOk};
ghost use Rattle.std.specs.Fmt.{decimal as decimal_digits};
ghost use Rattle.bulk_model.specs.Lines as lines;

use bulk_base::{FileItem, NoMemory, Switch, Text, decimal};
use bulk_model::DepKind;
use std::alloc::Global;

/// Appends a line: a heading, a text and a line feed.
pub(crate) fn put_line(out: &mut Vec<u8>, heading: &[u8], text: &[u8]) -> Result<(), NoMemory>
    ensures { OnOk result (out.new.items ≡ out.old.items ++ lines.line (heading.now ++ text.now)) }
{
    out.extend_from_slice(heading)?;
    out.extend_from_slice(text)?;
    out.push(b'\n')?;
    Ok(())
}

/// Appends a line with a number.
pub(crate) fn put_count(
    alloc: Global,
    out: &mut Vec<u8>,
    heading: &[u8],
    count: usize,
) -> Result<(), NoMemory>
    ensures { OnOk result (out.new.items ≡ out.old.items ++ lines.count_line heading.now count) }
{
    put_line(out, heading, decimal(alloc, count as u64)?.bytes())
}

fn kind_word(kind: DepKind) -> &'static [u8]
    ensures { result.now ≡ lines.kind_word kind }
{
    match kind {
        DepKind::Pkg => b"pkg",
        DepKind::Fetch => b"fetch",
        DepKind::Extract => b"extract",
        DepKind::Patch => b"patch",
        DepKind::Build => b"build",
        DepKind::Lib => b"lib",
        DepKind::Run => b"run",
    }
}

fn flavor_word(flavor: &Option<Text>) -> &[u8]
    ensures { result.now ≡ lines.flavor_word flavor.now }
{
    match flavor {
        Some(flavor) => flavor.bytes(),
        None => b"-",
    }
}

fn switch_word(on: bool) -> &'static [u8]
    ensures { result.now ≡ lines.switch_word on }
{
    if on { b"on" } else { b"off" }
}

/// Appends the lines with a package's name, its port's origin, and its flavor.
pub(crate) fn put_names(
    out: &mut Vec<u8>,
    name: &Text,
    origin: &Text,
    flavor: &Option<Text>,
) -> Result<(), NoMemory>
    ensures { OnOk result (out.new.items
        ≡ out.old.items ++ lines.name_lines name.now origin.now flavor.now) }
{
    put_line(out, b"name ", name.bytes())?;
    put_line(out, b"origin ", origin.bytes())?;
    put_line(out, b"flavor ", flavor_word(flavor))
}

/// Appends an option's line.
pub(crate) fn put_option(out: &mut Vec<u8>, option: &Switch) -> Result<(), NoMemory>
    ensures { OnOk result (out.new.items ≡ out.old.items ++ lines.option_line option.now) }
{
    out.extend_from_slice(b"option ")?;
    out.extend_from_slice(option.name.bytes())?;
    put_line(out, b" ", switch_word(option.on))
}

/// Appends the words of a dependency's line.
pub(crate) fn put_depend(
    out: &mut Vec<u8>,
    kind: DepKind,
    node: &Text,
    name: &Text,
) -> Result<(), NoMemory>
    ensures { OnOk result (out.new.items
        ≡ out.old.items ++ lines.depend_words kind node.now name.now) }
{
    out.extend_from_slice(b"depend ")?;
    out.extend_from_slice(kind_word(kind))?;
    out.extend_from_slice(b" ")?;
    out.extend_from_slice(node.bytes())?;
    out.extend_from_slice(b" ")?;
    out.extend_from_slice(name.bytes())?;
    Ok(())
}

/// Appends a file's line, behind which its bytes stand.
pub(crate) fn put_file_line(
    alloc: Global,
    out: &mut Vec<u8>,
    file: &FileItem,
) -> Result<(), NoMemory>
    ensures { OnOk result (out.new.items ≡ out.old.items
        ++ lines.line (codes "file " ++ decimal_digits (length file.now.bytes) ++ codes " " ++ file.now.path)) }
{
    out.extend_from_slice(b"file ")?;
    out.extend_from_slice(decimal(alloc, file.bytes.len() as u64)?.bytes())?;
    put_line(out, b" ", file.path.bytes())
}
