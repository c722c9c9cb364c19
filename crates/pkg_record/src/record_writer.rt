// The record of a package.
ghost use Rattle.std.specs.Prelude.{◌≡◌, ◌++◌, codes, IfOk, OnOk};
ghost use Rattle.bulk_model.specs.declared.version.Version.TheVariants.{Two};
ghost use Rattle.bulk_model.specs.Lines as lines;
ghost use Rattle.bulk_model.specs.Spelling as spelling;

use crate::hash::digest_of;
use crate::lines::{put_count, put_depend, put_file_line, put_line, put_names, put_option};
use bulk_base::{FileItem, NoMemory, Switch};
use bulk_model::{Digest, Package, Recorded};
use std::alloc::Global;

fn put_options(alloc: Global, out: &mut Vec<u8>, options: &[Switch]) -> Result<(), NoMemory>
    ensures { OnOk result (out.new.items ≡ out.old.items ++ lines.option_lines options.now) }
{
    put_count(alloc, out, b"options ", options.len())?;
    for option in options {
        put_option(out, option)?;
    }
    Ok(())
}

fn put_recorded(alloc: Global, out: &mut Vec<u8>, depend: &Recorded) -> Result<(), NoMemory>
    ensures { OnOk result (out.new.items ≡ out.old.items ++ spelling.recorded_line Two depend.now) }
{
    put_depend(out, depend.kind, &depend.node, &depend.name)?;
    put_line(out, b" ", depend.digest.hex(alloc)?.bytes())
}

fn put_depends(alloc: Global, out: &mut Vec<u8>, depends: &[Recorded]) -> Result<(), NoMemory>
    ensures { OnOk result (out.new.items
        ≡ out.old.items ++ spelling.recorded_lines Two depends.now) }
{
    put_count(alloc, out, b"depends ", depends.len())?;
    for depend in depends {
        put_recorded(alloc, out, depend)?;
    }
    Ok(())
}

fn put_file(alloc: Global, out: &mut Vec<u8>, file: &FileItem) -> Result<(), NoMemory>
    ensures { OnOk result (out.new.items ≡ out.old.items ++ lines.file_piece file.now) }
{
    put_file_line(alloc, out, file)?;
    put_line(out, b"", file.bytes.as_slice())
}

fn put_files(alloc: Global, out: &mut Vec<u8>, files: &[FileItem]) -> Result<(), NoMemory>
    ensures { OnOk result (out.new.items
        ≡ out.old.items ++ lines.file_pieces (codes "files ") files.now) }
{
    put_count(alloc, out, b"files ", files.len())?;
    for file in files {
        put_file(alloc, out, file)?;
    }
    Ok(())
}

/// Appends the lines up to the digest.
fn put_unsigned(alloc: Global, out: &mut Vec<u8>, built: &Package) -> Result<(), NoMemory>
    ensures { OnOk result (out.new.items ≡ out.old.items ++ spelling.unsigned Two built.now) }
{
    put_line(out, b"poudriere-package 2", b"")?;
    put_names(out, &built.name, &built.origin, &built.flavor)?;
    put_line(out, b"recipe ", built.recipe.hex(alloc)?.bytes())?;
    put_options(alloc, out, built.options.as_slice())?;
    put_depends(alloc, out, built.depends.as_slice())?;
    put_files(alloc, out, built.files.as_slice())?;
    Ok(())
}

fn unsigned(alloc: Global, built: &Package) -> Result<Vec<u8>, NoMemory>
    ensures { IfOk result (λ bytes. bytes.items ≡ spelling.unsigned Two built.now) }
{
    let mut out = Vec::new(alloc);
    put_unsigned(alloc, &mut out, built)?;
    Ok(out)
}

/// The record of a package, of version 2 (docs/FORMATS.md, "The package record"; SHA-256 by FIPS 180-4): the bytes that a
/// store keeps of it, and all that `read` reads back.
///
/// NoMemory for want of memory alone. One pass over the package and one over the bytes before the digest line; one copy of
/// the record is held.
pub fn write(alloc: Global, built: &Package) -> Result<Vec<u8>, NoMemory>
    ensures { IfOk result (λ bytes. bytes.items ≡ spelling.spelling built.now) }
{
    let mut record = unsigned(alloc, built)?;
    let digest = digest_of(record.as_slice());
    put_line(&mut record, b"sha256 ", digest.hex(alloc)?.bytes())?;
    Ok(record)
}

/// The digest by which others record a package: that of its record's last line, SHA-256 of all bytes before the line
/// (docs/FORMATS.md, "The package record"; FIPS 180-4).
///
/// NoMemory for want of memory alone. One pass over the package and one over these bytes, of which one copy is held.
pub fn mark(alloc: Global, built: &Package) -> Result<Digest, NoMemory>
    ensures { IfOk result (λ digest. digest ≡ spelling.mark built.now) }
{
    let lines = unsigned(alloc, built)?;
    Ok(digest_of(lines.as_slice()))
}
