// How what came of a node is shown.
use bulk_base::{FileItem, NoMemory};
use bulk_model::{Package, Phase, Status};
use case_text::{push_number, push_str, push_text};
use pkg_record::write;
use std::alloc::Global;

/// The most bytes of a file that are shown.
const MOST_SHOWN: usize = 60;

fn push_file(alloc: Global, file: &FileItem, out: &mut Vec<u8>) -> Result<(), NoMemory> {
    push_str(out, " ")?;
    push_text(out, file.path.text())?;
    if file.bytes.len() > MOST_SHOWN {
        push_str(out, ":")?;
        return push_number(alloc, out, file.bytes.len() as u64);
    }
    push_str(out, "=")?;
    out.extend_from_slice(file.bytes.as_slice())
}

/// Puts a package at the end: its name, its files, and the first digits of the last line of its
/// record, which tell of all that it holds.
fn push_package(alloc: Global, package: &Package, out: &mut Vec<u8>) -> Result<(), NoMemory> {
    push_str(out, "built ")?;
    push_text(out, &package.name)?;
    push_str(out, " [")?;
    for file in package.files.as_slice() {
        push_file(alloc, file, out)?;
    }
    push_str(out, " ] ")?;
    let record = write(alloc, package)?;
    let bytes = record.as_slice();
    if bytes.len() > 65 {
        out.extend_from_slice(&bytes[bytes.len() - 65..bytes.len() - 49])?;
    }
    Ok(())
}

fn phase_name(phase: Phase) -> &'static str {
    match phase {
        Phase::Depends => "depends",
        Phase::Extract => "extract",
        Phase::Patch => "patch",
        Phase::Configure => "configure",
        Phase::Build => "build",
        Phase::Stage => "stage",
        Phase::Package => "package",
    }
}

fn push_failure(alloc: Global, phase: Phase, code: u8, out: &mut Vec<u8>) -> Result<(), NoMemory> {
    push_str(out, "failed ")?;
    push_str(out, phase_name(phase))?;
    push_str(out, " ")?;
    push_number(alloc, out, u64::from(code))
}

/// Puts what came of a node at the end.
pub(crate) fn push_status(
    alloc: Global,
    status: &Status,
    out: &mut Vec<u8>,
) -> Result<(), NoMemory> {
    match status {
        Status::Built(package) => push_package(alloc, package.get(), out),
        Status::Failed { phase, code } => push_failure(alloc, *phase, *code, out),
        Status::Kept(_) => push_str(out, "kept"),
        Status::Ignored => push_str(out, "ignored"),
        Status::Skipped => push_str(out, "skipped"),
    }
}
