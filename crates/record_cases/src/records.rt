// Records that are read, written again and refused.
use bulk_model::{DepKind, Digest, Package, weight};
use case_text::{CaseError, bytes_of, number_of, push_number, push_str, push_text};
use pkg_record::{Record, RecordError, mark, read, write};
use std::alloc::{AllocError, Global};

fn push_fault(alloc: Global, fault: &RecordError, out: &mut Vec<u8>) -> Result<(), AllocError> {
    match fault {
        RecordError::Short => push_str(out, "Short"),
        RecordError::BadField { place } => {
            push_str(out, "BadField ")?;
            push_number(alloc, out, *place)
        }
        RecordError::BadDigest { stated, found } => {
            push_str(out, "BadDigest ")?;
            push_text(out, stated)?;
            push_str(out, " ")?;
            push_text(out, found)
        }
        RecordError::NoMemory => push_str(out, "NoMemory"),
    }
}

fn kind_name(kind: DepKind) -> &'static str {
    match kind {
        DepKind::Pkg => " pkg:",
        DepKind::Fetch => " fetch:",
        DepKind::Extract => " extract:",
        DepKind::Patch => " patch:",
        DepKind::Build => " build:",
        DepKind::Lib => " lib:",
        DepKind::Run => " run:",
    }
}

fn push_options(out: &mut Vec<u8>, package: &Package) -> Result<(), AllocError> {
    for option in &package.options {
        push_str(out, if option.on { " +" } else { " -" })?;
        push_text(out, &option.name)?;
    }
    Ok(())
}

/// Puts the digits of a digest at the end.
pub(crate) fn push_digest(
    alloc: Global,
    digest: &Digest,
    out: &mut Vec<u8>,
) -> Result<(), AllocError> {
    push_text(out, &digest.hex(alloc)?)
}

fn push_depends(alloc: Global, package: &Package, out: &mut Vec<u8>) -> Result<(), AllocError> {
    for depend in &package.depends {
        push_str(out, kind_name(depend.kind))?;
        push_text(out, &depend.node)?;
        push_str(out, ",")?;
        push_text(out, &depend.name)?;
        push_str(out, ",")?;
        push_digest(alloc, &depend.digest, out)?;
    }
    Ok(())
}

fn push_files(out: &mut Vec<u8>, package: &Package) -> Result<(), AllocError> {
    for file in &package.files {
        push_str(out, " ")?;
        push_text(out, file.path.text())?;
        push_str(out, "[")?;
        out.extend_from_slice(file.bytes.as_slice())?;
        push_str(out, "]")?;
    }
    Ok(())
}

fn push_package(alloc: Global, package: &Package, out: &mut Vec<u8>) -> Result<(), AllocError> {
    push_text(out, &package.name)?;
    push_str(out, " ")?;
    push_text(out, &package.origin)?;
    if let Some(flavor) = &package.flavor {
        push_str(out, "@")?;
        push_text(out, flavor)?;
    }
    push_str(out, " ")?;
    push_digest(alloc, &package.recipe, out)?;
    push_options(out, package)?;
    push_depends(alloc, package, out)?;
    push_files(out, package)
}

/// Puts what is said of a package at the end, and whether the bytes are its record when it is written again.
fn push_again(
    alloc: Global,
    package: &Package,
    record: &[u8],
    out: &mut Vec<u8>,
) -> Result<(), AllocError> {
    push_str(out, "; weight ")?;
    push_number(alloc, out, weight(package))?;
    push_str(out, "; mark ")?;
    push_digest(alloc, &mark(alloc, package)?, out)?;
    let again = write(alloc, package)?;
    push_str(
        out,
        if again.as_slice() == record {
            "; written again the same"
        } else {
            "; written again another"
        },
    )
}

/// Puts what a record says at the end; of one of version 1 the package's name alone.
fn push_record(
    alloc: Global,
    found: &Record,
    record: &[u8],
    out: &mut Vec<u8>,
) -> Result<(), AllocError> {
    push_number(alloc, out, record.len() as u64)?;
    push_str(out, " bytes: ")?;
    match found {
        Record::New(package) => {
            push_package(alloc, package, out)?;
            push_again(alloc, package, record, out)
        }
        Record::Old { name } => {
            push_str(out, "old ")?;
            push_text(out, name)
        }
    }
}

fn push_read(alloc: Global, record: &[u8], out: &mut Vec<u8>) -> Result<(), AllocError> {
    match read(alloc, record) {
        Ok(found) => push_record(alloc, &found, record, out),
        Err(fault) => push_fault(alloc, &fault, out),
    }
}

/// What bytes are read as.
pub(crate) fn answer_record(
    alloc: Global,
    field: &str,
    out: &mut Vec<u8>,
) -> Result<(), CaseError> {
    let record = bytes_of(alloc, field)?;
    Ok(push_read(alloc, record.as_slice(), out)?)
}

fn is_short(alloc: Global, record: &[u8]) -> bool {
    matches!(read(alloc, record), Err(RecordError::Short))
}

/// How many of the beginnings of a record, of no byte up to all but one, are Short.
pub(crate) fn answer_cuts(alloc: Global, field: &str, out: &mut Vec<u8>) -> Result<(), CaseError> {
    let record = bytes_of(alloc, field)?;
    let mut count = 0u64;
    for size in 0..record.len() {
        if is_short(alloc, &record[..size]) {
            count = count.saturating_add(1);
        }
    }
    push_number(alloc, out, count)?;
    push_str(out, " of ")?;
    push_number(alloc, out, record.len() as u64)?;
    push_str(out, " are Short")?;
    Ok(())
}

/// Bytes with others in place of the one at a place.
fn changed(alloc: Global, bytes: &[u8], place: u64, others: &[u8]) -> Result<Vec<u8>, AllocError> {
    let mut found = Vec::new(alloc);
    for at in 0..bytes.len() {
        if at as u64 == place {
            found.extend_from_slice(others)?;
        } else {
            found.push(bytes[at])?;
        }
    }
    Ok(found)
}

/// What a record is read as that has other bytes in place of the one at a place.
pub(crate) fn answer_changed(
    alloc: Global,
    place: &str,
    others: &str,
    field: &str,
    out: &mut Vec<u8>,
) -> Result<(), CaseError> {
    let place = number_of(place)?;
    let others = bytes_of(alloc, others)?;
    let bytes = bytes_of(alloc, field)?;
    let record = changed(alloc, bytes.as_slice(), place, others.as_slice())?;
    Ok(push_read(alloc, record.as_slice(), out)?)
}
