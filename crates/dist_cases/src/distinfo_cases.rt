// Lists of distfiles, files against them, and names that they lack.
use bulk_base::{Path, Sequence, Text};
use bulk_model::Digest;
use case_text::{
    CaseError, bytes_of, number_of, push_number, push_str, push_text, push_texts, words_of,
};
use dist_files::{Dist, DistError, DistWhy, Dists, check, read_distinfo, unnamed};
use std::alloc::{AllocError, Global};

fn push_dists(alloc: Global, dists: &Dists, out: &mut Vec<u8>) -> Result<(), AllocError> {
    push_number(alloc, out, dists.len() as u64)?;
    for dist in dists.as_slice() {
        push_str(out, "; ")?;
        push_text(out, dist.file.text())?;
        push_str(out, " ")?;
        push_text(out, &dist.sha256.hex(alloc)?)?;
        push_str(out, " ")?;
        push_number(alloc, out, dist.size)?;
    }
    Ok(())
}

fn push_file(kind: &str, file: &Path, out: &mut Vec<u8>) -> Result<(), AllocError> {
    push_str(out, kind)?;
    push_text(out, file.text())
}

fn push_refusal(alloc: Global, error: &DistError, out: &mut Vec<u8>) -> Result<(), AllocError> {
    match error {
        DistError::BadLine { line } => {
            push_str(out, "BadLine ")?;
            push_number(alloc, out, u64::from(*line))
        }
        DistError::Unpaired { file } => push_file("Unpaired ", file, out),
        DistError::Collide { file } => push_file("Collide ", file, out),
        DistError::NoMemory => Err(AllocError),
    }
}

/// What a list of distfiles says: how many entries, then each, in order.
pub(crate) fn answer_read(alloc: Global, field: &str, out: &mut Vec<u8>) -> Result<(), CaseError> {
    let bytes = bytes_of(alloc, field)?;
    if bytes.len() > 1_000_000 {
        return Err(CaseError::Unfit);
    }
    match read_distinfo(alloc, bytes.as_slice()) {
        Ok(dists) => push_dists(alloc, &dists, out)?,
        Err(error) => push_refusal(alloc, &error, out)?,
    }
    Ok(())
}

fn entry_of(alloc: Global, file: &Text, sha256: Digest, size: u64) -> Result<Dist, CaseError> {
    Ok(Dist {
        file: Path::from_text(alloc, file)?,
        sha256,
        size,
    })
}

fn push_why(alloc: Global, why: DistWhy, out: &mut Vec<u8>) -> Result<(), AllocError> {
    match why {
        DistWhy::Absent => push_str(out, "Absent"),
        DistWhy::Size { stated, found } => {
            push_str(out, "Size ")?;
            push_number(alloc, out, stated)?;
            push_str(out, " ")?;
            push_number(alloc, out, found)
        }
        DistWhy::Digest { stated, found } => {
            push_str(out, "Digest ")?;
            push_text(out, &stated.hex(alloc)?)?;
            push_str(out, " ")?;
            push_text(out, &found.hex(alloc)?)
        }
    }
}

/// Whether a file is the one that an entry with this digest and this size states.
pub(crate) fn answer_check(
    alloc: Global,
    digest: &str,
    size: &str,
    field: &str,
    out: &mut Vec<u8>,
) -> Result<(), CaseError> {
    let Some(digest) = Digest::from_hex(digest.as_bytes()) else {
        return Err(CaseError::Unfit);
    };
    let size = number_of(size)?;
    let bytes = bytes_of(alloc, field)?;
    let dist = entry_of(alloc, &Text::literal(alloc, b"x")?, digest, size)?;
    match check(&dist, bytes.as_slice()) {
        Ok(()) => push_str(out, "ok")?,
        Err(why) => push_why(alloc, why, out)?,
    }
    Ok(())
}

/// The words of a field that are no file of another.
pub(crate) fn answer_unnamed(
    alloc: Global,
    names: &str,
    files: &str,
    out: &mut Vec<u8>,
) -> Result<(), CaseError> {
    let names = words_of(alloc, names)?;
    let mut dists = Sequence::new(alloc);
    for file in words_of(alloc, files)?.as_slice() {
        dists.push(entry_of(alloc, file, Digest::none(), 0)?)?;
    }
    let left = unnamed(alloc, &names, &dists)?;
    push_texts(out, left.as_slice())?;
    Ok(())
}
