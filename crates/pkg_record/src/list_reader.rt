// The lists of a record: a line with a count, and so many items.
ghost use Rattle.std.specs.Prelude.{◌≡◌, [], codes, IfOk};
ghost use Rattle.bulk_model.specs.Facts.{IsOptionList, IsRecordedList, IsFileList};
ghost use Rattle.pkg_record.specs.Reading.{Gives, items_at, listed_at, option_at, depend_at, file_at, lists_at};

use crate::fault::ReadError;
use crate::item_reader::{depend_item, file_item, option_item};
use crate::line_reader::count_line;
use bulk_base::{Files, Sequence, Switches};
use bulk_model::{Recordeds, Version};
use std::alloc::Global;

fn options_of(alloc: Global, count: u64, bytes: &[u8]) -> Result<(Switches, &[u8]), ReadError>
    ensures read { Gives (λ x. (x.0, x.1.now)) result
        (items_at option_at count [] bytes.now) }
    ensures form { IfOk result (λ x. IsOptionList x.0) }
{
    let mut found = Sequence::new(alloc);
    let mut rest = bytes;
    for _ in 0..count {
        let (option, after) = option_item(alloc, found.as_slice(), rest)?;
        found.push(option)?;
        rest = after;
    }
    Ok((found, rest))
}

fn depends_of(
    alloc: Global,
    version: Version,
    count: u64,
    bytes: &[u8],
) -> Result<(Recordeds, &[u8]), ReadError>
    ensures read { Gives (λ x. (x.0, x.1.now)) result
        (items_at (depend_at version) count [] bytes.now) }
    ensures form { IfOk result (λ x. IsRecordedList x.0) }
{
    let mut found = Sequence::new(alloc);
    let mut rest = bytes;
    for _ in 0..count {
        let (depend, after) = depend_item(alloc, version, found.as_slice(), rest)?;
        found.push(depend)?;
        rest = after;
    }
    Ok((found, rest))
}

fn files_of(alloc: Global, count: u64, bytes: &[u8]) -> Result<(Files, &[u8]), ReadError>
    ensures read { Gives (λ x. (x.0, x.1.now)) result
        (items_at file_at count [] bytes.now) }
    ensures form { IfOk result (λ x. IsFileList 1018 x.0) }
{
    let mut found = Sequence::new(alloc);
    let mut rest = bytes;
    for _ in 0..count {
        let (file, after) = file_item(alloc, found.as_slice(), rest)?;
        found.push(file)?;
        rest = after;
    }
    Ok((found, rest))
}

/// The options of a record.
#[tactic(auto, unfolding(crate::specs::Reading::listed_at))]
fn options(alloc: Global, bytes: &[u8]) -> Result<(Switches, &[u8]), ReadError>
    ensures read { Gives (λ x. (x.0, x.1.now)) result
        (listed_at (codes "options ") option_at bytes.now) }
    ensures form { IfOk result (λ x. IsOptionList x.0) }
{
    let (count, rest) = count_line(b"options ", bytes)?;
    options_of(alloc, count, rest)
}

/// The dependencies of a record.
#[tactic(auto, unfolding(crate::specs::Reading::listed_at))]
fn depends(alloc: Global, version: Version, bytes: &[u8]) -> Result<(Recordeds, &[u8]), ReadError>
    ensures read { Gives (λ x. (x.0, x.1.now)) result
        (listed_at (codes "depends ") (depend_at version) bytes.now) }
    ensures form { IfOk result (λ x. IsRecordedList x.0) }
{
    let (count, rest) = count_line(b"depends ", bytes)?;
    depends_of(alloc, version, count, rest)
}

/// The files of a record.
#[tactic(auto, unfolding(crate::specs::Reading::listed_at))]
fn files(alloc: Global, bytes: &[u8]) -> Result<(Files, &[u8]), ReadError>
    ensures read { Gives (λ x. (x.0, x.1.now)) result
        (listed_at (codes "files ") file_at bytes.now) }
    ensures form { IfOk result (λ x. IsFileList 1018 x.0) }
{
    let (count, rest) = count_line(b"files ", bytes)?;
    files_of(alloc, count, rest)
}

/// The lists of a record: its options, dependencies and files.
pub(crate) fn lists(
    alloc: Global,
    version: Version,
    bytes: &[u8],
) -> Result<(Switches, Recordeds, Files, &[u8]), ReadError>
    ensures read { Gives (λ x. (x.0, x.1, x.2, x.3.now)) result (lists_at version bytes.now) }
    ensures options { IfOk result (λ x. IsOptionList x.0) }
    ensures depends { IfOk result (λ x. IsRecordedList x.1) }
    ensures files { IfOk result (λ x. IsFileList 1018 x.2) }
{
    let (options, rest) = options(alloc, bytes)?;
    let (depends, rest) = depends(alloc, version, rest)?;
    let (files, rest) = files(alloc, rest)?;
    Ok((options, depends, files, rest))
}
