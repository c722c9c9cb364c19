// The options, dependencies and files of a record, each read behind those before it.
ghost use Rattle.std.specs.Prelude.{◌≡◌, ◌++◌, ◌∷◌, [], not, codes, length, map, IfOk, IsTrue, Contains, ◌↔◌};
ghost use Rattle.std.specs.List.{list_all};
ghost use Rattle.bulk_base.specs.Path.{is_below};
ghost use Rattle.bulk_model.specs.Facts.{IsOptionList, IsRecordedList, IsFileList, paths_of};
ghost use Rattle.bulk_model.specs.Facts as facts;
ghost use Rattle.bulk_model.specs.Views.{need_of};
ghost use Rattle.outside.specs.Contents.{IsAscending};
ghost use Rattle.pkg_record.specs.Reading.{Gives, last_of, option_follows, depend_follows, path_follows, is_next_path, option_at, depend_at, file_at};
ghost use Rattle.pkg_record.specs.Noting.{recorded_of};
ghost use Rattle.pkg_record.specs.Said as said;

use crate::fault::{ReadError, misfit};
use crate::line_reader::{line_at, piece};
use crate::words::{Noted, depend_said, file_said, option_said};
use bulk_base::{FileItem, NoMemory, Path, PathError, Sequence, Switch, Text};
use bulk_model::{Recorded, Version};
use std::alloc::{AllocError, Global};

fn follows_option(before: &[Switch], name: &[u8], on: bool) -> bool
    ensures { result ≡ option_follows (last_of before.now) (said.switch name.now on) }
{
    match before.last() {
        None => true,
        Some(last) => last.name.bytes().cmp(name).is_lt(),
    }
}

/// An option's line.
#[tactic(auto, unfolding(crate::specs::Reading::said_at, crate::specs::Reading::option_at))]
pub(crate) fn option_item<'a>(
    alloc: Global,
    before: &[Switch],
    bytes: &'a [u8],
) -> Result<(Switch, &'a [u8]), ReadError>
    ensures read { Gives (λ x. (x.0, x.1.now)) result (option_at before.now bytes.now) }
    ensures form { IsOptionList before.now
        → IfOk result (λ x. IsOptionList (before.now ++ x.0 ∷ [])) }
{
    let (text, after) = line_at(bytes)?;
    let Some((name, on)) = option_said(text) else {
        return Err(misfit(bytes));
    };
    if !follows_option(before, name, on) {
        return Err(misfit(bytes));
    }
    let name = Text::of(alloc, name)?;
    Ok((Switch { name, on }, after))
}

fn comes_before(last: &Recorded, depend: &Noted) -> bool
    ensures { result ≡ facts.comes_before (need_of last.now) (need_of (recorded_of depend.now)) }
{
    let by_kind = last.kind.number().cmp(&depend.kind.number());
    by_kind.then(last.node.bytes().cmp(depend.node)).is_lt()
}

fn follows_depend(before: &[Recorded], depend: &Noted) -> bool
    ensures { result ≡ depend_follows (last_of before.now) (recorded_of depend.now) }
{
    match before.last() {
        None => true,
        Some(last) => comes_before(last, depend),
    }
}

/// A dependency's line.
#[tactic(auto, unfolding(crate::specs::Reading::said_at, crate::specs::Reading::depend_at))]
pub(crate) fn depend_item<'a>(
    alloc: Global,
    version: Version,
    before: &[Recorded],
    bytes: &'a [u8],
) -> Result<(Recorded, &'a [u8]), ReadError>
    ensures read { Gives (λ x. (x.0, x.1.now)) result (depend_at version before.now bytes.now) }
    ensures form { IsRecordedList before.now
        → IfOk result (λ x. IsRecordedList (before.now ++ x.0 ∷ [])) }
{
    let (text, after) = line_at(bytes)?;
    let Some(depend) = depend_said(version, text) else {
        return Err(misfit(bytes));
    };
    if !follows_depend(before, &depend) {
        return Err(misfit(bytes));
    }
    let node = Text::of(alloc, depend.node)?;
    let name = Text::of(alloc, depend.name)?;
    let found = Recorded {
        kind: depend.kind,
        node,
        name,
        digest: depend.digest,
    };
    Ok((found, after))
}

fn follows_path(before: &[FileItem], path: &[u8]) -> bool
    ensures { result ≡ path_follows (last_of before.now) path.now }
{
    match before.last() {
        None => true,
        Some(last) => last.path.bytes().cmp(path).is_lt(),
    }
}

/// Whether one of the files has this path.
fn has_path(files: &[FileItem], path: &[u8]) -> bool
    requires { IsAscending (paths_of files.now) }
    ensures { IsTrue result ↔ Contains (paths_of files.now) path.now }
{
    files
        .binary_search_by(|file| file.path.bytes().cmp(path))
        .is_ok()
}

/// Whether no folder of a path is the path of one of the files.
fn has_free_folders(files: &[FileItem], path: &[u8]) -> bool
    requires { IsAscending (paths_of files.now) }
    ensures { result ≡ list_all (λ folder. not (is_below folder path.now)) (paths_of files.now) }
{
    for at in 0..path.len() {
        if path[at] == b'/' && has_path(files, &path[..at]) {
            return false;
        }
    }
    true
}

/// The path that a file may have behind the files before it, if the bytes are one.
fn next_path(alloc: Global, before: &[FileItem], path: &[u8]) -> Result<Option<Path>, NoMemory>
    requires { IsAscending (paths_of before.now) }
    ensures { IfOk result (λ p. p ≡ said.passing (is_next_path before.now) path.now) }
{
    if path.len() > 1018 || !follows_path(before, path) || !has_free_folders(before, path) {
        return Ok(None);
    }
    match Path::from_bytes(alloc, path) {
        Ok(path) => Ok(Some(path)),
        Err(PathError::BadPath) => Ok(None),
        Err(PathError::NoMemory) => Err(AllocError),
    }
}

/// A file's line and its bytes.
#[tactic(auto, unfolding(crate::specs::Reading::said_at, crate::specs::Reading::file_at))]
pub(crate) fn file_item<'a>(
    alloc: Global,
    before: &[FileItem],
    bytes: &'a [u8],
) -> Result<(FileItem, &'a [u8]), ReadError>
    requires { IsFileList 1018 before.now }
    ensures read { Gives (λ x. (x.0, x.1.now)) result (file_at before.now bytes.now) }
    ensures form { IfOk result (λ x. IsFileList 1018 (before.now ++ x.0 ∷ [])) }
{
    let (text, after) = line_at(bytes)?;
    let Some((size, path)) = file_said(text) else {
        return Err(misfit(bytes));
    };
    let Some(path) = next_path(alloc, before, path)? else {
        return Err(misfit(bytes));
    };
    let (contents, after) = piece(size, after)?;
    let bytes = Sequence::from_slice(alloc, contents)?;
    Ok((FileItem { path, bytes }, after))
}
