// The entries of files, and files inside others.
ghost use Rattle.std.specs.Prelude.{◌≡◌, ◌≢◌, Some, None, find, Err, IfOk, IfErr};
ghost use Rattle.std.specs.Option.{option_copied};
ghost use Rattle.std.specs.List.{filter_map};
ghost use Rattle.std.specs.Ordering.{nat_cmp};
ghost use Rattle.std.specs.Cmp.Lexicographic.{slice_cmp};
ghost use Rattle.std.specs.List.Sorted.{IsStrictlySortedBy};
ghost use Rattle.dist_files.specs.Distinfo as lists;
ghost use Rattle.dist_files.specs.Stated.{entry_at};

use crate::dist::{Dist, Dists};
use crate::fault::DistError;
use crate::stated::{Stated, stated_at};
use bulk_base::{NoMemory, Path, PathMap, Paths, Sequence};
use std::alloc::Global;

/// A file's entry, where its digest and its size are stated once each.
fn entry_of(alloc: Global, stated: &PathMap<Stated>, file: &Path) -> Result<Option<Dist>, NoMemory>
    ensures { IfOk result (λ entry. entry ≡ entry_at stated.now file.now) }
{
    let known = stated_at(stated, file);
    match (known.sha256.once(), known.size.once()) {
        (Some(sha256), Some(size)) => Ok(Some(Dist {
            file: file.copy(alloc)?,
            sha256,
            size,
        })),
        _ => Ok(None),
    }
}

/// The entries of files, or the first file that has none.
pub(crate) fn pair(
    alloc: Global,
    stated: &PathMap<Stated>,
    files: &Paths,
) -> Result<Dists, DistError>
    ensures ok { IfOk result (λ dists. dists ≡ filter_map (entry_at stated.now) files.now) }
    ensures paired { IfOk result (λ dists. find (lists.is_unpaired (entry_at stated.now)) files.now ≡ None) }
    ensures unpaired { IfErr result (λ e. e ≢ DistError.NoMemory
        → lists.judged (entry_at stated.now) files.now ≡ Err e) }
{
    let mut dists = Sequence::new(alloc);
    for file in files.as_slice() {
        match entry_of(alloc, stated, file)? {
            Some(dist) => dists.push(dist)?,
            None => {
                return Err(DistError::Unpaired {
                    file: file.copy(alloc)?,
                });
            }
        }
    }
    Ok(dists)
}

/// The first of files in byte order that lies inside another. A look-up for each folder of each file.
pub(crate) fn first_inside<'a>(
    alloc: Global,
    files: &'a Paths,
) -> Result<Option<&'a Path>, NoMemory>
    requires { IsStrictlySortedBy (slice_cmp nat_cmp) files.now }
    ensures { IfOk result (λ found. option_copied found ≡ find (lists.is_inside files.now) files.now) }
{
    // Nothing below a file stands before it, so what collides with one of those before it lies inside that.
    let mut before = PathMap::new(alloc);
    for file in files.as_slice() {
        if before.has_nested(alloc, file)? {
            return Ok(Some(file));
        }
        before.insert(file.copy(alloc)?, ())?;
    }
    Ok(None)
}
