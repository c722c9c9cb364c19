// The test that what a disk lists is a listing: in byte order, each once, and for paths none a folder of another.
ghost use Rattle.std.specs.Prelude.{◌≡◌, ◌↔◌, IsTrue, IfOk, IfErr};
ghost use Rattle.std.specs.List.{list_all};
ghost use Rattle.std.specs.List.Sorted.{IsStrictlySortedBy};
ghost use Rattle.bulk_base.specs.Order.{set_of};
ghost use Rattle.bulk_base.specs.Path.{is_below};
ghost use Rattle.std.specs.List.Sorted.{IsPermutation};
ghost use Rattle.outside.specs.Contents.{IsAscending, IsListing, has_no_folder};
ghost use Rattle.poudriere_cli.specs.Found.{HasTwice, IsNoListing};

use bulk_base::{NoMemory, Path, PathMap, Paths, Sequence, Text, Texts};
use outside::Outer;
use std::alloc::Global;

/// The listing of the files below a folder that were found there, in any order. A fault where they make none: where
/// one is not below the folder, stands there twice, or is a folder of another. NoMemory for want of memory alone.
/// O(n log n) comparisons.
pub fn listing(alloc: Global, mut found: Vec<Path>, folder: &Path) -> Result<Paths, Outer>
    ensures listing { IfOk result (IsListing folder.now) }
    ensures found { IfOk result (IsPermutation found.items) }
    ensures fault { IfErr result (λ e. e ≡ Outer.Fault → IsNoListing folder.now found.items) }
{
    found.sort()?;
    if is_listing(alloc, found.as_slice(), folder)? {
        Ok(Sequence::from_vec(found))
    } else {
        Err(Outer::Fault)
    }
}

/// The names that were found, in byte order. A fault where one was found twice. NoMemory for want of memory alone.
/// O(n log n) comparisons.
pub fn ascending(mut found: Vec<Text>) -> Result<Texts, Outer>
    ensures ascending { IfOk result IsAscending }
    ensures found { IfOk result (IsPermutation found.items) }
    ensures fault { IfErr result (λ e. e ≡ Outer.Fault → HasTwice found.items) }
{
    found.sort()?;
    if is_ascending(found.as_slice()) {
        Ok(Sequence::from_vec(found))
    } else {
        Err(Outer::Fault)
    }
}

fn is_listing(alloc: Global, paths: &[Path], folder: &Path) -> Result<bool, NoMemory>
    ensures { IfOk result (λ is. IsTrue is ↔ IsListing folder.now paths.now) }
{
    if !is_ascending(paths) || !are_below(paths, folder) {
        return Ok(false);
    }
    are_apart(alloc, paths)
}

/// Whether each item is below those after it.
fn is_ascending<T: Ord>(items: &[T]) -> bool
    ensures { IsTrue result ↔ IsStrictlySortedBy T.cmp items.now }
{
    items.is_sorted_by(|a, b| a.cmp(b).is_lt())
}

fn are_below(paths: &[Path], folder: &Path) -> bool
    ensures { result ≡ list_all (is_below folder.now) paths.now }
{
    paths.iter().all(|path| path.is_below(folder))
}

/// The paths as a set.
fn path_set(alloc: Global, paths: &[Path]) -> Result<PathMap<()>, NoMemory>
    ensures { IfOk result (λ set. set ≡ set_of paths.now) }
{
    let mut set = PathMap::new(alloc);
    for path in paths {
        set.insert(path.copy(alloc)?, ())?;
    }
    Ok(set)
}

/// Whether no path is a folder of another. O(log n) comparisons for each of the n paths.
fn are_apart(alloc: Global, paths: &[Path]) -> Result<bool, NoMemory>
    ensures { IfOk result (λ apart. apart ≡ has_no_folder paths.now) }
{
    let set = path_set(alloc, paths)?;
    for path in paths {
        if set.has_below(alloc, path)? {
            return Ok(false);
        }
    }
    Ok(true)
}
