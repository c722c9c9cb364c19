// What stays of the lists of all trees.
ghost use Rattle.std.specs.Prelude.{◌≡◌, ◌++◌, filter, IfOk, OnOk};
ghost use Rattle.std.specs.FinMap.{keys};
ghost use Rattle.bulk_base.specs.Path.{is_below};
ghost use Rattle.outside.specs.Contents.{IsAscending};
ghost use Rattle.overlay_tree.specs.Listed as listed;
ghost use Rattle.overlay_tree.specs.Listed.{Alike, kept_of};

use crate::placing::{is_joined, is_port_file, port_of};
use bulk_base::{NoMemory, Path, PathMap, Paths, Sequence};
use std::alloc::Global;

/// Whether a path that a tree lists stays, where later trees list these. One look-up.
fn stays(alloc: Global, later: &PathMap<()>, path: &Path) -> Result<bool, NoMemory>
    ensures { IfOk result (λ stays. stays ≡ listed.stays (keys later.now) path.now) }
{
    if is_joined(path.bytes()) {
        return Ok(true);
    }
    if !is_port_file(path.bytes()) {
        return Ok(false);
    }
    let port = Path::of(alloc, port_of(path.bytes()))?;
    Ok(!later.has_below(alloc, &port)?)
}

/// Adds the paths of a list that stay.
fn keep(
    alloc: Global,
    kept: &mut PathMap<()>,
    later: &PathMap<()>,
    list: &Paths,
) -> Result<(), NoMemory>
    ensures { OnOk result (Alike (keys kept.new) (filter (listed.stays (keys later.now)) list.now ++ keys kept.old)) }
{
    for path in list.as_slice() {
        if stays(alloc, later, path)? {
            kept.insert(path.copy(alloc)?, ())?;
        }
    }
    Ok(())
}

/// Adds the paths of a list.
fn add(alloc: Global, paths: &mut PathMap<()>, list: &Paths) -> Result<(), NoMemory>
    ensures { OnOk result (Alike (keys paths.new) (list.now ++ keys paths.old)) }
{
    for path in list.as_slice() {
        paths.insert(path.copy(alloc)?, ())?;
    }
    Ok(())
}

/// What stays of the lists of trees, the base's first, and is below a folder, in byte order. O(log n) comparisons for each
/// path.
pub(crate) fn merge(
    alloc: Global,
    lists: &Sequence<Paths>,
    folder: &Path,
) -> Result<Paths, NoMemory>
    ensures order { IfOk result IsAscending }
    ensures kept { IfOk result (λ paths. Alike paths (filter (is_below folder.now) (kept_of lists.now))) }
{
    let mut kept = PathMap::new(alloc);
    let mut later = PathMap::new(alloc);
    let mut at = lists.len();
    while at > 0 {
        at -= 1;
        let list = &lists.as_slice()[at];
        keep(alloc, &mut kept, &later, list)?;
        add(alloc, &mut later, list)?;
    }
    kept.keys_below(alloc, folder)
}
