// The first installed file that has no place of its own.
ghost use Rattle.std.specs.Prelude.{◌≡◌, ◌++◌, List, [], IfOk};
ghost use Rattle.std.specs.Option.{option_copied, option_or};
ghost use Rattle.std.specs.List.{list_any};
ghost use Rattle.std.specs.FinMap.{keys};
ghost use Rattle.bulk_base.specs.Path.{collides};
ghost use Rattle.bulk_base.specs.declared.file.FileItem as file_item;
ghost use Rattle.bulk_model.specs.Bake.{first_conflict, installed};

use bulk_base::{FileItem, NoMemory, Path, PathMap};
use bulk_model::{Package, Shared};
use std::alloc::Global;

/// Whether a path is that of a file that was seen, or stands above or below one.
fn meets(alloc: Global, seen: &PathMap<()>, path: &Path) -> Result<bool, NoMemory>
    ensures { IfOk result (λ meets. meets ≡ list_any (collides path.now) (keys seen.now)) }
{
    let nested = seen.has_nested(alloc, path)?;
    Ok(nested || seen.get(path).is_some())
}

/// The first of some files that collides with one before it or with one that was seen; where there
/// is none, all of them are seen now.
fn see_all<'a>(
    alloc: Global,
    seen: &mut PathMap<()>,
    files: &'a [FileItem],
) -> Result<Option<&'a Path>, NoMemory>
    ensures { IfOk result (λ found. (rest : List file_item.FileItem)
        → first_conflict (keys seen.old) (files.now ++ rest)
        ≡ option_or (option_copied found) (first_conflict (keys seen.new) rest)) }
{
    for file in files {
        if meets(alloc, seen, &file.path)? {
            return Ok(Some(&file.path));
        }
        seen.insert(file.path.copy(alloc)?, ())?;
    }
    Ok(None)
}

/// The first installed file that collides with one before it, packages in order and in each its
/// files by path. A look-up for each folder of each path.
pub(crate) fn find_conflict<'a>(
    alloc: Global,
    packages: &'a [Shared<Package>],
) -> Result<Option<&'a Path>, NoMemory>
    ensures { IfOk result (λ found.
        option_copied found ≡ first_conflict [] (installed packages.now)) }
{
    let mut seen = PathMap::new(alloc);
    for package in packages {
        if let Some(path) = see_all(alloc, &mut seen, package.get().files.as_slice())? {
            return Ok(Some(path));
        }
    }
    Ok(None)
}
