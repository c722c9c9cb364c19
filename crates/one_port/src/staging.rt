// What a build staged.
ghost use Rattle.std.specs.Prelude.{◌≡◌, ◌≤◌, ◌∷◌, ◌++◌, length, drop, map, codes, IsTrue, IfOk, IfSome, OnOk};
ghost use Rattle.std.specs.Option.{option_to_list};
ghost use Rattle.bulk_base.specs.Path.{is_below};
ghost use Rattle.outside.specs.Faults.{HasCause};
ghost use Rattle.bulk_model.specs.Facts.{IsFileList};
ghost use Rattle.bulk_model.specs.Bake.{staged};
ghost use Rattle.one_port.specs.RoomBuild.{cut_file, taken_at};

use bulk_base::{FileItem, Files, NoMemory, Path, Sequence};
use outside::{Outer, Room};
use std::alloc::Global;

// What follows `stage/` in a path.
fn path_in_stage(alloc: Global, stage: &Path, path: &Path) -> Result<Path, NoMemory>
    requires stage { stage.now ≡ codes "stage" }
    requires below { IsTrue (is_below (codes "stage") path.now) }
    ensures path { IfOk result (λ p. p ≡ drop 6 path.now) }
    ensures short { IfOk result (λ p. length p ≤ 1018) }
{
    let name = path.rest_below(alloc, stage)?;
    prove!(name.bytes().len() + 6 <= path.bytes().len() && path.bytes().len() <= 1024);
    Ok(name)
}

// The first bytes of a staged file, if it is still there.
fn take_file<R: Room>(
    alloc: Global,
    room: &mut R,
    stage: &Path,
    path: &Path,
    most: u64,
) -> Result<Option<FileItem>, Outer>
    requires stage { stage.now ≡ codes "stage" }
    requires below { IsTrue (is_below (codes "stage") path.now) }
    ensures told { IsTrue R.Ways.tells → IfOk result (λ found. found ≡ taken_at most (codes "stage") (R.folder room.old) path.now) }
    ensures path { IfOk result (λ found. IfSome found (λ file. file.path ≡ drop 6 path.now)) }
    ensures short { IfOk result (λ found. IfSome found (λ file. length file.path ≤ 1018)) }
    ensures same { IsTrue R.Ways.tells → OnOk result (R.folder room.new ≡ R.folder room.old) }
    ensures begun { R.begun room.new ≡ R.begun room.old }
    ensures cause { HasCause (R.faults room.old) (R.faults room.new) result }
{
    match room.take(alloc, path, most)? {
        Some(bytes) => Ok(Some(FileItem {
            path: path_in_stage(alloc, stage, path)?,
            bytes: Sequence::from_vec(bytes),
        })),
        None => Ok(None),
    }
}

// Puts a file at the end of a list, if there is one.
pub(crate) fn push_found(files: &mut Files, found: Option<FileItem>) -> Result<(), NoMemory>
    ensures { OnOk result (files.new ≡ files.old ++ option_to_list found) }
{
    if let Some(file) = found {
        files.push(file)?;
    }
    Ok(())
}

/// The files below `stage/`, of each as many first bytes as are asked for.
pub(crate) fn staged_files<R: Room>(alloc: Global, room: &mut R, most: u64) -> Result<Files, Outer>
    ensures told { IsTrue R.Ways.tells → IfOk result (λ files. files ≡ map (cut_file most) (staged (R.folder room.old))) }
    ensures form { IfOk result (IsFileList 1018) }
    ensures begun { R.begun room.new ≡ R.begun room.old }
    ensures cause { HasCause (R.faults room.old) (R.faults room.new) result }
{
    let stage = Path::of(alloc, b"stage".as_slice())?;
    let paths = room.names(alloc, &stage)?;
    let mut files = Sequence::new(alloc);
    for path in paths.as_slice() {
        let found = take_file(alloc, room, &stage, path, most)?;
        push_found(&mut files, found)?;
    }
    Ok(files)
}
