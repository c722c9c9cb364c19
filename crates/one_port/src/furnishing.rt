// The folder in which a build begins.
ghost use Rattle.std.specs.Prelude.{◌≡◌, ◌≤◌, [], ◌∷◌, ◌++◌, length, codes, IsTrue, IfOk, OnOk, OnErr};
ghost use Rattle.std.specs.FinMap.{empty, from_entries};
ghost use Rattle.bulk_base.specs.Path.{joined};
ghost use Rattle.outside.specs.Outcomes.{GrewByAtMost};
ghost use Rattle.outside.specs.Faults.{HasCause};
ghost use Rattle.bulk_model.specs.Facts.{IsFileList};
ghost use Rattle.bulk_model.specs.Bake.{placed, first_folder};

use bulk_base::{FileItem, NoMemory, Path, PathError};
use bulk_model::Job;
use outside::{Outer, Room};
use std::alloc::{AllocError, Global};

// The path of what stands at `rest` below a folder, where it is known to be short enough.
fn path_below(alloc: Global, folder: &Path, rest: &Path) -> Result<Path, NoMemory>
    requires { length (joined folder.now rest.now) ≤ 1024 }
    ensures { IfOk result (λ p. p ≡ joined folder.now rest.now) }
{
    match folder.join(alloc, rest) {
        Ok(path) => Ok(path),
        Err(PathError::BadPath) => unreachable!(),
        Err(PathError::NoMemory) => Err(AllocError),
    }
}

// Puts a port's files below `work/` in an empty room.
fn put_files<R: Room>(alloc: Global, room: &mut R, files: &[FileItem]) -> Result<(), Outer>
    requires empty { IsTrue R.Ways.tells → R.folder room.old ≡ empty }
    requires files { IsFileList 1019 files.now }
    ensures told { IsTrue R.Ways.tells → OnOk result (R.folder room.new ≡ from_entries (placed (codes "work") files.now)) }
    ensures begun { R.begun room.new ≡ R.begun room.old }
    ensures cause { HasCause (R.faults room.old) (R.faults room.new) result }
{
    let work = Path::of(alloc, b"work".as_slice())?;
    for file in files {
        let path = path_below(alloc, &work, &file.path)?;
        room.put(alloc, &path, file.bytes.as_slice())?;
    }
    Ok(())
}

/// Begins a build: empties the room and puts the port's files below `work/`.
pub(crate) fn furnish<R: Room>(alloc: Global, room: &mut R, job: &Job) -> Result<(), Outer>
    ensures told { IsTrue R.Ways.tells → OnOk result (R.folder room.new ≡ first_folder [] [] job.now) }
    ensures begun { OnOk result (R.begun room.new ≡ R.begun room.old ++ job.now.name ∷ []) }
    ensures begun_err { OnErr result (GrewByAtMost job.now.name (R.begun room.old) (R.begun room.new)) }
    ensures cause { HasCause (R.faults room.old) (R.faults room.new) result }
{
    room.clear(alloc, &job.name)?;
    put_files(alloc, room, job.files.as_slice())
}
