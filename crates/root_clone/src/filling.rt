// Files put into a room.
ghost use Rattle.std.specs.Prelude.{◌≡◌, [], None, IsTrue, IfOk, OnOk, codes};
ghost use Rattle.std.specs.FinMap.{empty};
ghost use Rattle.outside.specs.Faults.{HasCause};
ghost use Rattle.bulk_model.specs.Bake.{placed, installed, first_conflict, first_folder};
ghost use Rattle.bulk_model.specs.PlanFacts.{MayUnderlie};
ghost use Rattle.root_clone.specs.Taking.{entries_of, with_all, CanTake, FitBelow};
ghost use Rattle.root_clone.specs.Filled.{fill_of, left_by};

use crate::conflict::find_conflict;
use crate::filled::Fill;
use bulk_base::{FileItem, Files, Path};
use bulk_model::{Job, Package, Shared};
use outside::{Outer, Room};
use std::alloc::Global;

/// Puts the files of the base root at their paths.
fn put_base<R: Room>(alloc: Global, room: &mut R, files: &[FileItem]) -> Result<(), Outer>
    requires { IsTrue R.Ways.tells → CanTake (R.folder room.old) (entries_of files.now) }
    ensures told { IsTrue R.Ways.tells
        → OnOk result (R.folder room.new ≡ with_all (R.folder room.old) (entries_of files.now)) }
    ensures begun { R.begun room.new ≡ R.begun room.old }
    ensures cause { HasCause (R.faults room.old) (R.faults room.new) result }
{
    for file in files {
        room.put(alloc, &file.path, file.bytes.as_slice())?;
    }
    Ok(())
}

/// Puts files below a folder.
fn put_below<R: Room>(
    alloc: Global,
    room: &mut R,
    folder: &Path,
    files: &[FileItem],
) -> Result<(), Outer>
    requires free { IsTrue R.Ways.tells
        → CanTake (R.folder room.old) (placed folder.now files.now) }
    requires short { FitBelow folder.now files.now }
    ensures told { IsTrue R.Ways.tells
        → OnOk result (R.folder room.new
        ≡ with_all (R.folder room.old) (placed folder.now files.now)) }
    ensures begun { R.begun room.new ≡ R.begun room.old }
    ensures cause { HasCause (R.faults room.old) (R.faults room.new) result }
{
    for file in files {
        let path = folder.join_short(alloc, &file.path)?;
        room.put(alloc, &path, file.bytes.as_slice())?;
    }
    Ok(())
}

/// Puts the files of packages below `local/`.
fn put_installed<R: Room>(
    alloc: Global,
    room: &mut R,
    packages: &[Shared<Package>],
) -> Result<(), Outer>
    requires { IsTrue R.Ways.tells
        → CanTake (R.folder room.old) (placed (codes "local") (installed packages.now)) }
    ensures told { IsTrue R.Ways.tells
        → OnOk result (R.folder room.new
        ≡ with_all (R.folder room.old) (placed (codes "local") (installed packages.now))) }
    ensures begun { R.begun room.new ≡ R.begun room.old }
    ensures cause { HasCause (R.faults room.old) (R.faults room.new) result }
{
    let local = Path::literal(alloc, b"local".as_slice())?;
    for package in packages {
        put_below(alloc, room, &local, package.get().files.as_slice())?;
    }
    Ok(())
}

/// Puts a port's files below `work/`.
fn put_work<R: Room>(alloc: Global, room: &mut R, job: &Job) -> Result<(), Outer>
    requires { IsTrue R.Ways.tells
        → CanTake (R.folder room.old) (placed (codes "work") job.now.files) }
    ensures told { IsTrue R.Ways.tells
        → OnOk result (R.folder room.new
        ≡ with_all (R.folder room.old) (placed (codes "work") job.now.files)) }
    ensures begun { R.begun room.new ≡ R.begun room.old }
    ensures cause { HasCause (R.faults room.old) (R.faults room.new) result }
{
    let work = Path::literal(alloc, b"work".as_slice())?;
    put_below(alloc, room, &work, job.files.as_slice())
}

/// Puts the files of a build that has no conflict into an empty room.
fn put_all<R: Room>(
    alloc: Global,
    room: &mut R,
    base: &Files,
    packages: &[Shared<Package>],
    job: &Job,
) -> Result<(), Outer>
    requires empty { IsTrue R.Ways.tells → R.folder room.old ≡ empty }
    requires base { MayUnderlie base.now }
    requires apart { first_conflict [] (installed packages.now) ≡ None }
    ensures told { IsTrue R.Ways.tells
        → OnOk result (R.folder room.new ≡ first_folder base.now packages.now job.now) }
    ensures begun { R.begun room.new ≡ R.begun room.old }
    ensures cause { HasCause (R.faults room.old) (R.faults room.new) result }
{
    let _ = &job.files;
    put_base(alloc, room, base.as_slice())?;
    put_installed(alloc, room, packages)?;
    put_work(alloc, room, job)
}

/// Fills an empty room for a build: the base root's files at their paths, the files of the packages
/// that are installed below `local/`, and the port's own below `work/` (docs/FORMATS.md, "A room").
///
/// Conflict exactly where an installed file collides with one before it, that is where their paths
/// are equal or one is a folder of the other, with the first such file, packages in order and in
/// each its files by path; the room stays empty then. Fault only where the room's count of faults
/// rose in this call, and every other answer leaves it as it was. NoMemory for want of memory alone.
///
/// Each file is written once; a look-up for each folder of an installed file's path.
pub fn fill<R: Room>(
    alloc: Global,
    room: &mut R,
    base: &Files,
    packages: &[Shared<Package>],
    job: &Job,
) -> Result<Fill, Outer>
    requires empty { IsTrue R.Ways.tells → R.folder room.old ≡ empty }
    requires base { MayUnderlie base.now }
    ensures answer { IfOk result (λ fill.
        fill ≡ fill_of (first_conflict [] (installed packages.now))) }
    ensures told { IsTrue R.Ways.tells → IfOk result (λ fill.
        R.folder room.new ≡ left_by fill (first_folder base.now packages.now job.now)) }
    ensures begun { R.begun room.new ≡ R.begun room.old }
    ensures cause { HasCause (R.faults room.old) (R.faults room.new) result }
{
    match find_conflict(alloc, packages)? {
        Some(path) => Ok(Fill::Conflict {
            path: path.copy(alloc)?,
        }),
        None => {
            put_all(alloc, room, base, packages, job)?;
            Ok(Fill::Ready)
        }
    }
}
