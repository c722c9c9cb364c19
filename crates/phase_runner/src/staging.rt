// What a build staged.
ghost use Rattle.std.specs.Prelude.{◌≡◌, ◌≤◌, length, drop, codes, IsTrue, IfOk, IfSome, OnOk};
ghost use Rattle.bulk_base.specs.Path.{is_below};
ghost use Rattle.outside.specs.Faults.{HasCause};
ghost use Rattle.bulk_model.specs.Bake.{staged};
ghost use Rattle.bulk_model.specs.Facts.{IsFileList};
ghost use Rattle.bulk_model.specs.Files.{file_at};
ghost use Rattle.bulk_model.specs.Weight.{most_weight, file_weight, weight_of};
ghost use Rattle.phase_runner.specs.Staged.{taken_of, light, IfTaken, IsTakenFile};

use bulk_base::{FileItem, Files, NoMemory, Path, Sequence};
use outside::{Outer, Room};
use std::alloc::Global;

/// The most that a package may weigh.
const MOST_WEIGHT: u64 = 524288;

/// What was taken of a staged file.
#[derive(Debug, Drop)]
enum Taken {
    /// It is not there any more.
    Gone,
    /// The whole file.
    File(FileItem),
    /// It weighs more than what was left.
    TooHeavy,
}

/// What follows `stage/` in a path.
fn path_in_stage(alloc: Global, stage: &Path, path: &Path) -> Result<Path, NoMemory>
    requires stage { stage.now ≡ codes "stage" }
    requires below { IsTrue (is_below (codes "stage") path.now) }
    ensures path { IfOk result (λ p. p ≡ drop 6 path.now) }
    ensures short { IfOk result (λ p. length p ≤ 1018) }
{
    let name = path.rest_below(alloc, stage)?;
    prove!(name.bytes().len() + 6 <= path.bytes().len() && path.bytes().len() <= 1024);
    Ok(name)
}

/// A file's weight: its contents, its path, and 16.
fn weight(file: &FileItem) -> u64
    requires bytes { length file.now.bytes ≤ 524289 }
    requires path { length file.now.path ≤ 1018 }
    ensures { result ≡ file_weight file.now }
{
    file.bytes.len() as u64 + file.path.bytes().len() as u64 + 16
}

/// The file with these contents, where it weighs no more than what is left.
fn within(left: u64, file: FileItem) -> Taken
    requires bytes { length file.bytes ≤ 524289 }
    requires path { length file.path ≤ 1018 }
    ensures { result ≡ taken_of left (Some file) }
{
    if weight(&file) > left {
        return Taken::TooHeavy;
    }
    Taken::File(file)
}

/// A staged file, where it weighs no more than what is left. One byte more than that is asked for at
/// most.
fn take_file<R: Room>(
    alloc: Global,
    room: &mut R,
    stage: &Path,
    path: &Path,
    left: u64,
) -> Result<Taken, Outer>
    requires stage { stage.now ≡ codes "stage" }
    requires below { IsTrue (is_below (codes "stage") path.now) }
    requires left { left ≤ most_weight }
    ensures told { IsTrue R.Ways.tells → IfOk result (λ taken.
        taken ≡ taken_of left (file_at (codes "stage") (R.folder room.old) path.now)) }
    ensures form { IfOk result (λ taken. IfTaken taken (IsTakenFile left path.now)) }
    ensures same { IsTrue R.Ways.tells → OnOk result (R.folder room.new ≡ R.folder room.old) }
    ensures begun { R.begun room.new ≡ R.begun room.old }
    ensures cause { HasCause (R.faults room.old) (R.faults room.new) result }
{
    match room.take(alloc, path, left + 1)? {
        Some(bytes) => {
            let path = path_in_stage(alloc, stage, path)?;
            let bytes = Sequence::from_vec(bytes);
            Ok(within(left, FileItem { path, bytes }))
        }
        None => Ok(Taken::Gone),
    }
}

/// The files below `stage/`; None where they weigh more than a package may. No more of them is asked
/// for than that and one byte.
pub(crate) fn staged_files<R: Room>(alloc: Global, room: &mut R) -> Result<Option<Files>, Outer>
    ensures told { IsTrue R.Ways.tells → IfOk result (λ found.
        found ≡ light (staged (R.folder room.old))) }
    ensures form { IfOk result (λ found. IfSome found (IsFileList 1018)) }
    ensures light { IfOk result (λ found. IfSome found (λ files.
        weight_of files ≤ most_weight)) }
    ensures begun { R.begun room.new ≡ R.begun room.old }
    ensures cause { HasCause (R.faults room.old) (R.faults room.new) result }
{
    let stage = Path::literal(alloc, b"stage".as_slice())?;
    let paths = room.names(alloc, &stage)?;
    let mut files = Sequence::new(alloc);
    let mut left = MOST_WEIGHT;
    for path in paths.as_slice() {
        match take_file(alloc, room, &stage, path, left)? {
            Taken::Gone => {}
            Taken::File(file) => {
                left -= weight(&file);
                files.push(file)?;
            }
            Taken::TooHeavy => return Ok(None),
        }
    }
    Ok(Some(files))
}
