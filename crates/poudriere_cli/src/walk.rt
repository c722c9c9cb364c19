// A walk over all files below a folder of a disk.
ghost use Rattle.std.specs.Prelude.{◌≡◌, ◌↔◌, ◌<◌, ◌∷◌, [], ◌⊎◌, length, IfOk, IfErr};
ghost use Rattle.bulk_base.specs.Path.{joined, IsPath};
ghost use Rattle.bulk_base.specs.Text.{IsText};

use crate::fault::outer;
use crate::place::{pass_absent, place};
use bulk_base::{NoMemory, Path, PathError};
use outside::Outer;
use std::alloc::Global;
use std::fs;
use std::fs::{DirEntry, Metadata};
use std::rt::Files;

/// The most entries that a walk meets.
const MOST_ENTRIES: u32 = 1_000_000;

/// A walk: the folders that it has yet to visit, the files that it found, and how many entries it may still meet.
#[derive(Drop)]
struct Walk {
    pending: Vec<Path>,
    found: Vec<Path>,
    left: u32,
}

impl Walk {
    fn from_folder(alloc: Global, folder: &Path) -> Result<Walk, NoMemory>
        ensures pending { IfOk result (λ walk. walk.pending.items ≡ folder.now ∷ []) }
        ensures found { IfOk result (λ walk. walk.found.items ≡ []) }
        ensures left { IfOk result (λ walk. walk.left ≡ 1000000) }
    {
        let mut pending = Vec::new(alloc);
        pending.push(folder.copy(alloc)?)?;
        Ok(Walk {
            pending,
            found: Vec::new(alloc),
            left: MOST_ENTRIES,
        })
    }

    /// Keeps the path of a file, and that of a folder for later; passes over all else, as a pipe.
    fn keep(&mut self, path: Path, what: &Metadata) -> Result<(), NoMemory> {
        if what.is_dir() {
            self.pending.push(path)?;
        } else if what.is_file() {
            self.found.push(path)?;
        }
        Ok(())
    }

    /// Meets the entry of a folder.
    fn meet<R: Files>(
        &mut self,
        rt: &R,
        alloc: Global,
        folder: &Path,
        entry: &DirEntry<R>,
    ) -> Result<(), Outer> {
        if self.left == 0 {
            return Err(Outer::Fault);
        }
        self.left -= 1;
        let path = below(alloc, folder, entry.file_name())?;
        let what = fs::metadata(rt, entry.path()).map_err(outer)?;
        self.keep(path, &what)?;
        Ok(())
    }

    /// Meets all entries of a folder.
    fn visit<R: Files + AllocGlobal + Clone + Drop>(
        &mut self,
        rt: &R,
        root: &str,
        folder: &Path,
    ) -> Result<(), Outer> {
        let place = place(rt.alloc(), root, folder.text().as_str())?;
        for entry in fs::read_dir(rt, place.as_str()).map_err(outer)? {
            let entry = entry.map_err(outer)?;
            self.meet(rt, rt.alloc(), folder, &entry)?;
        }
        Ok(())
    }
}

/// The path of a name in a folder. A fault where there is no such path.
fn below(alloc: Global, folder: &Path, name: &str) -> Result<Path, Outer>
    ensures path { IfOk result (λ path. path ≡ joined folder.now name.now) }
    ensures fault { IfErr result (λ e. e ≡ Outer.Fault → (¬ (IsText name.now × IsPath name.now)) ⊎ (1024 < length (joined folder.now name.now))) }
{
    let name = Path::from_bytes(alloc, name.as_bytes()).map_err(no_path)?;
    folder.join(alloc, &name).map_err(no_path)
}

fn no_path(error: PathError) -> Outer
    ensures { result ≡ Outer.NoMemory ↔ error ≡ PathError.NoMemory }
{
    match error {
        PathError::BadPath => Outer::Fault,
        PathError::NoMemory => Outer::NoMemory,
    }
}

/// The plain files below a folder of a disk, in no order, links followed; none where there is no such folder.
///
/// The paths begin with the folder's, and `root` is where that begins. A name that makes no path, a link to nothing
/// or in a circle, more than 1,000,000 entries and a failing call are faults.
pub fn files_below<R: Files + AllocGlobal + Clone + Drop>(
    rt: &R,
    root: &str,
    folder: &Path,
) -> Result<Vec<Path>, Outer> {
    let mut walk = Walk::from_folder(rt.alloc(), folder)?;
    if !has_folder(rt, root, folder)? {
        return Ok(walk.found);
    }
    for _ in 0..MOST_ENTRIES + 2 {
        match walk.pending.pop() {
            Some(next) => walk.visit(rt, root, &next)?,
            None => return Ok(walk.found),
        }
    }
    Err(Outer::Fault)
}

fn has_folder<R: Files + AllocGlobal>(rt: &R, root: &str, folder: &Path) -> Result<bool, Outer> {
    let place = place(rt.alloc(), root, folder.text().as_str())?;
    match fs::metadata(rt, place.as_str()) {
        Ok(what) => Ok(what.is_dir()),
        Err(error) => {
            pass_absent(rt, place.as_str(), error)?;
            Ok(false)
        }
    }
}
