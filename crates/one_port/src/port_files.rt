// A port's files.
ghost use Rattle.std.specs.Prelude.{◌≡◌, ◌+◌, ◌≤◌, length, drop, IsTrue, IfOk, IfSome};
ghost use Rattle.outside.specs.Faults.{HasCause};
ghost use Rattle.bulk_base.specs.Path.{is_below};
ghost use Rattle.one_port.specs.PortFiles.{IsTaken, AreTaken, AreInForm};

use crate::staging::push_found;
use bulk_base::{FileItem, Files, NoMemory, Path, Sequence, Text};
use outside::{Outer, Tree};
use std::alloc::Global;

// The most bytes of one file of the tree.
const MOST_FILE_BYTES: u64 = 4_194_304;

/// A port's files.
#[derive(Drop)]
pub(crate) enum PortFiles {
    /// The path of the first file that is too large.
    Large(Text),
    /// All files.
    Whole(Files),
}

// What follows a folder in a path of the tree, which is short enough to stand in a job.
fn path_in_folder(alloc: Global, folder: &Path, path: &Path) -> Result<Path, NoMemory>
    requires long { 4 ≤ length folder.now }
    requires below { IsTrue (is_below folder.now path.now) }
    ensures path { IfOk result (λ p. p ≡ drop (length folder.now + 1) path.now) }
    ensures short { IfOk result (λ p. length p ≤ 1019) }
{
    prove!(path.bytes().len() <= 1024);
    path.rest_below(alloc, folder)
}

// A file below a folder, under the path that it has there, if it is there; None where it is too large.
fn take_file<T: Tree>(
    alloc: Global,
    tree: &mut T,
    folder: &Path,
    path: &Path,
) -> Result<Option<Option<FileItem>>, Outer>
    requires long { 4 ≤ length folder.now }
    requires below { IsTrue (is_below folder.now path.now) }
    ensures told { IsTrue T.tells → IfOk result (IsTaken folder.now (T.content tree.old) path.now) }
    ensures path { IfOk result (λ taken. IfSome taken (λ found. IfSome found (λ file. file.path ≡ drop (length folder.now + 1) path.now))) }
    ensures short { IfOk result (λ taken. IfSome taken (λ found. IfSome found (λ file. length file.path ≤ 1019))) }
    ensures same { T.content tree.new ≡ T.content tree.old }
    ensures cause { HasCause (T.faults tree.old) (T.faults tree.new) result }
{
    match tree.bytes(alloc, path, MOST_FILE_BYTES + 1)? {
        None => Ok(Some(None)),
        Some(bytes) => {
            if bytes.len() as u64 > MOST_FILE_BYTES {
                return Ok(None);
            }
            Ok(Some(Some(FileItem {
                path: path_in_folder(alloc, folder, path)?,
                bytes: Sequence::from_vec(bytes),
            })))
        }
    }
}

/// The files below a folder of the tree, up to the first that is too large.
pub(crate) fn read_files<T: Tree>(
    alloc: Global,
    tree: &mut T,
    folder: &Path,
) -> Result<PortFiles, Outer>
    requires { 4 ≤ length folder.now }
    ensures told { IsTrue T.tells → IfOk result (AreTaken folder.now (T.content tree.old)) }
    ensures form { IfOk result AreInForm }
    ensures same { T.content tree.new ≡ T.content tree.old }
    ensures cause { HasCause (T.faults tree.old) (T.faults tree.new) result }
{
    let names = tree.names(alloc, folder)?;
    let mut files = Sequence::new(alloc);
    for path in names.as_slice() {
        let taken = take_file(alloc, tree, folder, path)?;
        match taken {
            None => return Ok(PortFiles::Large(path.text().copy(alloc)?)),
            Some(found) => push_found(&mut files, found)?,
        }
    }
    Ok(PortFiles::Whole(files))
}
