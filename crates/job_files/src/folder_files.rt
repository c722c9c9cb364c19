// The files below a folder of the tree.
ghost use Rattle.std.specs.Prelude.{◌≡◌, ◌≢◌, ◌≤◌, ◌+◌, length, drop, Some, Ok, Err, IsTrue, IfOk, IfErr};
ghost use Rattle.bulk_base.specs.Path.{is_below};
ghost use Rattle.bulk_model.specs.Facts.{IsFileList};
ghost use Rattle.bulk_model.specs.Limits.{most};
ghost use Rattle.bulk_model.specs.declared.which.Which.TheVariants.{JobBytes};
ghost use Rattle.path_laws.specs.Laws.{rest_of};
ghost use Rattle.job_files.specs.Faults.{IsCaused};
ghost use Rattle.job_files.specs.FolderFiles as folders;
ghost use Rattle.job_files.specs.FileForms.{AddsAtMost};

use crate::fault::PlanError;
use crate::gathered::{Gathered, add_file, nothing_yet, too_long};
use bulk_base::{NoMemory, Path};
use bulk_model::Which;
use outside::Tree;
use std::alloc::Global;

/// What follows a folder in a path of the tree; it is short enough to stand in a job.
pub(crate) fn path_in_folder(alloc: Global, folder: &Path, path: &Path) -> Result<Path, NoMemory>
    requires long { 4 ≤ length folder.now }
    requires below { IsTrue (is_below folder.now path.now) }
    ensures path { IfOk result (λ rest. rest ≡ rest_of folder.now path.now) }
    ensures short { IfOk result (λ rest. length rest ≤ 1019) }
{
    prove!(path.bytes().len() <= 1024);
    path.rest_below(alloc, folder)
}

/// The files with one more, of so many bytes.
fn add_bytes(
    alloc: Global,
    folder: &Path,
    path: &Path,
    bytes: Vec<u8>,
    gathered: Gathered,
) -> Result<Gathered, PlanError>
    requires long { 4 ≤ length folder.now }
    requires below { IsTrue (is_below folder.now path.now) }
    requires counted { gathered.bytes ≤ most JobBytes }
    ensures ok { IfOk result (λ more. folders.with_bytes gathered (rest_of folder.now path.now) bytes.items ≡ Ok more) }
    ensures refused { IfErr result (λ e. e ≢ PlanError.NoMemory → folders.with_bytes gathered (rest_of folder.now path.now) bytes.items ≡ Err e) }
    ensures adds { IfOk result (λ more. AddsAtMost (rest_of folder.now path.now) gathered.files more.files) }
    ensures few { IfOk result (λ more. more.bytes ≤ most JobBytes) }
    ensures quiet { IfErr result (λ e. e ≢ PlanError.TreeFault) }
{
    if bytes.len() as u64 > Which::FileBytes.most() {
        return Err(too_long());
    }
    let rest = path_in_folder(alloc, folder, path)?;
    add_file(gathered, rest, bytes)
}

/// The files with one more, where it is there: Limit of FileBytes with 4,194,305 where it has more than 4,194,304 bytes, of
/// which no more than one is read beyond them, and Limit of JobBytes with the sum where that passes its number.
pub(crate) fn read_file<T: Tree>(
    alloc: Global,
    tree: &mut T,
    folder: &Path,
    path: &Path,
    gathered: Gathered,
) -> Result<Gathered, PlanError>
    requires long { 4 ≤ length folder.now }
    requires below { IsTrue (is_below folder.now path.now) }
    requires counted { gathered.bytes ≤ most JobBytes }
    ensures ok { IsTrue T.tells → IfOk result (λ more. folders.with_file folder.now (T.content tree.old) gathered path.now ≡ Ok more) }
    ensures refused { IsTrue T.tells → IfErr result (λ e. e ≢ PlanError.NoMemory → e ≢ PlanError.TreeFault
        → folders.with_file folder.now (T.content tree.old) gathered path.now ≡ Err e) }
    ensures adds { IfOk result (λ more. AddsAtMost (rest_of folder.now path.now) gathered.files more.files) }
    ensures few { IfOk result (λ more. more.bytes ≤ most JobBytes) }
    ensures same { T.content tree.new ≡ T.content tree.old }
    ensures cause { IsCaused (T.faults tree.old) (T.faults tree.new) result }
{
    match tree.bytes(alloc, path, Which::FileBytes.most() + 1)? {
        None => Ok(gathered),
        Some(bytes) => add_bytes(alloc, folder, path, bytes, gathered),
    }
}

/// The files below a folder of the tree, in byte order of their paths, each with the folder taken off; so many bytes were
/// counted before. The first refusal of a file is answered.
pub(crate) fn read_folder<T: Tree>(
    alloc: Global,
    tree: &mut T,
    folder: &Path,
    bytes: u64,
) -> Result<Gathered, PlanError>
    requires long { 4 ≤ length folder.now }
    requires counted { bytes ≤ most JobBytes }
    ensures ok { IsTrue T.tells → IfOk result (λ found. folders.folder_files (T.content tree.old) folder.now bytes ≡ Ok found) }
    ensures refused { IsTrue T.tells → IfErr result (λ e. e ≢ PlanError.NoMemory → e ≢ PlanError.TreeFault
        → folders.folder_files (T.content tree.old) folder.now bytes ≡ Err e) }
    ensures form { IfOk result (λ found. IsFileList 1019 found.files) }
    ensures few { IfOk result (λ found. found.bytes ≤ most JobBytes) }
    ensures same { T.content tree.new ≡ T.content tree.old }
    ensures cause { IsCaused (T.faults tree.old) (T.faults tree.new) result }
{
    let names = tree.names(alloc, folder)?;
    let mut found = nothing_yet(alloc, bytes);
    for path in names.as_slice() {
        found = read_file(alloc, tree, folder, path, found)?;
    }
    Ok(found)
}
