// The files of the base root.
ghost use Rattle.std.specs.Prelude.{◌≡◌, ◌≢◌, ◌≤◌, length, true, false, Ok, Err, IsTrue, IfErr, IfOk, OnOk};
ghost use Rattle.bulk_base.specs.Path.{is_below};
ghost use Rattle.bulk_model.specs.Limits.{most};
ghost use Rattle.bulk_model.specs.PlanFacts as plans;
ghost use Rattle.bulk_model.specs.declared.which.Which.TheVariants.{JobBytes};
ghost use Rattle.job_files.specs.Faults.{IsCaused};
ghost use Rattle.job_files.specs.BaseFiles as bases;
ghost use Rattle.job_files.specs.FileForms.{AddsAtMost};
ghost use Rattle.path_laws.specs.Laws.{rest_of};

use crate::fault::PlanError;
use crate::folder_files::{path_in_folder, read_file};
use crate::gathered::{Gathered, nothing_yet};
use crate::reserved::is_reserved;
use bulk_base::Path;
use outside::Tree;
use std::alloc::Global;
use tree_index::PortKind;

/// Refuses a path of the base root at which a build puts its own files.
fn refuse_reserved(alloc: Global, folder: &Path, path: &Path) -> Result<(), PlanError>
    requires long { 4 ≤ length folder.now }
    requires below { IsTrue (is_below folder.now path.now) }
    ensures ok { OnOk result (plans.is_reserved (rest_of folder.now path.now) ≡ false) }
    ensures refused { IfErr result (λ e. e ≢ PlanError.NoMemory
        → (plans.is_reserved (rest_of folder.now path.now) ≡ true) × (e ≡ PlanError.BadPort path.now 0 PortKind.Reserved)) }
    ensures quiet { IfErr result (λ e. e ≢ PlanError.TreeFault) }
{
    let rest = path_in_folder(alloc, folder, path)?;
    if is_reserved(&rest) {
        return Err(PlanError::BadPort {
            path: path.text().copy(alloc)?,
            line: 0,
            kind: PortKind::Reserved,
        });
    }
    Ok(())
}

/// The files with one more of the base root: BadPort with Reserved at line 0 where its first part is `local`, `work` or
/// `stage`; else as any file.
fn read_base_file<T: Tree>(
    alloc: Global,
    tree: &mut T,
    folder: &Path,
    path: &Path,
    gathered: Gathered,
) -> Result<Gathered, PlanError>
    requires folder { folder.now ≡ bases.base_folder }
    requires below { IsTrue (is_below folder.now path.now) }
    requires counted { gathered.bytes ≤ most JobBytes }
    ensures ok { IsTrue T.tells → IfOk result (λ more. bases.with_base_file (T.content tree.old) gathered path.now ≡ Ok more) }
    ensures refused { IsTrue T.tells → IfErr result (λ e. e ≢ PlanError.NoMemory → e ≢ PlanError.TreeFault
        → bases.with_base_file (T.content tree.old) gathered path.now ≡ Err e) }
    ensures adds { IfOk result (λ more. AddsAtMost (rest_of folder.now path.now) gathered.files more.files) }
    ensures free { OnOk result (plans.is_reserved (rest_of folder.now path.now) ≡ false) }
    ensures few { IfOk result (λ more. more.bytes ≤ most JobBytes) }
    ensures same { T.content tree.new ≡ T.content tree.old }
    ensures cause { IsCaused (T.faults tree.old) (T.faults tree.new) result }
{
    refuse_reserved(alloc, folder, path)?;
    read_file(alloc, tree, folder, path, gathered)
}

/// The files of the base root in byte order of their paths below `base/` (docs/FORMATS.md, "The tree folder"); so many bytes
/// were counted before.
///
/// The first refusal of a file is answered: BadPort with Reserved at line 0 where the path's first part below `base/` is
/// `local`, `work` or `stage`; Limit of FileBytes with 4,194,305 where the file has more than 4,194,304 bytes; Limit of
/// JobBytes with the sum where the bytes counted pass 268,435,456. TreeFault only where the tree's count of faults rose,
/// NoMemory for want of memory alone. A file that is gone when it is read is left out.
///
/// Each file is read once.
#[tactic(auto, unfolding(crate::specs::BaseFiles::base_files))]
pub fn read_base<T: Tree>(alloc: Global, tree: &mut T, bytes: u64) -> Result<Gathered, PlanError>
    requires { bytes ≤ most JobBytes }
    ensures ok { IsTrue T.tells → IfOk result (λ found. bases.base_files (T.content tree.old) bytes ≡ Ok found) }
    ensures refused { IsTrue T.tells → IfErr result (λ e. e ≢ PlanError.NoMemory → e ≢ PlanError.TreeFault
        → bases.base_files (T.content tree.old) bytes ≡ Err e) }
    ensures form { IfOk result (λ found. plans.IsBase found.files) }
    ensures same { T.content tree.new ≡ T.content tree.old }
    ensures cause { IsCaused (T.faults tree.old) (T.faults tree.new) result }
{
    let folder = Path::literal(alloc, b"base")?;
    let names = tree.names(alloc, &folder)?;
    let mut found = nothing_yet(alloc, bytes);
    for path in names.as_slice() {
        found = read_base_file(alloc, tree, &folder, path, found)?;
    }
    Ok(found)
}
