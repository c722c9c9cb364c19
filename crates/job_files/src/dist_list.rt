// A port's list of distfiles, and the port's own files that may not stand beside it.
ghost use Rattle.std.specs.Prelude.{◌≡◌, ◌≢◌, find, Ok, Err, IfOk, IfErr, OnOk};
ghost use Rattle.std.specs.Option.{option_copied};
ghost use Rattle.job_files.specs.Distfiles as distfiles;
ghost use Rattle.job_files.specs.Faults as faults;
ghost use Rattle.job_files.specs.FileForms.{AreEntries, IsFreeOfDist};
ghost use Rattle.bulk_base.specs.Path.{joined};

use crate::fault::PlanError;
use crate::gathered::too_long;
use crate::reserved::is_kept_for_dist;
use bulk_base::{FileItem, NoMemory, Path, Text};
use bulk_model::Which;
use dist_files::{DistError, Dists, read_distinfo};
use std::alloc::Global;
use tree_index::PortKind;

fn bad_list(alloc: Global, path: &Path, line: u32) -> PlanError
    ensures told { result ≢ PlanError.NoMemory → result ≡ PlanError.BadPort path.now line PortKind.Distinfo }
    ensures quiet { result ≢ PlanError.TreeFault }
{
    match path.text().copy(alloc) {
        Ok(path) => PlanError::BadPort {
            path,
            line,
            kind: PortKind::Distinfo,
        },
        Err(_) => PlanError::NoMemory,
    }
}

/// A refusal of a list of distfiles, at its bad line, else at line 0.
fn dist_fault(alloc: Global, path: &Path, fault: DistError) -> PlanError
    ensures told { result ≢ PlanError.NoMemory → result ≡ faults.dist_fault path.now fault }
    ensures quiet { result ≢ PlanError.TreeFault }
{
    match fault {
        DistError::BadLine { line } => bad_list(alloc, path, line),
        DistError::Unpaired { .. } | DistError::Collide { .. } => bad_list(alloc, path, 0),
        DistError::NoMemory => PlanError::NoMemory,
    }
}

/// The entries of a list of distfiles with these bytes: Limit of FileBytes where there are more than 4,194,304 of them, else
/// BadPort with Distinfo at the line, or at line 0.
pub(crate) fn entries_in(alloc: Global, path: &Path, bytes: &[u8]) -> Result<Dists, PlanError>
    ensures ok { IfOk result (λ dists. distfiles.entries_in path.now bytes.now ≡ Ok dists) }
    ensures refused { IfErr result (λ e. e ≢ PlanError.NoMemory → distfiles.entries_in path.now bytes.now ≡ Err e) }
    ensures form { IfOk result AreEntries }
    ensures quiet { IfErr result (λ e. e ≢ PlanError.TreeFault) }
{
    if bytes.len() as u64 > Which::FileBytes.most() {
        return Err(too_long());
    }
    match read_distinfo(alloc, bytes) {
        Ok(dists) => Ok(dists),
        Err(fault) => Err(dist_fault(alloc, path, fault)),
    }
}

/// The tree's path of a file of a folder, as a text.
fn whole_path(alloc: Global, folder: &Path, file: &Path) -> Result<Text, NoMemory>
    ensures { IfOk result (λ path. path ≡ joined folder.now file.now) }
{
    let mut path = folder.text().copy(alloc)?;
    path.append(&Text::literal(alloc, b"/")?)?;
    path.append(file.text())?;
    Ok(path)
}

/// The first of some files that stands where distfiles would.
fn first_kept(files: &[FileItem]) -> Option<&FileItem>
    ensures { option_copied result ≡ find (λ file. distfiles.is_kept_for_dist file.path) files.now }
{
    files.iter().find(|file| is_kept_for_dist(&file.path))
}

/// Refuses the first of a port's own files that stands where its distfiles would: BadPort with Reserved at line 0.
pub(crate) fn refuse_kept(alloc: Global, folder: &Path, files: &[FileItem]) -> Result<(), PlanError>
    ensures ok { OnOk result (distfiles.refuse_kept folder.now files.now ≡ Ok tt) }
    ensures free { OnOk result (IsFreeOfDist files.now) }
    ensures refused { IfErr result (λ e. e ≢ PlanError.NoMemory → distfiles.refuse_kept folder.now files.now ≡ Err e) }
    ensures quiet { IfErr result (λ e. e ≢ PlanError.TreeFault) }
{
    match first_kept(files) {
        None => Ok(()),
        Some(file) => Err(PlanError::BadPort {
            path: whole_path(alloc, folder, &file.path)?,
            line: 0,
            kind: PortKind::Reserved,
        }),
    }
}
