// Files that are gathered, and the bytes of all that were counted.
ghost use Rattle.std.specs.Prelude.{◌≡◌, ◌≢◌, ◌≤◌, ◌+◌, ◌∷◌, [], ◌++◌, length, Ok, Err, IfOk, IfErr};
ghost use Rattle.bulk_model.specs.Limits.{most};
ghost use Rattle.bulk_model.specs.declared.which.Which.TheVariants.{FileBytes, JobBytes};
ghost use Rattle.job_files.specs.Gathered as gathering;

use crate::fault::PlanError;
use bulk_base::{Bytes, FileItem, Files, Path, Sequence};
use bulk_model::Which;
use std::alloc::Global;

/// Files that were gathered, and how many bytes were counted so far.
#[derive(Drop)]
pub struct Gathered {
    /// The files, in byte order of their paths.
    pub files: Files,
    /// How many bytes were counted: those of these files, and of all files of jobs before them.
    pub bytes: u64,
}

/// No file yet, where so many bytes were counted before.
pub(crate) fn nothing_yet(alloc: Global, bytes: u64) -> Gathered
    ensures { result ≡ gathering.nothing_yet bytes }
{
    Gathered {
        files: Sequence::new(alloc),
        bytes,
    }
}

/// One file more. Limit of JobBytes with the sum, where the bytes counted pass 268,435,456.
pub(crate) fn add_file(
    gathered: Gathered,
    path: Path,
    bytes: Vec<u8>,
) -> Result<Gathered, PlanError>
    requires counted { gathered.bytes ≤ most JobBytes }
    requires small { length bytes.items ≤ 67108864 }
    ensures ok { IfOk result (λ more. gathering.counted (gathering.with_one gathered path bytes.items) ≡ Ok more) }
    ensures refused { IfErr result (λ e. e ≢ PlanError.NoMemory → gathering.counted (gathering.with_one gathered path bytes.items) ≡ Err e) }
    ensures files { IfOk result (λ more. more.files ≡ gathered.files ++ gathering.file path bytes.items ∷ []) }
    ensures few { IfOk result (λ more. more.bytes ≤ most JobBytes) }
    ensures quiet { IfErr result (λ e. e ≢ PlanError.TreeFault) }
{
    let Gathered {
        mut files,
        bytes: before,
    } = gathered;
    let count = before + bytes.len() as u64;
    if count > Which::JobBytes.most() {
        return Err(PlanError::Limit {
            which: Which::JobBytes,
            count,
        });
    }
    files.push(FileItem {
        path,
        bytes: Bytes::from_vec(bytes),
    })?;
    Ok(Gathered {
        files,
        bytes: count,
    })
}

/// That a file has more bytes than one file may have.
pub(crate) fn too_long() -> PlanError
    ensures { result ≡ PlanError.Limit FileBytes 4194305 }
{
    PlanError::Limit {
        which: Which::FileBytes,
        count: Which::FileBytes.most() + 1,
    }
}
