// A port's own files and its distfiles, put together.
ghost use Rattle.std.specs.Prelude.{◌≡◌, ◌++◌, filter, not, OnOk, IfOk};
ghost use Rattle.job_files.specs.Distfiles as distfiles;

use bulk_base::{FileItem, Files, NoMemory, Sequence};
use std::alloc::Global;

/// Whether a file stands before those of distfiles, in byte order of paths.
fn comes_before_dist(file: &FileItem) -> bool
    ensures { result ≡ distfiles.comes_before_dist file.now }
{
    file.path.bytes().cmp(b"dist/".as_slice()).is_lt()
}

/// A list of files as those before the distfiles, and those behind them.
fn parted(alloc: Global, files: Files) -> Result<(Files, Files), NoMemory>
    ensures { IfOk result (λ parts. (parts.0 ≡ filter distfiles.comes_before_dist files)
        × (parts.1 ≡ filter (λ file. not (distfiles.comes_before_dist file)) files)) }
{
    let mut front = Sequence::new(alloc);
    let mut back = Sequence::new(alloc);
    for file in files.into_vec() {
        if comes_before_dist(&file) {
            front.push(file)?;
        } else {
            back.push(file)?;
        }
    }
    Ok((front, back))
}

/// Files behind others.
fn append(files: &mut Files, more: Files) -> Result<(), NoMemory>
    ensures { OnOk result (files.new ≡ files.old ++ more) }
{
    for file in more.into_vec() {
        files.push(file)?;
    }
    Ok(())
}

/// A port's own files and its distfiles, in byte order of their paths. No byte of a file is copied.
pub(crate) fn together(alloc: Global, files: Files, dists: Files) -> Result<Files, NoMemory>
    ensures { IfOk result (λ all. all ≡ distfiles.together files dists) }
{
    let (mut all, back) = parted(alloc, files)?;
    append(&mut all, dists)?;
    append(&mut all, back)?;
    Ok(all)
}
