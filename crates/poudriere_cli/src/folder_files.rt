// The files below the folder of a tree or a room.
ghost use Rattle.std.specs.Prelude.{◌≤◌, IfOk, IfSome, vec_len};
ghost use Rattle.outside.specs.Contents.{IsListing};

use crate::listing::listing;
use crate::place::{first_bytes, place};
use crate::walk::files_below;
use bulk_base::{Path, Paths};
use outside::Outer;
use std::alloc::Global;
use std::rt::Files;

/// The listing of the plain files below a folder. The paths begin at `root`. A fault as in `files_below` and `listing`.
pub fn listed<R: Files + AllocGlobal + Clone + Drop>(
    rt: &R,
    root: &str,
    folder: &Path,
) -> Result<Paths, Outer>
    ensures { IfOk result (IsListing folder.now) }
{
    listing(rt.alloc(), files_below(rt, root, folder)?, folder)
}

/// The first `most` bytes of a plain file; None where there is none. The path begins at `root`.
pub fn first_bytes_of<R: Files + AllocGlobal>(
    rt: &R,
    alloc: Global,
    root: &str,
    file: &Path,
    most: u64,
) -> Result<Option<Vec<u8>>, Outer>
    ensures { IfOk result (λ found. IfSome found (λ bytes. vec_len bytes ≤ most)) }
{
    let place = place(alloc, root, file.text().as_str())?;
    first_bytes(rt, place.as_str(), most)
}
