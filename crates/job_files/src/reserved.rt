// Places that are kept free for other files.
ghost use Rattle.std.specs.Prelude.{◌≡◌, ◌||◌, [], bytes_eq};
ghost use Rattle.bulk_base.specs.Path.{joined, is_below};
ghost use Rattle.bulk_model.specs.PlanFacts as plans;
ghost use Rattle.job_files.specs.Distfiles as distfiles;

use bulk_base::Path;

/// Whether a path is that of a folder, or below it; the folder is handed in with a slash too.
fn is_at(path: &Path, folder: &[u8], below: &[u8]) -> bool
    requires { below.now ≡ joined folder.now [] }
    ensures { result ≡ (bytes_eq folder.now path.now || is_below folder.now path.now) }
{
    let path = path.bytes();
    folder == path || path.starts_with(below)
}

/// Whether a path's first part is a folder that a build fills: `local`, `work` or `stage`.
pub(crate) fn is_reserved(path: &Path) -> bool
    ensures { result ≡ plans.is_reserved path.now }
{
    is_at(path, b"local", b"local/")
        || is_at(path, b"work", b"work/")
        || is_at(path, b"stage", b"stage/")
}

/// Whether a path is one at which a job has its distfiles: `dist`, or below it.
pub(crate) fn is_kept_for_dist(path: &Path) -> bool
    ensures { result ≡ distfiles.is_kept_for_dist path.now }
{
    is_at(path, b"dist", b"dist/")
}
