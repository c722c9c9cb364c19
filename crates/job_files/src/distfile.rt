// The distfiles that a port's list names.
ghost use Rattle.std.specs.Prelude.{◌≡◌, ◌≢◌, ◌≤◌, ◌<◌, ◌+◌, map, length, Ok, Err, IsTrue, IfOk, IfErr};
ghost use Rattle.bulk_model.specs.Facts.{paths_of};
ghost use Rattle.bulk_model.specs.Limits.{most};
ghost use Rattle.bulk_model.specs.declared.which.Which.TheVariants.{JobBytes, DistBytes};
ghost use Rattle.job_files.specs.Distfiles as distfiles;
ghost use Rattle.job_files.specs.Faults.{IsCaused};
ghost use Rattle.job_files.specs.FileForms.{HasOneMore, AreEntries};

use crate::fault::PlanError;
use crate::gathered::{Gathered, add_file, nothing_yet};
use bulk_base::{NoMemory, Path, Text};
use bulk_model::Which;
use dist_files::{Dist, DistWhy, Dists, check};
use outside::Tree;
use std::alloc::Global;

/// Where a distfile stands in the tree.
fn tree_path(alloc: Global, file: &Path) -> Result<Path, NoMemory>
    requires { length file.now ≤ 1014 }
    ensures { IfOk result (λ path. path ≡ distfiles.tree_path file.now) }
{
    Path::literal(alloc, b"distfiles")?.join_short(alloc, file)
}

/// Where a distfile stands in a job.
fn job_path(alloc: Global, file: &Path) -> Result<Path, NoMemory>
    requires { length file.now ≤ 1014 }
    ensures { IfOk result (λ path. path ≡ distfiles.job_path file.now) }
{
    Path::literal(alloc, b"dist")?.join_short(alloc, file)
}

/// That a distfile is not the one that is stated.
fn bad_dist(alloc: Global, node: &Text, file: &Path, why: DistWhy) -> PlanError
    ensures told { result ≢ PlanError.NoMemory → result ≡ PlanError.BadDist node.now file.now why }
    ensures quiet { result ≢ PlanError.TreeFault }
{
    match (node.copy(alloc), file.copy(alloc)) {
        (Ok(port), Ok(file)) => PlanError::BadDist { port, file, why },
        _ => PlanError::NoMemory,
    }
}

/// The files with a distfile of so many bytes: BadDist where they are not as stated.
fn add_dist(
    alloc: Global,
    node: &Text,
    dist: &Dist,
    bytes: Vec<u8>,
    gathered: Gathered,
) -> Result<Gathered, PlanError>
    requires name { length dist.now.file ≤ 1014 }
    requires size { dist.now.size ≤ most DistBytes }
    requires counted { gathered.bytes ≤ most JobBytes }
    ensures ok { IfOk result (λ more. distfiles.with_dist_bytes node.now gathered dist.now bytes.items ≡ Ok more) }
    ensures refused { IfErr result (λ e. e ≢ PlanError.NoMemory → distfiles.with_dist_bytes node.now gathered dist.now bytes.items ≡ Err e) }
    ensures adds { IfOk result (λ more. HasOneMore (distfiles.job_path dist.now.file) gathered.files more.files) }
    ensures few { IfOk result (λ more. more.bytes ≤ most JobBytes) }
    ensures quiet { IfErr result (λ e. e ≢ PlanError.TreeFault) }
{
    match check(dist, bytes.as_slice()) {
        Ok(()) => add_file(gathered, job_path(alloc, &dist.file)?, bytes),
        Err(why) => Err(bad_dist(alloc, node, &dist.file, why)),
    }
}

/// The files with a distfile: Limit of DistBytes where more than 67,108,864 bytes are stated; BadDist where it is absent or
/// not as stated; Limit of JobBytes with the sum where that passes its number.
fn read_dist<T: Tree>(
    alloc: Global,
    tree: &mut T,
    node: &Text,
    dist: &Dist,
    gathered: Gathered,
) -> Result<Gathered, PlanError>
    requires name { length dist.now.file ≤ 1014 }
    requires counted { gathered.bytes ≤ most JobBytes }
    ensures ok { IsTrue T.tells → IfOk result (λ more. distfiles.with_dist (T.content tree.old) node.now gathered dist.now ≡ Ok more) }
    ensures refused { IsTrue T.tells → IfErr result (λ e. e ≢ PlanError.NoMemory → e ≢ PlanError.TreeFault
        → distfiles.with_dist (T.content tree.old) node.now gathered dist.now ≡ Err e) }
    ensures adds { IfOk result (λ more. HasOneMore (distfiles.job_path dist.now.file) gathered.files more.files) }
    ensures few { IfOk result (λ more. more.bytes ≤ most JobBytes) }
    ensures same { T.content tree.new ≡ T.content tree.old }
    ensures cause { IsCaused (T.faults tree.old) (T.faults tree.new) result }
{
    if dist.size > Which::DistBytes.most() {
        return Err(PlanError::Limit {
            which: Which::DistBytes,
            count: dist.size,
        });
    }
    let path = tree_path(alloc, &dist.file)?;
    match tree.bytes(alloc, &path, dist.size + 1)? {
        None => Err(bad_dist(alloc, node, &dist.file, DistWhy::Absent)),
        Some(bytes) => add_dist(alloc, node, dist, bytes, gathered),
    }
}

/// The distfiles of entries, in the entries' order; so many bytes were counted before. The first refusal is answered.
pub(crate) fn read_distfiles<T: Tree>(
    alloc: Global,
    tree: &mut T,
    node: &Text,
    dists: &Dists,
    bytes: u64,
) -> Result<Gathered, PlanError>
    requires entries { AreEntries dists.now }
    requires counted { bytes ≤ most JobBytes }
    ensures ok { IsTrue T.tells → IfOk result (λ found. distfiles.distfiles (T.content tree.old) node.now bytes dists.now ≡ Ok found) }
    ensures refused { IsTrue T.tells → IfErr result (λ e. e ≢ PlanError.NoMemory → e ≢ PlanError.TreeFault
        → distfiles.distfiles (T.content tree.old) node.now bytes dists.now ≡ Err e) }
    ensures paths { IfOk result (λ found. paths_of found.files ≡ map (λ dist. distfiles.job_path dist.file) dists.now) }
    ensures few { IfOk result (λ found. found.bytes ≤ most JobBytes) }
    ensures same { T.content tree.new ≡ T.content tree.old }
    ensures cause { IsCaused (T.faults tree.old) (T.faults tree.new) result }
{
    let mut found = nothing_yet(alloc, bytes);
    for dist in dists.as_slice() {
        found = read_dist(alloc, tree, node, dist, found)?;
    }
    Ok(found)
}
