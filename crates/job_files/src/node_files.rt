// The files of a node's job.
ghost use Rattle.std.specs.Prelude.{◌≡◌, ◌≢◌, ◌≤◌, length, Ok, Err, map, IsTrue, IfOk, IfErr, OnOk};
ghost use Rattle.bulk_model.specs.Facts.{IsFileList, paths_of};
ghost use Rattle.bulk_model.specs.Limits.{most};
ghost use Rattle.bulk_model.specs.declared.which.Which.TheVariants.{JobBytes};
ghost use Rattle.job_files.specs.Faults.{IsCaused};
ghost use Rattle.job_files.specs.Distfiles.{job_path};
ghost use Rattle.job_files.specs.FileForms.{AreEntries, IsFreeOfDist};
ghost use Rattle.job_files.specs.NodeFiles as nodes;
ghost use Rattle.tree_index.specs.Facts.{IsNodeInfo};
ghost use Rattle.tree_index.specs.Places as places;

use crate::dist_list::{entries_in, refuse_kept};
use crate::distfile::read_distfiles;
use crate::fault::PlanError;
use crate::folder_files::read_folder;
use crate::gathered::Gathered;
use crate::together::together;
use bulk_base::{NoMemory, Path};
use bulk_model::Which;
use dist_files::Dists;
use outside::Tree;
use std::alloc::Global;
use tree_index::{NodeInfo, distinfo_file, files_folder};

/// A port's own files with its distfiles.
fn with_distfiles(
    alloc: Global,
    entries: &Dists,
    own: Gathered,
    dists: Gathered,
) -> Result<Gathered, NoMemory>
    requires own { IsFileList 1019 own.files }
    requires free { IsFreeOfDist own.files }
    requires entries { AreEntries entries.now }
    requires paths { paths_of dists.files ≡ map (λ dist. job_path dist.file) entries.now }
    ensures same { IfOk result (λ found. found ≡ nodes.with_distfiles own dists) }
    ensures form { IfOk result (λ found. IsFileList 1019 found.files) }
{
    let bytes = dists.bytes;
    Ok(Gathered {
        files: together(alloc, own.files, dists.files)?,
        bytes,
    })
}

/// The entries of a port's list, where none of the port's own files stands where a distfile would.
fn read_entries(
    alloc: Global,
    node: &NodeInfo,
    path: &Path,
    own: &Gathered,
    bytes: &[u8],
) -> Result<Dists, PlanError>
    requires node { IsNodeInfo node.now }
    requires path { path.now ≡ places.distinfo_file node.now.origin }
    ensures ok { IfOk result (λ dists. nodes.list_beside node.now own.now bytes.now ≡ Ok dists) }
    ensures refused { IfErr result (λ e. e ≢ PlanError.NoMemory → nodes.list_beside node.now own.now bytes.now ≡ Err e) }
    ensures form { IfOk result AreEntries }
    ensures free { OnOk result (IsFreeOfDist own.now.files) }
    ensures quiet { IfErr result (λ e. e ≢ PlanError.TreeFault) }
{
    let dists = entries_in(alloc, path, bytes)?;
    refuse_kept(
        alloc,
        &files_folder(alloc, &node.origin)?,
        own.files.as_slice(),
    )?;
    Ok(dists)
}

/// A port's own files with the distfiles of its list, which has these bytes.
fn add_by_list<T: Tree>(
    alloc: Global,
    tree: &mut T,
    node: &NodeInfo,
    path: &Path,
    own: Gathered,
    bytes: &[u8],
) -> Result<Gathered, PlanError>
    requires node { IsNodeInfo node.now }
    requires path { path.now ≡ places.distinfo_file node.now.origin }
    requires form { IsFileList 1019 own.files }
    requires counted { own.bytes ≤ most JobBytes }
    ensures ok { IsTrue T.tells → IfOk result (λ found. nodes.by_list (T.content tree.old) node.now own bytes.now ≡ Ok found) }
    ensures refused { IsTrue T.tells → IfErr result (λ e. e ≢ PlanError.NoMemory → e ≢ PlanError.TreeFault
        → nodes.by_list (T.content tree.old) node.now own bytes.now ≡ Err e) }
    ensures form { IfOk result (λ found. IsFileList 1019 found.files) }
    ensures few { IfOk result (λ found. found.bytes ≤ most JobBytes) }
    ensures same { T.content tree.new ≡ T.content tree.old }
    ensures cause { IsCaused (T.faults tree.old) (T.faults tree.new) result }
{
    let dists = read_entries(alloc, node, path, &own, bytes)?;
    let more = read_distfiles(alloc, tree, &node.node, &dists, own.bytes)?;
    Ok(with_distfiles(alloc, &dists, own, more)?)
}

/// A port's own files with its distfiles, where the port has a list of them.
fn add_distfiles<T: Tree>(
    alloc: Global,
    tree: &mut T,
    node: &NodeInfo,
    own: Gathered,
) -> Result<Gathered, PlanError>
    requires node { IsNodeInfo node.now }
    requires form { IsFileList 1019 own.files }
    requires counted { own.bytes ≤ most JobBytes }
    ensures ok { IsTrue T.tells → IfOk result (λ found. nodes.with_listed (T.content tree.old) node.now own ≡ Ok found) }
    ensures refused { IsTrue T.tells → IfErr result (λ e. e ≢ PlanError.NoMemory → e ≢ PlanError.TreeFault
        → nodes.with_listed (T.content tree.old) node.now own ≡ Err e) }
    ensures form { IfOk result (λ found. IsFileList 1019 found.files) }
    ensures few { IfOk result (λ found. found.bytes ≤ most JobBytes) }
    ensures same { T.content tree.new ≡ T.content tree.old }
    ensures cause { IsCaused (T.faults tree.old) (T.faults tree.new) result }
{
    let path = distinfo_file(alloc, &node.origin)?;
    match tree.bytes(alloc, &path, Which::FileBytes.most() + 1)? {
        None => Ok(own),
        Some(bytes) => add_by_list(alloc, tree, node, &path, own, bytes.as_slice()),
    }
}

/// The files of a node's job in byte order of their paths: those below its port's `files/`, and where the node is not ignored
/// and its port has a `distinfo`, each distfile that this names as `dist/FILE` (docs/FORMATS.md, "Distfiles"); so many bytes
/// were counted before.
///
/// The first of these refusals is answered. For each of the port's own files, in byte order of its path: Limit of FileBytes
/// with 4,194,305 where it has more than 4,194,304 bytes, then Limit of JobBytes with the sum where the bytes counted pass
/// 268,435,456. Then for the list of distfiles: Limit of FileBytes; BadPort with Distinfo at its first bad line, or at line 0;
/// BadPort with Reserved at line 0 of the first of the port's own files that stands at `files/dist` or below it. Then for
/// each entry, by file: Limit of DistBytes with the stated size where that is over 67,108,864; BadDist; Limit of JobBytes.
/// TreeFault only where the tree's count of faults rose, NoMemory for want of memory alone. A file below `files/` that is gone
/// when it is read is left out.
///
/// Each file is read once and none of its bytes is copied.
#[tactic(auto, unfolding(crate::specs::NodeFiles::node_files))]
pub fn read_node_files<T: Tree>(
    alloc: Global,
    tree: &mut T,
    node: &NodeInfo,
    bytes: u64,
) -> Result<Gathered, PlanError>
    requires node { IsNodeInfo node.now }
    requires counted { bytes ≤ most JobBytes }
    ensures ok { IsTrue T.tells → IfOk result (λ found. nodes.node_files (T.content tree.old) node.now bytes ≡ Ok found) }
    ensures refused { IsTrue T.tells → IfErr result (λ e. e ≢ PlanError.NoMemory → e ≢ PlanError.TreeFault
        → nodes.node_files (T.content tree.old) node.now bytes ≡ Err e) }
    ensures form { IfOk result (λ found. IsFileList 1019 found.files) }
    ensures few { IfOk result (λ found. found.bytes ≤ most JobBytes) }
    ensures same { T.content tree.new ≡ T.content tree.old }
    ensures cause { IsCaused (T.faults tree.old) (T.faults tree.new) result }
{
    let folder = files_folder(alloc, &node.origin)?;
    let own = read_folder(alloc, tree, &folder, bytes)?;
    if node.ignored.is_some() {
        return Ok(own);
    }
    add_distfiles(alloc, tree, node, own)
}
