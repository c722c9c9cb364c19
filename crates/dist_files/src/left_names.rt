// Names that no entry has.
ghost use Rattle.std.specs.Prelude.{◌≡◌, map, filter, not, IfOk};
ghost use Rattle.bulk_base.specs.Order.{set_of};
ghost use Rattle.dist_files.specs.Checked as lists;

use crate::dist::Dists;
use bulk_base::{NoMemory, Sequence, Text, TextMap, Texts, in_order};
use std::alloc::Global;

/// The files of entries as a set.
fn files_of(alloc: Global, dists: &Dists) -> Result<TextMap<()>, NoMemory>
    ensures { IfOk result (λ files. files ≡ set_of (map (λ d. d.file) dists.now)) }
{
    let mut files = TextMap::new(alloc);
    for dist in dists.as_slice() {
        files.insert(dist.file.text().copy(alloc)?, ())?;
    }
    Ok(files)
}

/// Whether no entry has a name, by the set of their files.
fn is_unnamed(files: &TextMap<()>, name: &Text) -> bool
    ensures { result ≡ not (lists.is_in_set files.now name.now) }
{
    files.get(name).is_none()
}

/// The names that no entry has as its file, in byte order, each once. NoMemory for want of memory alone.
///
/// Costs O(log n) comparisons for each entry and each name, and copies of the names that are left.
pub fn unnamed(alloc: Global, names: &Texts, named: &Dists) -> Result<Texts, NoMemory>
    ensures { IfOk result (λ left. left ≡ lists.unnamed names.now named.now) }
{
    let files = files_of(alloc, named)?;
    let mut left = Sequence::new(alloc);
    for name in names.as_slice() {
        if is_unnamed(&files, name) {
            left.push(name.copy(alloc)?)?;
        }
    }
    in_order(alloc, left.as_slice())
}
