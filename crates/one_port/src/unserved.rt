// What a tree may hold that is not served yet.
ghost use Rattle.std.specs.Prelude.{◌≡◌, Option, Some, None, find, true, IsTrue, IfOk, IfSome, OnOk};
ghost use Rattle.std.specs.Option.{option_copied, option_map};
ghost use Rattle.outside.specs.Faults.{HasCause, IsCaused, err_is};
ghost use Rattle.outside.specs.Contents.{files_below};
ghost use Rattle.bulk_base.specs.Text.{is_plain_text};
ghost use Rattle.bulk_base.specs.Path.{is_path};
ghost use Rattle.one_port.specs.Causes.{blames_tree};
ghost use Rattle.one_port.specs.Decided.{Decides, IsOfReading};
ghost use Rattle.one_port.specs.NodeJobs.{nodes_at};
ghost use Rattle.one_port.specs.Unserved as specs;

use crate::answer::Answer;
use crate::node_job::node_at;
use crate::tree_answer::tree_answer;
use bulk_base::{Path, Text};
use outside::{Outer, Tree};
use port_desc::Desc;
use std::alloc::Global;
use tree_index::NodeInfo;

fn there<T: Tree>(alloc: Global, tree: &mut T, file: &[u8]) -> Result<Option<Text>, Outer>
    requires text { IsTrue (is_plain_text file.now) }
    requires path { IsTrue (is_path file.now) }
    ensures told { IsTrue T.tells → IfOk result (λ found. found ≡ specs.file_there (T.content tree.old) file.now) }
    ensures same { T.content tree.new ≡ T.content tree.old }
    ensures cause { HasCause (T.faults tree.old) (T.faults tree.new) result }
{
    let path = Path::literal(alloc, file)?;
    let found = tree.bytes(alloc, &path, 1)?;
    if found.is_some() {
        Ok(Some(path.text().copy(alloc)?))
    } else {
        Ok(None)
    }
}

fn first_below<T: Tree>(alloc: Global, tree: &mut T, folder: &[u8]) -> Result<Option<Text>, Outer>
    requires text { IsTrue (is_plain_text folder.now) }
    requires path { IsTrue (is_path folder.now) }
    ensures told { IsTrue T.tells → IfOk result (λ found. found ≡ specs.first_of (files_below folder.now (T.content tree.old))) }
    ensures same { T.content tree.new ≡ T.content tree.old }
    ensures cause { HasCause (T.faults tree.old) (T.faults tree.new) result }
{
    let path = Path::literal(alloc, folder)?;
    let names = tree.names(alloc, &path)?;
    match names.get(0) {
        Some(first) => Ok(Some(first.text().copy(alloc)?)),
        None => Ok(None),
    }
}

// The first file that is not served yet.
fn unserved_file<T: Tree>(alloc: Global, tree: &mut T) -> Result<Option<Text>, Outer>
    ensures told { IsTrue T.tells → IfOk result (λ found. found ≡ specs.unserved_file (T.content tree.old)) }
    ensures same { T.content tree.new ≡ T.content tree.old }
    ensures cause { HasCause (T.faults tree.old) (T.faults tree.new) result }
{
    match there(alloc, tree, b"etc/poudriere.conf")? {
        Some(path) => Ok(Some(path)),
        None => first_below(alloc, tree, b"base"),
    }
}

/// Refuses the first file that is not served yet: etc/poudriere.conf, else the first below `base`.
pub(crate) fn refuse_unserved_file<T: Tree>(alloc: Global, tree: &mut T) -> Result<(), Answer>
    ensures told { IsTrue T.tells → Decides (option_map Answer.NotYet (specs.unserved_file (T.content tree.old))) result }
    ensures reading { IsOfReading result }
    ensures same { T.content tree.new ≡ T.content tree.old }
    ensures cause { IsCaused (T.faults tree.old) (T.faults tree.new) (err_is blames_tree result) }
{
    match unserved_file(alloc, tree) {
        Ok(None) => Ok(()),
        Ok(Some(path)) => Err(Answer::NotYet { path }),
        Err(outer) => Err(tree_answer(outer)),
    }
}

fn is_unserved_desc(desc: &Desc) -> bool
    ensures { result ≡ specs.is_unserved_desc desc.now }
{
    !desc.entries.is_empty()
        || desc.ignore.is_some()
        || desc.forbidden.is_some()
        || desc.broken.is_some()
}

/// The first of the nodes with some numbers that is not served yet: it depends on ports, or its port says that it is not to
/// be built.
pub(crate) fn first_unserved<'a>(nodes: &'a [NodeInfo], numbers: &[u32]) -> Option<&'a NodeInfo>
    ensures { option_copied result ≡ find specs.is_unserved (nodes_at nodes.now numbers.now) }
{
    for number in numbers {
        if let Some(node) = node_at(nodes, *number) {
            if is_unserved_desc(&node.desc) {
                return Some(node);
            }
        }
    }
    None
}
