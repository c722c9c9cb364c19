// The index of a ports tree, made of its files.
ghost use Rattle.std.specs.Prelude.{◌≡◌, ◌≢◌, ◌≤◌, ◌||◌, length, IsTrue, IfOk, IfErr, Ok, Err};
ghost use Rattle.tree_index.specs.Facts.{AreTreeNodes, IsCaused};
ghost use Rattle.tree_index.specs.Index.{index_with, index_of};
ghost use Rattle.bulk_model.specs.Limits.{most};
ghost use Rattle.bulk_model.specs.declared.which.Which.TheVariants.{Nodes};

use crate::fault::IndexError;
use crate::name_list::names_of;
use crate::node::NodeInfos;
use crate::node_numbers::number_nodes;
use crate::ports_index::Index;
use crate::resolving::resolve_dependencies;
use crate::tree_reading::read_tree;
use bulk_base::NoMemory;
use conf_file::MakeConf;
use moved_list::Moved;
use outside::Tree;
use port_name::Names;
use std::alloc::Global;

/// The index of the nodes of a tree.
fn index_with(alloc: Global, moved: Moved, listed: NodeInfos) -> Result<Index, NoMemory>
    requires { AreTreeNodes listed }
    ensures index { IfOk result (λ index. index ≡ index_with (moved, listed)) }
    ensures nodes { IfOk result (λ index. length index.nodes ≡ length listed) }
{
    let all = listed.as_slice();
    let names = Names::new(alloc, names_of(alloc, all)?)?;
    let numbers = number_nodes(alloc, all)?;
    let nodes = resolve_dependencies(alloc, &numbers, &names, &moved, listed)?;
    Ok(Index {
        nodes,
        moved,
        names,
    })
}

/// Reads a whole ports tree (docs/FORMATS.md, "The index of a ports tree"). Ports that are marked as broken are tried where
/// `try_broken` says so or make.conf sets TRYBROKEN.
///
/// TreeFault only where the tree's count of faults rose, NoMemory for want of memory alone. Else the first refusal is answered:
///
/// 1. that of `ports/subdir.vars`
/// 2. that of `ports/MOVED`, which may be absent: BadPort with BadMoved at its first bad line, or Limit FileBytes with
///    4,194,305 where it has more than 4,194,304 bytes
/// 3. for each category, in byte order, that of its `subdir.vars`; then for each of its ports, in byte order, that of the
///    port's options file, which may be absent, and of its `port.vars`: the lines, Missing, FLAVORS, the options, and then the
///    checks of each flavor in the order of FLAVORS; then Limit VarsBytes with the sum, where the bytes of the `port.vars`
///    so far, those of a port counted once for each of its nodes, pass 268,435,456
/// 4. Limit Nodes with the whole count, where there are more than 65,535 nodes
/// 5. DupName with the least node that shares its package's name with another, and the least of the others
///
/// A file that has to be there and is not is BadPort with Absent, and a word of SUBDIR that is no name BadPort with BadValue,
/// both at line 0. A dependency whose target means no node and leads to none by MOVED is no refusal.
///
/// Each file is read once; the bytes cost what `read_vars`, `read_moved` and `describe` take. For n nodes O(n log n)
/// comparisons of names, O(log n) more for each dependency, and for one that MOVED leads on as many for each name on the way.
pub fn index<T: Tree>(
    alloc: Global,
    tree: &mut T,
    make: &MakeConf,
    try_broken: bool,
) -> Result<Index, IndexError>
    ensures ok { IsTrue T.tells → IfOk result (λ index. index_of make.now (make.now.try_broken || try_broken) (T.content tree.old) ≡ Ok index) }
    ensures refused { IsTrue T.tells → IfErr result (λ e. e ≢ IndexError.NoMemory → e ≢ IndexError.TreeFault → index_of make.now (make.now.try_broken || try_broken) (T.content tree.old) ≡ Err e) }
    ensures few { IfOk result (λ index. length index.nodes ≤ most Nodes) }
    ensures same { T.content tree.new ≡ T.content tree.old }
    ensures cause { IsCaused (T.faults tree.old) (T.faults tree.new) result }
{
    let (moved, listed) = read_tree(alloc, tree, make, make.try_broken || try_broken)?;
    Ok(index_with(alloc, moved, listed)?)
}
