// The nodes of categories and of their ports, one port after another.
ghost use Rattle.std.specs.Prelude.{◌≡◌, ◌≢◌, Ok, Err, IsTrue, IfOk, IfErr};
ghost use Rattle.bulk_base.specs.Names.{is_port_name};
ghost use Rattle.tree_index.specs.Facts.{IsCaused};
ghost use Rattle.tree_index.specs.Gathered.{IsNameList, AreWhole, AddsCategory};
ghost use Rattle.tree_index.specs.Tree.{with_ports, with_category, nodes_of_categories};

use crate::fault::IndexError;
use crate::found::{Found, add_port};
use crate::listing::read_list;
use crate::node::NodeInfos;
use crate::place::ports_file;
use crate::port_reading::read_port;
use bulk_base::{NoMemory, Sequence, Text, Texts};
use conf_file::MakeConf;
use outside::Tree;
use port_name::Origin;
use std::alloc::Global;

// The place of a port of a category.
fn origin_in(alloc: Global, category: &Text, port: &Text) -> Result<Origin, NoMemory>
    ensures category { IfOk result (λ origin. origin.category ≡ category.now) }
    ensures port { IfOk result (λ origin. origin.port ≡ port.now) }
{
    Ok(Origin {
        category: category.copy(alloc)?,
        port: port.copy(alloc)?,
    })
}

/// What is found with the nodes of a category's ports, one port after another, or the first refusal.
fn read_ports<T: Tree>(
    alloc: Global,
    tree: &mut T,
    make: &MakeConf,
    try_broken: bool,
    category: &Text,
    ports: &Texts,
    begun: Found,
) -> Result<Found, IndexError>
    requires category { IsTrue (is_port_name category.now) }
    requires ports { IsNameList ports.now }
    ensures ok { IsTrue T.tells → IfOk result (λ found.
        with_ports make.now try_broken (T.content tree.old) category.now begun ports.now ≡ Ok found) }
    ensures refused { IsTrue T.tells → IfErr result (λ e. e ≢ IndexError.NoMemory → e ≢ IndexError.TreeFault
        → with_ports make.now try_broken (T.content tree.old) category.now begun ports.now ≡ Err e) }
    ensures form { IfOk result (λ found. AddsCategory category.now begun.nodes found.nodes) }
    ensures same { T.content tree.new ≡ T.content tree.old }
    ensures cause { IsCaused (T.faults tree.old) (T.faults tree.new) result }
{
    let mut found = begun;
    for port in ports.as_slice() {
        let origin = origin_in(alloc, category, port)?;
        let port = read_port(alloc, tree, make, try_broken, &origin)?;
        found = add_port(found, port)?;
    }
    Ok(found)
}

// What is found with the nodes of a category, whose list of ports is read first.
fn read_category<T: Tree>(
    alloc: Global,
    tree: &mut T,
    make: &MakeConf,
    try_broken: bool,
    category: &Text,
    begun: Found,
) -> Result<Found, IndexError>
    requires { IsTrue (is_port_name category.now) }
    ensures ok { IsTrue T.tells → IfOk result (λ found.
        with_category make.now try_broken (T.content tree.old) begun category.now ≡ Ok found) }
    ensures refused { IsTrue T.tells → IfErr result (λ e. e ≢ IndexError.NoMemory → e ≢ IndexError.TreeFault
        → with_category make.now try_broken (T.content tree.old) begun category.now ≡ Err e) }
    ensures form { IfOk result (λ found. AddsCategory category.now begun.nodes found.nodes) }
    ensures same { T.content tree.new ≡ T.content tree.old }
    ensures cause { IsCaused (T.faults tree.old) (T.faults tree.new) result }
{
    let ports = read_list(alloc, tree, &ports_file(alloc, category)?)?;
    read_ports(alloc, tree, make, try_broken, category, &ports, begun)
}

/// What the ports of categories give, one category after another, or the first refusal: a category's list is read before
/// its ports, and the bytes of descriptions are counted at each port.
pub(crate) fn read_categories<T: Tree>(
    alloc: Global,
    tree: &mut T,
    make: &MakeConf,
    try_broken: bool,
    categories: &Texts,
) -> Result<NodeInfos, IndexError>
    requires { IsNameList categories.now }
    ensures ok { IsTrue T.tells → IfOk result (λ nodes.
        nodes_of_categories make.now try_broken (T.content tree.old) categories.now ≡ Ok nodes) }
    ensures refused { IsTrue T.tells → IfErr result (λ e. e ≢ IndexError.NoMemory → e ≢ IndexError.TreeFault
        → nodes_of_categories make.now try_broken (T.content tree.old) categories.now ≡ Err e) }
    ensures form { IfOk result AreWhole }
    ensures same { T.content tree.new ≡ T.content tree.old }
    ensures cause { IsCaused (T.faults tree.old) (T.faults tree.new) result }
{
    let mut found = Found {
        nodes: Sequence::new(alloc),
        bytes: 0,
    };
    for category in categories.as_slice() {
        found = read_category(alloc, tree, make, try_broken, category, found)?;
    }
    Ok(found.nodes)
}
