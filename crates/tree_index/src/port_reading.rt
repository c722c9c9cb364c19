// The nodes of one port.
ghost use Rattle.std.specs.Prelude.{◌≡◌, ◌≢◌, ◌∷◌, map, drop, IsTrue, IfOk, IfErr, Ok, Err};
ghost use Rattle.std.specs.FinMap as finite;
ghost use Rattle.conf_file.specs.Make.{layers_of};
ghost use Rattle.option_set.specs.Chosen.{chosen};
ghost use Rattle.port_vars.specs.Assignment.{mapped};
ghost use Rattle.tree_index.specs.Facts.{IsPlace, ArePortNodes, IsCaused};
ghost use Rattle.tree_index.specs.Faults as faults;
ghost use Rattle.tree_index.specs.Places as places;
ghost use Rattle.tree_index.specs.PortNodes as ports;
ghost use Rattle.tree_index.specs.VarFiles as files;

use crate::fault::IndexError;
use crate::found::PortNodes;
use crate::node::{NodeInfo, NodeInfos};
use crate::place::{options_file, port_file};
use crate::port_fault::{desc_fault, option_fault};
use crate::port_node::describe_node;
use crate::var_file::{read_vars_at, read_vars_if_there};
use bulk_base::{Path, Sequence, Switches, Text, Texts};
use conf_file::MakeConf;
use option_set::{OptionError, choose};
use outside::Tree;
use port_desc::{DescError, flavors, missing};
use port_name::Origin;
use port_vars::Vars;
use std::alloc::Global;

/// The flavors of a port that has its required variables.
fn checked_flavors(alloc: Global, vars: &Vars) -> Result<Texts, DescError>
    ensures ok { IfOk result (λ flavors. ports.checked_flavors vars.now ≡ Ok flavors) }
    ensures refused { IfErr result (λ e. e ≢ DescError.NoMemory → ports.checked_flavors vars.now ≡ Err e) }
{
    if let Some(name) = missing(alloc, vars)? {
        return Err(DescError::Missing { name });
    }
    flavors(alloc, vars)
}

/// The states of a port's options, by make.conf and the variables of the port's options file.
fn port_options(
    alloc: Global,
    make: &MakeConf,
    origin: &Origin,
    file: &Vars,
    vars: &Vars,
) -> Result<Switches, OptionError>
    ensures ok { IfOk result (λ options. chosen vars.now (layers_of make.now.vars origin.now file.now) ≡ Ok options) }
    ensures refused { IfErr result (λ e. e ≢ OptionError.NoMemory → chosen vars.now (layers_of make.now.vars origin.now file.now) ≡ Err e) }
{
    let layers = make.layers(alloc, origin, file)?;
    choose(alloc, vars, &layers)
}

/// The default node with the nodes of the other flavors behind it.
fn nodes_behind(
    alloc: Global,
    try_broken: bool,
    origin: &Origin,
    vars: &Vars,
    options: &Switches,
    default: NodeInfo,
    others: &[Text],
) -> Result<NodeInfos, DescError>
    ensures ok { IfOk result (λ nodes. mapped (λ more. default ∷ more) (ports.nodes_for try_broken origin.now vars.now options.now (map ports.other_flavor others.now)) ≡ Ok nodes) }
    ensures refused { IfErr result (λ e. e ≢ DescError.NoMemory → ports.nodes_for try_broken origin.now vars.now options.now (map ports.other_flavor others.now) ≡ Err e) }
{
    let mut nodes = Sequence::new(alloc);
    nodes.push(default)?;
    for flavor in others {
        let node = describe_node(
            alloc,
            try_broken,
            origin,
            vars,
            Some(flavor),
            false,
            options,
        )?;
        nodes.push(node)?;
    }
    Ok(nodes)
}

/// The flavors but the first.
fn behind_first(flavors: &[Text]) -> &[Text]
    ensures { result.now ≡ drop 1 flavors.now }
{
    flavors.get(1..).unwrap_or_default()
}

/// The nodes for a port's flavors, the default first; one node where the port has no flavors.
fn nodes_for(
    alloc: Global,
    try_broken: bool,
    origin: &Origin,
    vars: &Vars,
    options: &Switches,
    flavors: &[Text],
) -> Result<NodeInfos, DescError>
    ensures ok { IfOk result (λ nodes. ports.nodes_for try_broken origin.now vars.now options.now (ports.with_default flavors.now) ≡ Ok nodes) }
    ensures refused { IfErr result (λ e. e ≢ DescError.NoMemory → ports.nodes_for try_broken origin.now vars.now options.now (ports.with_default flavors.now) ≡ Err e) }
{
    let first = flavors.first();
    let default = describe_node(alloc, try_broken, origin, vars, first, true, options)?;
    let others = behind_first(flavors);
    nodes_behind(alloc, try_broken, origin, vars, options, default, others)
}

/// The nodes of a port by its options file's variables and its own: the first refusal among what is missing, the flavors,
/// the options, and then each flavor's checks in the order of the flavors.
fn nodes_by(
    alloc: Global,
    make: &MakeConf,
    try_broken: bool,
    origin: &Origin,
    file: &Vars,
    vars: &Vars,
    path: &Path,
) -> Result<NodeInfos, IndexError>
    requires { path.now ≡ places.port_file origin.now }
    ensures ok { IfOk result (λ nodes. ports.nodes_by make.now try_broken origin.now file.now vars.now ≡ Ok nodes) }
    ensures refused { IfErr result (λ e. e ≢ IndexError.NoMemory → ports.nodes_by make.now try_broken origin.now file.now vars.now ≡ Err e) }
    ensures form { IsPlace origin.now → IfOk result (ArePortNodes origin.now) }
    ensures quiet { IfErr result (λ e. e ≢ IndexError.TreeFault) }
{
    let flavors = match checked_flavors(alloc, vars) {
        Ok(flavors) => flavors,
        Err(fault) => return Err(desc_fault(alloc, path, fault)),
    };
    let options = match port_options(alloc, make, origin, file, vars) {
        Ok(options) => options,
        Err(fault) => return Err(option_fault(alloc, path, fault)),
    };
    match nodes_for(
        alloc,
        try_broken,
        origin,
        vars,
        &options,
        flavors.as_slice(),
    ) {
        Ok(nodes) => Ok(nodes),
        Err(fault) => Err(desc_fault(alloc, path, fault)),
    }
}

// The variables of a port's options file, none where there is no such file.
fn read_options<T: Tree>(alloc: Global, tree: &mut T, origin: &Origin) -> Result<Vars, IndexError>
    requires { IsPlace origin.now }
    ensures ok { IsTrue T.tells → IfOk result (λ vars.
        files.vars_if_there (T.content tree.old) (places.options_file origin.now) ≡ Ok vars) }
    ensures refused { IsTrue T.tells → IfErr result (λ e. e ≢ IndexError.NoMemory → e ≢ IndexError.TreeFault
        → files.vars_if_there (T.content tree.old) (places.options_file origin.now) ≡ Err e) }
    ensures same { T.content tree.new ≡ T.content tree.old }
    ensures cause { IsCaused (T.faults tree.old) (T.faults tree.new) result }
{
    let path = options_file(alloc, origin)?;
    read_vars_if_there(alloc, tree, &path)
}

/// The nodes of a port with the size of its description, the default node first, the others in the order of FLAVORS (docs/FORMATS.md, "The tree folder"). Where
/// their dependencies lead is not known yet. `try_broken` says whether BROKEN is passed over.
///
/// The first of these refusals is answered: of the port's options file, which may be absent; of its description, BadPort
/// with Absent where there is none; then of the description's variables: what is missing, FLAVORS, the options, and the
/// checks of each flavor in the order of FLAVORS. TreeFault exactly where the tree failed; NoMemory for want of memory alone.
///
/// Two files of at most 65,537 bytes are read, and a flavor costs what `describe` does and a copy of the options' states.
pub(crate) fn read_port<T: Tree>(
    alloc: Global,
    tree: &mut T,
    make: &MakeConf,
    try_broken: bool,
    origin: &Origin,
) -> Result<PortNodes, IndexError>
    requires { IsPlace origin.now }
    ensures ok { IsTrue T.tells → IfOk result (λ port.
        ports.port_nodes make.now try_broken (T.content tree.old) origin.now ≡ Ok port.nodes) }
    ensures size { IsTrue T.tells → IfOk result (λ port.
        files.size_at (T.content tree.old) (places.port_file origin.now) ≡ port.size) }
    ensures refused { IsTrue T.tells → IfErr result (λ e. e ≢ IndexError.NoMemory → e ≢ IndexError.TreeFault
        → ports.port_nodes make.now try_broken (T.content tree.old) origin.now ≡ Err e) }
    ensures form { IfOk result (λ port. ArePortNodes origin.now port.nodes) }
    ensures same { T.content tree.new ≡ T.content tree.old }
    ensures cause { IsCaused (T.faults tree.old) (T.faults tree.new) result }
{
    let file = read_options(alloc, tree, origin)?;
    let path = port_file(alloc, origin)?;
    let own = read_vars_at(alloc, tree, &path)?;
    let nodes = nodes_by(alloc, make, try_broken, origin, &file, &own.vars, &path)?;
    Ok(PortNodes {
        nodes,
        size: own.size,
    })
}
