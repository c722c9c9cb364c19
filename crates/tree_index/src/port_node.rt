// One node of a port.
ghost use Rattle.std.specs.Prelude.{◌≡◌, ◌≢◌, IfOk, IfErr, Ok, Err};
ghost use Rattle.std.specs.Option.{option_copied};
ghost use Rattle.std.specs.FinMap as finite;
ghost use Rattle.bulk_base.specs.Names.{node_of};
ghost use Rattle.port_desc.specs.Description.{described};
ghost use Rattle.port_vars.specs.Assignment.{mapped};
ghost use Rattle.tree_index.specs.Places as places;
ghost use Rattle.tree_index.specs.PortNodes as ports;

use crate::node::NodeInfo;
use crate::place::{joined_by, origin_name};
use bulk_base::{NoMemory, Sequence, Switches, Text, copy_of, switch_copies};
use port_desc::{Desc, DescError, describe};
use port_name::Origin;
use port_vars::Vars;
use std::alloc::Global;

fn copy_origin(alloc: Global, origin: &Origin) -> Result<Origin, NoMemory>
    ensures { IfOk result (λ copied. copied ≡ origin.now) }
{
    Ok(Origin {
        category: origin.category.copy(alloc)?,
        port: origin.port.copy(alloc)?,
    })
}

/// A node's name: the origin, or the origin, `@` and the flavor.
fn node_name(alloc: Global, origin: &Origin, flavor: Option<&Text>) -> Result<Text, NoMemory>
    ensures { IfOk result (λ name. name ≡ node_of (places.origin_name origin.now) (option_copied flavor.entry)) }
{
    let name = origin_name(alloc, origin)?;
    match flavor {
        Some(flavor) => joined_by(alloc, &name, b'@', flavor),
        None => Ok(name),
    }
}

/// Why a node is not built, where it is not: by IGNORE, else by FORBIDDEN, else by BROKEN where broken ports are not tried.
fn find_ignored_reason(try_broken: bool, desc: &Desc) -> Option<&Text>
    ensures { option_copied result ≡ ports.ignored_by try_broken desc.now }
{
    let broken = if try_broken {
        None
    } else {
        desc.broken.as_ref()
    };
    desc.ignore.as_ref().or(desc.forbidden.as_ref()).or(broken)
}

/// What a node has besides its description.
#[derive(Drop)]
struct NodeParts {
    node: Text,
    origin: Origin,
    flavor: Option<Text>,
    options: Switches,
    ignored: Option<Text>,
}

/// Copies of a node's parts; they stand before the node is made, since a node that is made has much to give up where
/// memory is wanting.
fn copy_parts(
    alloc: Global,
    origin: &Origin,
    flavor: Option<&Text>,
    options: &Switches,
    ignored: Option<&Text>,
) -> Result<NodeParts, NoMemory>
    ensures name { IfOk result (λ parts. parts.node ≡ node_of (places.origin_name origin.now) (option_copied flavor.entry)) }
    ensures origin { IfOk result (λ parts. parts.origin ≡ origin.now) }
    ensures flavor { IfOk result (λ parts. parts.flavor ≡ option_copied flavor.entry) }
    ensures options { IfOk result (λ parts. parts.options ≡ options.now) }
    ensures ignored { IfOk result (λ parts. parts.ignored ≡ option_copied ignored.entry) }
{
    Ok(NodeParts {
        node: node_name(alloc, origin, flavor)?,
        origin: copy_origin(alloc, origin)?,
        flavor: copy_of(alloc, flavor)?,
        options: switch_copies(alloc, options.as_slice())?,
        ignored: copy_of(alloc, ignored)?,
    })
}

/// A node with what its port's variables say of it.
fn make_node(
    alloc: Global,
    try_broken: bool,
    origin: &Origin,
    flavor: Option<&Text>,
    is_default: bool,
    options: &Switches,
    desc: Desc,
) -> Result<NodeInfo, NoMemory>
    ensures { IfOk result (λ node. node ≡ ports.node_with try_broken origin.now (option_copied flavor.entry) is_default options.now desc) }
{
    let ignored = find_ignored_reason(try_broken, &desc);
    match copy_parts(alloc, origin, flavor, options, ignored) {
        Ok(parts) => Ok(NodeInfo {
            node: parts.node,
            origin: parts.origin,
            flavor: parts.flavor,
            is_default,
            desc,
            options: parts.options,
            ignored: parts.ignored,
            targets: Sequence::new(alloc),
        }),
        Err(refused) => {
            drop(desc);
            Err(refused)
        }
    }
}

/// The node of a flavor, or of a port without flavors, or what is wrong with the port's variables. Where its dependencies
/// lead is not known yet.
pub(crate) fn describe_node(
    alloc: Global,
    try_broken: bool,
    origin: &Origin,
    vars: &Vars,
    flavor: Option<&Text>,
    is_default: bool,
    options: &Switches,
) -> Result<NodeInfo, DescError>
    ensures ok { IfOk result (λ node. mapped (ports.node_with try_broken origin.now (option_copied flavor.entry) is_default options.now) (described (finite.get vars.now) (option_copied flavor.entry) options.now) ≡ Ok node) }
    ensures refused { IfErr result (λ e. e ≢ DescError.NoMemory → described (finite.get vars.now) (option_copied flavor.entry) options.now ≡ Err e) }
{
    let desc = describe(alloc, vars, flavor, options)?;
    Ok(make_node(alloc, try_broken, origin, flavor, is_default, options, desc)?)
}
