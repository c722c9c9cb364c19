// Nodes of an index.
use bulk_base::{Switches, Text};
use bulk_model::DepKind;
use case_text::{push_str, push_text};
use std::alloc::AllocError;
use tree_index::{At, NodeInfo, Target};

/// The name of a kind, between blanks.
pub(crate) fn kind_name(kind: DepKind) -> &'static str {
    match kind {
        DepKind::Pkg => " pkg ",
        DepKind::Fetch => " fetch ",
        DepKind::Extract => " extract ",
        DepKind::Patch => " patch ",
        DepKind::Build => " build ",
        DepKind::Lib => " lib ",
        DepKind::Run => " run ",
    }
}

/// Puts where a dependency leads at the end.
fn push_target(target: &Target, nodes: &[NodeInfo], out: &mut Vec<u8>) -> Result<(), AllocError> {
    push_str(out, kind_name(target.kind))?;
    match &target.at {
        At::Node(number) => match nodes.get(*number as usize) {
            Some(node) => push_text(out, &node.node),
            None => push_str(out, "no such node"),
        },
        At::Nowhere(name) => {
            push_str(out, "nowhere ")?;
            push_text(out, name)
        }
        At::Moved { old, new } => {
            push_str(out, "moved ")?;
            push_text(out, old)?;
            push_str(out, " ")?;
            push_text(out, new)
        }
    }
}

fn push_options(options: &Switches, out: &mut Vec<u8>) -> Result<(), AllocError> {
    for option in options {
        push_str(out, if option.on { " +" } else { " -" })?;
        push_text(out, &option.name)?;
    }
    Ok(())
}

fn push_reason(ignored: &Option<Text>, out: &mut Vec<u8>) -> Result<(), AllocError> {
    let Some(reason) = ignored else {
        return Ok(());
    };
    push_str(out, " (")?;
    push_text(out, reason)?;
    push_str(out, ")")
}

/// Puts a node at the end: its name, with `*` where it is its port's default; the package's name; its options; why it is not
/// built; and where its dependencies lead.
pub(crate) fn push_node(
    node: &NodeInfo,
    nodes: &[NodeInfo],
    out: &mut Vec<u8>,
) -> Result<(), AllocError> {
    push_str(out, " ")?;
    push_text(out, &node.node)?;
    push_str(out, if node.is_default { "* " } else { " " })?;
    push_text(out, &node.desc.name)?;
    push_options(&node.options, out)?;
    push_reason(&node.ignored, out)?;
    for target in &node.targets {
        push_target(target, nodes, out)?;
    }
    push_str(out, ";")
}
