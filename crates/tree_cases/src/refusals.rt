// What a tree is refused for.
use bulk_base::Text;
use bulk_model::Which;
use case_text::{push_number, push_str, push_text, push_texts};
use port_vars::LineKind;
use std::alloc::{AllocError, Global};
use tree_index::{IndexError, PortKind};

fn push_named(out: &mut Vec<u8>, name: &str, texts: &[&Text]) -> Result<(), AllocError> {
    push_str(out, name)?;
    for text in texts {
        push_str(out, " ")?;
        push_text(out, text)?;
    }
    Ok(())
}

fn line_name(kind: LineKind) -> &'static str {
    match kind {
        LineKind::NotText => "Line NotText",
        LineKind::TooLong => "Line TooLong",
        LineKind::NoOperator => "Line NoOperator",
        LineKind::BadName => "Line BadName",
        LineKind::Reference => "Line Reference",
    }
}

fn push_kind(kind: &PortKind, out: &mut Vec<u8>) -> Result<(), AllocError> {
    match kind {
        PortKind::Line(line) => push_str(out, line_name(*line)),
        PortKind::Undefined { name } => push_named(out, "Undefined", &[name]),
        PortKind::Group { group, on } => {
            push_named(out, "Group", &[group])?;
            push_str(out, ":")?;
            push_texts(out, on.as_slice())
        }
        PortKind::Prevented { a, b } => push_named(out, "Prevented", &[a, b]),
        PortKind::BadFlavor { flavor } => push_named(out, "BadFlavor", &[flavor]),
        PortKind::Missing { name } => push_named(out, "Missing", &[name]),
        PortKind::BadValue { name } => push_named(out, "BadValue", &[name]),
        PortKind::BadDepend { entry } => push_named(out, "BadDepend", &[entry]),
        PortKind::Target { entry } => push_named(out, "Target", &[entry]),
        PortKind::Absent => push_str(out, "Absent"),
        PortKind::BadMoved => push_str(out, "BadMoved"),
        PortKind::Reserved => push_str(out, "Reserved"),
        PortKind::Distinfo => push_str(out, "Distinfo"),
        PortKind::Plist => push_str(out, "Plist"),
    }
}

fn limit_name(which: Which) -> &'static str {
    match which {
        Which::FileBytes => "Limit FileBytes ",
        Which::Options => "Limit Options ",
        Which::Depends => "Limit Depends ",
        Which::VarsBytes => "Limit VarsBytes ",
        Which::Nodes => "Limit Nodes ",
        Which::PlanNodes => "Limit PlanNodes ",
        Which::JobBytes => "Limit JobBytes ",
        Which::DistBytes => "Limit DistBytes ",
        Which::StoreNames => "Limit StoreNames ",
        Which::StoreBytes => "Limit StoreBytes ",
        Which::Generations => "Limit Generations ",
    }
}

/// Puts a refusal at the end: its variant and its fields.
pub(crate) fn push_refusal(
    alloc: Global,
    refusal: &IndexError,
    out: &mut Vec<u8>,
) -> Result<(), AllocError> {
    match refusal {
        IndexError::TreeFault => push_str(out, "TreeFault"),
        IndexError::BadPort { path, line, kind } => {
            push_str(out, "BadPort ")?;
            push_text(out, path)?;
            push_str(out, ":")?;
            push_number(alloc, out, u64::from(*line))?;
            push_str(out, " ")?;
            push_kind(kind, out)
        }
        IndexError::Limit { which, count } => {
            push_str(out, limit_name(*which))?;
            push_number(alloc, out, *count)
        }
        IndexError::DupName { a, b, name } => push_named(out, "DupName", &[a, b, name]),
        IndexError::NoMemory => push_str(out, "NoMemory"),
    }
}
