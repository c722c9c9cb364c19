// What is printed of a fault in a file of the tree or in a distfile, and of a limit.
ghost use Rattle.std.specs.Prelude.{◌≡◌, IfOk};
ghost use Rattle.std.specs.String.{string_bytes};
ghost use Rattle.run_answer.specs.KindText as texts;

use bulk_base::{NoMemory, Text};
use bulk_model::Which;
use conf_file::ConfKind;
use dist_files::DistWhy;
use port_vars::LineKind;
use std::alloc::Global;
use tree_index::PortKind;

fn line_text(kind: LineKind) -> &'static str
    ensures { result.now ≡ texts.line_text kind }
{
    match kind {
        LineKind::NotText => "not text",
        LineKind::TooLong => "too long",
        LineKind::NoOperator => "no operator",
        LineKind::BadName => "bad name",
        LineKind::Reference => "bad reference",
    }
}

/// What is wrong with settings.
pub(crate) fn conf_text(alloc: Global, kind: &ConfKind) -> Result<String, NoMemory>
    ensures { IfOk result (λ text. string_bytes text ≡ texts.conf_text kind.now) }
{
    match kind {
        ConfKind::Line(kind) => Ok(String::from_str(alloc, line_text(*kind))?),
        ConfKind::Quote => Ok(String::from_str(alloc, "bad quote")?),
        ConfKind::Value { name } => Ok(format!(in alloc; "unknown value of {name}")?),
    }
}

/// Names, each behind a space.
pub(crate) fn spaced(alloc: Global, names: &[Text]) -> Result<String, NoMemory>
    ensures { IfOk result (λ text. string_bytes text ≡ texts.spaced names.now) }
{
    let mut text = String::new(alloc);
    for name in names {
        text.push_str(" ")?;
        text.push_str(name.as_str())?;
    }
    Ok(text)
}

fn spaced_or_none(alloc: Global, names: &[Text]) -> Result<String, NoMemory>
    ensures { IfOk result (λ text. string_bytes text ≡ texts.spaced_or_none names.now) }
{
    if names.is_empty() {
        return Ok(String::from_str(alloc, " none")?);
    }
    spaced(alloc, names)
}

fn group_text(alloc: Global, group: &Text, on: &[Text]) -> Result<String, NoMemory>
    ensures { IfOk result (λ text. string_bytes text
        ≡ texts.port_text (PortKind.Group group.now on.now)) }
{
    let members = spaced_or_none(alloc, on)?;
    Ok(format!(in alloc; "option group {group}:{members}")?)
}

/// What is wrong with a file of the ports.
pub(crate) fn port_text(alloc: Global, kind: &PortKind) -> Result<String, NoMemory>
    ensures { IfOk result (λ text. string_bytes text ≡ texts.port_text kind.now) }
{
    match kind {
        PortKind::Line(kind) => Ok(String::from_str(alloc, line_text(*kind))?),
        PortKind::Undefined { name } => Ok(format!(in alloc; "undefined option {name}")?),
        PortKind::Group { group, on } => group_text(alloc, group, on.as_slice()),
        PortKind::Prevented { a, b } => Ok(format!(in alloc; "option {a} prevents {b}")?),
        PortKind::BadFlavor { flavor } => Ok(format!(in alloc; "bad flavor {flavor}")?),
        PortKind::Missing { name } => Ok(format!(in alloc; "missing {name}")?),
        PortKind::BadValue { name } => Ok(format!(in alloc; "bad value of {name}")?),
        PortKind::BadDepend { entry } => Ok(format!(in alloc; "bad dependency {entry}")?),
        PortKind::Target { entry } => Ok(format!(in alloc; "dependency with a target {entry}")?),
        PortKind::Absent => Ok(String::from_str(alloc, "absent")?),
        PortKind::Reserved => Ok(String::from_str(alloc, "reserved path")?),
        PortKind::Distinfo => Ok(String::from_str(alloc, "bad distinfo")?),
        PortKind::Plist => Ok(String::from_str(alloc, "bad plist line")?),
        PortKind::BadMoved => Ok(String::from_str(alloc, "bad line")?),
    }
}

/// In what a distfile differs from what its port's list states.
pub(crate) fn dist_text(why: DistWhy) -> &'static str
    ensures { result.now ≡ texts.dist_text why }
{
    match why {
        DistWhy::Absent => "absent",
        DistWhy::Size { .. } => "size",
        DistWhy::Digest { .. } => "digest",
    }
}

/// A limit's name.
pub(crate) fn limit_name(which: Which) -> &'static str
    ensures { result.now ≡ texts.limit_name which }
{
    match which {
        Which::FileBytes => "FileBytes",
        Which::Options => "Options",
        Which::Depends => "Depends",
        Which::VarsBytes => "VarsBytes",
        Which::Nodes => "Nodes",
        Which::PlanNodes => "PlanNodes",
        Which::JobBytes => "JobBytes",
        Which::DistBytes => "DistBytes",
        Which::StoreNames => "StoreNames",
        Which::StoreBytes => "StoreBytes",
        Which::Generations => "Generations",
    }
}
