// poudriere.conf, and patterns of names.
use crate::vars_cases::kind_name;
use bulk_base::Text;
use case_text::{CaseError, bytes_of, push_number, push_str, push_text, text_of};
use conf_file::{Conf, ConfError, ConfKind, matches, read_conf};
use std::alloc::{AllocError, Global};

fn conf_kind_name(kind: &ConfKind) -> &'static str {
    match kind {
        ConfKind::Line(kind) => kind_name(*kind),
        ConfKind::Quote => "Quote",
        ConfKind::Value { .. } => "Value",
    }
}

/// Puts a fault of settings at the end: its variant, and how it prints.
pub(crate) fn push_fault(
    alloc: Global,
    fault: &ConfError,
    out: &mut Vec<u8>,
) -> Result<(), AllocError> {
    if let ConfError::BadLine { kind, .. } = fault {
        push_str(out, conf_kind_name(kind))?;
        push_str(out, ": ")?;
    }
    push_str(out, fault.to_string(alloc)?.as_str())
}

fn push_conf(alloc: Global, conf: &Conf, out: &mut Vec<u8>) -> Result<(), AllocError> {
    match conf.jobs {
        Some(jobs) => push_number(alloc, out, jobs)?,
        None => push_str(out, "none")?,
    }
    push_str(out, if conf.flavor_all { " all [" } else { " one [" })?;
    push_text(out, &conf.boost)?;
    push_str(out, "]")
}

/// What poudriere.conf says, or its fault.
pub(crate) fn answer_conf(alloc: Global, field: &str, out: &mut Vec<u8>) -> Result<(), CaseError> {
    match read_conf(alloc, bytes_of(alloc, field)?.as_slice()) {
        Ok(conf) => Ok(push_conf(alloc, &conf, out)?),
        Err(fault) => Ok(push_fault(alloc, &fault, out)?),
    }
}

fn push_match(out: &mut Vec<u8>, pattern: &Text, name: &Text) -> Result<(), AllocError> {
    push_str(out, if matches(pattern, name) { "yes" } else { "no" })
}

/// Whether a pattern matches a name.
pub(crate) fn answer_match(
    alloc: Global,
    pattern: &str,
    name: &str,
    out: &mut Vec<u8>,
) -> Result<(), CaseError> {
    let pattern = text_of(alloc, pattern)?;
    let name = text_of(alloc, name)?;
    Ok(push_match(out, &pattern, &name)?)
}
