// Variable files.
use case_text::{CaseError, bytes_of, push_str, push_text, text_of};
use port_vars::{LineKind, Vars, VarsError, read_vars};
use std::alloc::{AllocError, Global};

fn push_value(alloc: Global, vars: &Vars, name: &str, out: &mut Vec<u8>) -> Result<(), CaseError> {
    match vars.value(&text_of(alloc, name)?) {
        Some(value) => {
            push_str(out, "=")?;
            push_text(out, value)?;
        }
        None => push_str(out, "not set")?,
    }
    Ok(())
}

/// The variant that says what is wrong with a line.
pub(crate) fn kind_name(kind: LineKind) -> &'static str {
    match kind {
        LineKind::NotText => "NotText",
        LineKind::TooLong => "TooLong",
        LineKind::NoOperator => "NoOperator",
        LineKind::BadName => "BadName",
        LineKind::Reference => "Reference",
    }
}

/// Puts a file's fault at the end: its variant, and how it prints.
pub(crate) fn push_fault(
    alloc: Global,
    fault: VarsError,
    out: &mut Vec<u8>,
) -> Result<(), AllocError> {
    if let VarsError::BadLine { kind, .. } = fault {
        push_str(out, kind_name(kind))?;
        push_str(out, ": ")?;
    }
    push_str(out, fault.to_string(alloc)?.as_str())
}

/// The variables of a field that is known to be a file of them.
pub(crate) fn vars_of(alloc: Global, field: &str) -> Result<Vars, CaseError> {
    match read_vars(alloc, bytes_of(alloc, field)?.as_slice()) {
        Ok(vars) => Ok(vars),
        Err(VarsError::BadLine { .. }) => Err(CaseError::Unfit),
        Err(VarsError::NoMemory) => Err(CaseError::NoMemory),
    }
}

/// What a file gives a name, or its fault.
pub(crate) fn answer_value(
    alloc: Global,
    file: &str,
    name: &str,
    out: &mut Vec<u8>,
) -> Result<(), CaseError> {
    match read_vars(alloc, bytes_of(alloc, file)?.as_slice()) {
        Ok(vars) => push_value(alloc, &vars, name, out),
        Err(fault) => Ok(push_fault(alloc, fault, out)?),
    }
}
