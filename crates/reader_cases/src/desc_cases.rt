// Descriptions of ports.
use crate::vars_cases::vars_of;
use bulk_base::{Sequence, Switch, Switches, Text};
use bulk_model::{Commands, DepKind, Steps};
use case_text::{CaseError, option_of, push_number, push_str, push_text, push_texts, words_of};
use port_desc::{Desc, DescError, Entries, describe, flavors, missing};
use port_vars::Vars;
use std::alloc::{AllocError, Global};

/// An option of which `+` says that it is on, and any other first byte that it is off.
fn switch_of(alloc: Global, word: &Text) -> Result<Switch, CaseError> {
    let Some((sign, name)) = word.bytes().split_first() else {
        return Err(CaseError::Unfit);
    };
    Ok(Switch {
        name: Text::from_bytes(alloc, name)?,
        on: *sign == b'+',
    })
}

fn add_switches(alloc: Global, found: &mut Switches, words: &[Text]) -> Result<(), CaseError> {
    for word in words {
        found.push(switch_of(alloc, word)?)?;
    }
    Ok(())
}

fn switches_of(alloc: Global, field: &str) -> Result<Switches, CaseError> {
    let mut found = Sequence::new(alloc);
    add_switches(alloc, &mut found, words_of(alloc, field)?.as_slice())?;
    Ok(found)
}

fn kind_name(kind: DepKind) -> &'static str {
    match kind {
        DepKind::Pkg => " pkg:",
        DepKind::Fetch => " fetch:",
        DepKind::Extract => " extract:",
        DepKind::Patch => " patch:",
        DepKind::Build => " build:",
        DepKind::Lib => " lib:",
        DepKind::Run => " run:",
    }
}

fn push_entries(alloc: Global, out: &mut Vec<u8>, entries: &Entries) -> Result<(), AllocError> {
    if entries.len() > 20 {
        push_str(out, " entries:")?;
        return push_number(alloc, out, entries.len() as u64);
    }
    for entry in entries {
        push_str(out, kind_name(entry.kind))?;
        push_text(out, &entry.target)?;
    }
    Ok(())
}

/// Puts a phase's commands at the end, a comma behind each, where it has any.
fn push_commands(out: &mut Vec<u8>, name: &str, commands: &Commands) -> Result<(), AllocError> {
    if commands.is_empty() {
        return Ok(());
    }
    push_str(out, name)?;
    for command in commands {
        push_texts(out, command.words())?;
        push_str(out, ",")?;
    }
    push_str(out, " ]")
}

fn push_steps(out: &mut Vec<u8>, steps: &Steps) -> Result<(), AllocError> {
    push_commands(out, " extract[", &steps.extract)?;
    push_commands(out, " patch[", &steps.patch)?;
    push_commands(out, " configure[", &steps.configure)?;
    push_commands(out, " build[", &steps.build)?;
    push_commands(out, " stage[", &steps.stage)
}

fn push_reason(out: &mut Vec<u8>, name: &str, reason: &Option<Text>) -> Result<(), AllocError> {
    if let Some(text) = reason {
        push_str(out, name)?;
        push_text(out, text)?;
        push_str(out, ")")?;
    }
    Ok(())
}

fn push_desc(alloc: Global, out: &mut Vec<u8>, desc: &Desc) -> Result<(), AllocError> {
    push_text(out, &desc.name)?;
    push_entries(alloc, out, &desc.entries)?;
    push_steps(out, &desc.steps)?;
    push_reason(out, " ignore(", &desc.ignore)?;
    push_reason(out, " forbidden(", &desc.forbidden)?;
    push_reason(out, " broken(", &desc.broken)
}

/// Puts a refusal at the end: its variant, and how it prints.
fn push_refusal(alloc: Global, refusal: &DescError, out: &mut Vec<u8>) -> Result<(), AllocError> {
    push_str(
        out,
        match refusal {
            DescError::BadFlavor { .. } => "BadFlavor: ",
            DescError::Missing { .. } => "Missing: ",
            DescError::BadValue { .. } => "BadValue: ",
            DescError::BadDepend { .. } => "BadDepend: ",
            DescError::Target { .. } => "Target: ",
            DescError::Limit { .. } => "Limit: ",
            DescError::NoMemory => "NoMemory: ",
        },
    )?;
    push_str(out, refusal.to_string(alloc)?.as_str())
}

fn push_description(
    alloc: Global,
    vars: &Vars,
    flavor: Option<&Text>,
    options: &Switches,
    out: &mut Vec<u8>,
) -> Result<(), AllocError> {
    match describe(alloc, vars, flavor, options) {
        Ok(desc) => push_desc(alloc, out, &desc),
        Err(refusal) => push_refusal(alloc, &refusal, out),
    }
}

fn describe_by(
    alloc: Global,
    vars: &Vars,
    flavor: &str,
    options: &str,
    out: &mut Vec<u8>,
) -> Result<(), CaseError> {
    let flavor = option_of(alloc, flavor)?;
    let options = switches_of(alloc, options)?;
    Ok(push_description(alloc, vars, flavor.as_ref(), &options, out)?)
}

/// What variables say of a flavor, or of the port for `-`, with some options.
pub(crate) fn answer_describe(
    alloc: Global,
    vars: &str,
    flavor: &str,
    options: &str,
    out: &mut Vec<u8>,
) -> Result<(), CaseError> {
    describe_by(alloc, &vars_of(alloc, vars)?, flavor, options, out)
}

fn push_flavors(alloc: Global, vars: &Vars, out: &mut Vec<u8>) -> Result<(), AllocError> {
    match flavors(alloc, vars) {
        Ok(listed) => push_texts(out, listed.as_slice()),
        Err(refusal) => push_refusal(alloc, &refusal, out),
    }
}

/// The flavors that variables list.
pub(crate) fn answer_flavors(
    alloc: Global,
    vars: &str,
    out: &mut Vec<u8>,
) -> Result<(), CaseError> {
    Ok(push_flavors(alloc, &vars_of(alloc, vars)?, out)?)
}

/// The variable that every port sets and these do not.
pub(crate) fn answer_missing(
    alloc: Global,
    vars: &str,
    out: &mut Vec<u8>,
) -> Result<(), CaseError> {
    match missing(alloc, &vars_of(alloc, vars)?)? {
        Some(name) => Ok(push_text(out, &name)?),
        None => Ok(push_str(out, "none")?),
    }
}
