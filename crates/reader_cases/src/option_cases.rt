// Options and their layers.
use crate::conf_cases::push_fault;
use crate::vars_cases::vars_of;
use bulk_base::{Switch, Text, Texts};
use case_text::{CaseError, bytes_of, push_str, push_text, push_texts, text_of, words_of};
use conf_file::{MakeConf, read_make};
use option_set::{Layers, OptionError, asked, choose};
use port_name::Origin;
use port_vars::{Vars, words_in};
use std::alloc::{AllocError, Global};

/// Puts options at the end, `+` before those that are on and `-` before the others.
fn push_switches(out: &mut Vec<u8>, switches: &[Switch]) -> Result<(), AllocError> {
    for switch in switches {
        push_str(out, if switch.on { " +" } else { " -" })?;
        push_text(out, &switch.name)?;
    }
    Ok(())
}

/// Puts a refusal at the end: its variant, and how it prints; of a group also the members that are on.
fn push_refusal(alloc: Global, refusal: &OptionError, out: &mut Vec<u8>) -> Result<(), AllocError> {
    push_str(
        out,
        match refusal {
            OptionError::Undefined { .. } => "Undefined: ",
            OptionError::Group { .. } => "Group: ",
            OptionError::Prevented { .. } => "Prevented: ",
            OptionError::Limit { .. } => "Limit: ",
            OptionError::NoMemory => "NoMemory: ",
        },
    )?;
    push_str(out, refusal.to_string(alloc)?.as_str())?;
    if let OptionError::Group { on, .. } = refusal {
        push_str(out, ":")?;
        push_texts(out, on.as_slice())?;
    }
    Ok(())
}

/// The options that a layer sets, and those that it unsets.
fn lists_of(alloc: Global, set: &str, unset: &str) -> Result<(Texts, Texts), CaseError> {
    let set = words_of(alloc, set)?;
    let unset = words_of(alloc, unset)?;
    Ok((set, unset))
}

fn layers_of(alloc: Global, fields: &[&str]) -> Result<Layers, CaseError> {
    let [
        global_set,
        global_unset,
        port_set,
        port_unset,
        file_set,
        file_unset,
    ] = fields
    else {
        return Err(CaseError::Unfit);
    };
    let (global_set, global_unset) = lists_of(alloc, global_set, global_unset)?;
    let (port_set, port_unset) = lists_of(alloc, port_set, port_unset)?;
    let (file_set, file_unset) = lists_of(alloc, file_set, file_unset)?;
    Ok(Layers {
        global_set,
        global_unset,
        port_set,
        port_unset,
        file_set,
        file_unset,
    })
}

fn push_asked(
    alloc: Global,
    options: &Texts,
    default: &Texts,
    layers: &Layers,
    out: &mut Vec<u8>,
) -> Result<(), AllocError> {
    let found = asked(alloc, options, default, layers)?;
    push_switches(out, found.as_slice())
}

fn ask_by(
    alloc: Global,
    options: &str,
    default: &str,
    layers: &Layers,
    out: &mut Vec<u8>,
) -> Result<(), CaseError> {
    let (options, default) = lists_of(alloc, options, default)?;
    Ok(push_asked(alloc, &options, &default, layers, out)?)
}

/// Options with their states by the port's default and the layers.
pub(crate) fn answer_asked(
    alloc: Global,
    options: &str,
    default: &str,
    layers: &[&str],
    out: &mut Vec<u8>,
) -> Result<(), CaseError> {
    ask_by(alloc, options, default, &layers_of(alloc, layers)?, out)
}

fn push_choice(
    alloc: Global,
    vars: &Vars,
    layers: &Layers,
    out: &mut Vec<u8>,
) -> Result<(), AllocError> {
    match choose(alloc, vars, layers) {
        Ok(switches) => push_switches(out, switches.as_slice()),
        Err(refusal) => push_refusal(alloc, &refusal, out),
    }
}

fn choose_by(
    alloc: Global,
    vars: &str,
    layers: &Layers,
    out: &mut Vec<u8>,
) -> Result<(), CaseError> {
    Ok(push_choice(alloc, &vars_of(alloc, vars)?, layers, out)?)
}

/// What a port's variables and the layers choose.
pub(crate) fn answer_options(
    alloc: Global,
    vars: &str,
    layers: &[&str],
    out: &mut Vec<u8>,
) -> Result<(), CaseError> {
    choose_by(alloc, vars, &layers_of(alloc, layers)?, out)
}

fn push_words(
    alloc: Global,
    vars: &Vars,
    name: &Text,
    out: &mut Vec<u8>,
) -> Result<(), AllocError> {
    push_texts(out, words_in(alloc, vars, name)?.as_slice())
}

/// The words of a variable.
pub(crate) fn answer_words_of(
    alloc: Global,
    vars: &str,
    name: &str,
    out: &mut Vec<u8>,
) -> Result<(), CaseError> {
    let vars = vars_of(alloc, vars)?;
    let name = text_of(alloc, name)?;
    Ok(push_words(alloc, &vars, &name, out)?)
}

fn origin_a_x(alloc: Global) -> Result<Origin, AllocError> {
    let category = Text::literal(alloc, b"a")?;
    let port = Text::literal(alloc, b"x")?;
    Ok(Origin { category, port })
}

/// The options of the port `a/x` under make.conf.
fn push_made(
    alloc: Global,
    make: &MakeConf,
    file: &Vars,
    port: &Vars,
    out: &mut Vec<u8>,
) -> Result<(), AllocError> {
    let layers = make.layers(alloc, &origin_a_x(alloc)?, file)?;
    push_choice(alloc, port, &layers, out)
}

fn make_by(
    alloc: Global,
    make: &MakeConf,
    file: &str,
    port: &str,
    out: &mut Vec<u8>,
) -> Result<(), CaseError> {
    push_str(out, if make.try_broken { "tries" } else { "" })?;
    let file = vars_of(alloc, file)?;
    let port = vars_of(alloc, port)?;
    Ok(push_made(alloc, make, &file, &port, out)?)
}

/// What make.conf, the options file and the variables of the port `a/x` choose, or make.conf's fault.
pub(crate) fn answer_make(
    alloc: Global,
    make: &str,
    file: &str,
    port: &str,
    out: &mut Vec<u8>,
) -> Result<(), CaseError> {
    match read_make(alloc, bytes_of(alloc, make)?.as_slice()) {
        Ok(make) => make_by(alloc, &make, file, port, out),
        Err(fault) => Ok(push_fault(alloc, &fault, out)?),
    }
}
