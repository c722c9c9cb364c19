// Names of ports, flavors, nodes and packages.
use bulk_base::Text;
use case_text::{CaseError, option_of, push_str, push_text, text_of, words_of};
use port_name::{
    NameError, NamePart, NameParts, Names, flavor, is_node, is_port_name, origin, pkgname,
};
use std::alloc::{AllocError, Global};

fn part_name(part: NamePart) -> &'static str {
    match part {
        NamePart::Origin => "Origin",
        NamePart::Flavor => "Flavor",
        NamePart::Prefix => "Prefix",
        NamePart::Portname => "Portname",
        NamePart::Suffix => "Suffix",
        NamePart::Version => "Version",
        NamePart::Revision => "Revision",
        NamePart::Epoch => "Epoch",
    }
}

/// Puts a fault at the end: its variant, and how it prints.
fn push_fault(alloc: Global, fault: NameError, out: &mut Vec<u8>) -> Result<(), AllocError> {
    if let NameError::BadName { which } = fault {
        push_str(out, part_name(which))?;
        push_str(out, ": ")?;
    }
    push_str(out, fault.to_string(alloc)?.as_str())
}

fn push_origin(alloc: Global, word: &Text, out: &mut Vec<u8>) -> Result<(), AllocError> {
    match origin(alloc, word) {
        Ok(found) => {
            push_text(out, &found.category)?;
            push_str(out, " ")?;
            push_text(out, &found.port)
        }
        Err(fault) => push_fault(alloc, fault, out),
    }
}

fn push_flavor(alloc: Global, word: &Text, out: &mut Vec<u8>) -> Result<(), AllocError> {
    match flavor(alloc, word) {
        Ok(found) => push_text(out, &found),
        Err(fault) => push_fault(alloc, fault, out),
    }
}

/// What a word is as an origin, as a flavor, as a node and as a port's name.
pub(crate) fn answer_name(alloc: Global, field: &str, out: &mut Vec<u8>) -> Result<(), CaseError> {
    let word = text_of(alloc, field)?;
    push_origin(alloc, &word, out)?;
    push_str(out, "; ")?;
    push_flavor(alloc, &word, out)?;
    push_str(
        out,
        if is_node(word.bytes()) {
            "; node"
        } else {
            "; no node"
        },
    )?;
    push_str(
        out,
        if is_port_name(word.bytes()) {
            "; port"
        } else {
            "; no port"
        },
    )?;
    Ok(())
}

fn push_name(alloc: Global, parts: &NameParts, out: &mut Vec<u8>) -> Result<(), AllocError> {
    match pkgname(alloc, parts) {
        Ok(name) => push_text(out, &name),
        Err(fault) => push_fault(alloc, fault, out),
    }
}

/// A port's name between its prefix and its suffix.
fn named_of(
    alloc: Global,
    [prefix, portname, suffix]: [&str; 3],
) -> Result<(Text, Text, Text), CaseError> {
    let prefix = text_of(alloc, prefix)?;
    let portname = text_of(alloc, portname)?;
    let suffix = text_of(alloc, suffix)?;
    Ok((prefix, portname, suffix))
}

/// A port's revision and epoch.
fn counts_of(
    alloc: Global,
    [revision, epoch]: [&str; 2],
) -> Result<(Option<Text>, Option<Text>), CaseError> {
    let revision = option_of(alloc, revision)?;
    let epoch = option_of(alloc, epoch)?;
    Ok((revision, epoch))
}

fn parts_of(alloc: Global, fields: &[&str]) -> Result<NameParts, CaseError> {
    let [prefix, portname, suffix, version, revision, epoch] = fields else {
        return Err(CaseError::Unfit);
    };
    let (revision, epoch) = counts_of(alloc, [revision, epoch])?;
    let (prefix, portname, suffix) = named_of(alloc, [prefix, portname, suffix])?;
    let version = text_of(alloc, version)?;
    Ok(NameParts {
        prefix,
        portname,
        suffix,
        version,
        revision,
        epoch,
    })
}

/// The name that a package's parts give.
pub(crate) fn answer_package(
    alloc: Global,
    fields: &[&str],
    out: &mut Vec<u8>,
) -> Result<(), CaseError> {
    Ok(push_name(alloc, &parts_of(alloc, fields)?, out)?)
}

/// Whether each of some words is in a set of names.
pub(crate) fn answer_set(
    alloc: Global,
    names: &str,
    wanted: &str,
    out: &mut Vec<u8>,
) -> Result<(), CaseError> {
    let names = Names::new(alloc, words_of(alloc, names)?)?;
    for word in words_of(alloc, wanted)?.as_slice() {
        push_str(out, if names.holds(word) { "+" } else { "-" })?;
        push_text(out, word)?;
    }
    Ok(())
}
