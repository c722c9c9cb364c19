// The package's name, by a port's variables.
ghost use Rattle.std.specs.Prelude.{◌≡◌, ◌≢◌, [], IfOk, IfErr, IsTrue};
ghost use Rattle.std.specs.Option.{option_copied, unwrap_or};
ghost use Rattle.std.specs.FinMap as map;
ghost use Rattle.bulk_base.specs.Text.{is_plain_text};
ghost use Rattle.bulk_base.specs.Names.{IsPackageName};
ghost use Rattle.port_desc.specs.Values.{value_of, value_for as value_for_flavor};
ghost use Rattle.port_desc.specs.Naming as naming;

use crate::fault::DescError;
use crate::values::{value_for, value_named};
use bulk_base::{NoMemory, Text, copy_of};
use port_name::{NameError, NamePart, NameParts, pkgname};
use port_vars::Vars;
use std::alloc::Global;

/// The first of PORTNAME and PORTVERSION that a port does not set; None where it sets both. A variable whose value is empty
/// counts as not set.
///
/// The refusals Missing of `describe` are these. What reads a whole port calls this first, since they come before any
/// refusal of FLAVORS and of the options. NoMemory for want of memory alone. O(log n) comparisons for n variables.
#[tactic(auto, unfolding(crate::specs::Naming::missing))]
pub fn missing(alloc: Global, vars: &Vars) -> Result<Option<Text>, NoMemory>
    ensures { IfOk result (λ name. name ≡ naming.missing (map.get vars.now)) }
{
    if value_named(alloc, vars, b"PORTNAME")?.is_none() {
        return Ok(Some(Text::literal(alloc, b"PORTNAME")?));
    }
    if value_named(alloc, vars, b"PORTVERSION")?.is_none() {
        return Ok(Some(Text::literal(alloc, b"PORTVERSION")?));
    }
    Ok(None)
}

/// A copy of a value; an empty text where there is none.
fn copy_or_empty(alloc: Global, value: Option<&Text>) -> Result<Text, NoMemory>
    ensures { IfOk result (λ text. text ≡ unwrap_or (option_copied value.entry) []) }
{
    match value {
        Some(text) => text.copy(alloc),
        None => Text::literal(alloc, b""),
    }
}

/// A part of the name that a flavor's helper may stand for.
fn part_for(
    alloc: Global,
    vars: &Vars,
    flavor: Option<&Text>,
    name: &[u8],
) -> Result<Text, NoMemory>
    requires { IsTrue (is_plain_text name.now) }
    ensures { IfOk result (λ text. text ≡ unwrap_or (value_for_flavor (map.get vars.now) (option_copied flavor.entry) name.now) []) }
{
    copy_or_empty(alloc, value_for(alloc, vars, flavor, name)?)
}

/// A part of the name that every port sets.
fn part_of(alloc: Global, vars: &Vars, name: &[u8]) -> Result<Text, NoMemory>
    requires { IsTrue (is_plain_text name.now) }
    ensures { IfOk result (λ text. text ≡ unwrap_or (value_of (map.get vars.now) name.now) []) }
{
    copy_or_empty(alloc, value_named(alloc, vars, name)?)
}

/// A part of the name that a port may set.
fn counter_of(alloc: Global, vars: &Vars, name: &[u8]) -> Result<Option<Text>, NoMemory>
    requires { IsTrue (is_plain_text name.now) }
    ensures { IfOk result (λ text. text ≡ value_of (map.get vars.now) name.now) }
{
    copy_of(alloc, value_named(alloc, vars, name)?)
}

/// The parts of the package's name.
#[tactic(auto, unfolding(crate::specs::Naming::parts_for))]
fn parts_for(alloc: Global, vars: &Vars, flavor: Option<&Text>) -> Result<NameParts, NoMemory>
    ensures { IfOk result (λ parts. parts ≡ naming.parts_for (map.get vars.now) (option_copied flavor.entry)) }
{
    Ok(NameParts {
        prefix: part_for(alloc, vars, flavor, b"PKGNAMEPREFIX")?,
        portname: part_of(alloc, vars, b"PORTNAME")?,
        suffix: part_for(alloc, vars, flavor, b"PKGNAMESUFFIX")?,
        version: part_of(alloc, vars, b"PORTVERSION")?,
        revision: counter_of(alloc, vars, b"PORTREVISION")?,
        epoch: counter_of(alloc, vars, b"PORTEPOCH")?,
    })
}

/// The variable that a part of the name is the value of.
fn variable_of(part: NamePart) -> &'static [u8]
    ensures name { result.now ≡ naming.variable_of part }
    ensures plain { IsTrue (is_plain_text result.now) }
{
    match part {
        NamePart::Prefix => b"PKGNAMEPREFIX",
        NamePart::Suffix => b"PKGNAMESUFFIX",
        NamePart::Version => b"PORTVERSION",
        NamePart::Revision => b"PORTREVISION",
        NamePart::Epoch => b"PORTEPOCH",
        NamePart::Origin | NamePart::Flavor | NamePart::Portname => b"PORTNAME",
    }
}

/// The refusal of a part of the name.
fn bad_value(alloc: Global, part: NamePart) -> DescError
    ensures { result ≢ DescError.NoMemory → result ≡ DescError.BadValue (naming.variable_of part) }
{
    match Text::literal(alloc, variable_of(part)) {
        Ok(name) => DescError::BadValue { name },
        Err(_) => DescError::NoMemory,
    }
}

/// The name that parts make.
fn named(alloc: Global, parts: &NameParts) -> Result<Text, DescError>
    ensures ok { IfOk result (λ name. naming.named parts.now ≡ Ok name) }
    ensures form { IfOk result IsPackageName }
    ensures refused { IfErr result (λ e. e ≢ DescError.NoMemory → naming.named parts.now ≡ Err e) }
{
    match pkgname(alloc, parts) {
        Ok(name) => Ok(name),
        Err(NameError::BadName { which }) => Err(bad_value(alloc, which)),
        Err(NameError::NoMemory) => Err(DescError::NoMemory),
    }
}

/// The name of the package of a port that sets what it has to.
fn named_for(alloc: Global, vars: &Vars, flavor: Option<&Text>) -> Result<Text, DescError>
    ensures ok { IfOk result (λ name. naming.named (naming.parts_for (map.get vars.now) (option_copied flavor.entry)) ≡ Ok name) }
    ensures form { IfOk result IsPackageName }
    ensures refused { IfErr result (λ e. e ≢ DescError.NoMemory → naming.named (naming.parts_for (map.get vars.now) (option_copied flavor.entry)) ≡ Err e) }
{
    let parts = parts_for(alloc, vars, flavor)?;
    named(alloc, &parts)
}

/// The name of the package.
pub(crate) fn name_for(alloc: Global, vars: &Vars, flavor: Option<&Text>) -> Result<Text, DescError>
    ensures ok { IfOk result (λ name. naming.name_for (map.get vars.now) (option_copied flavor.entry) ≡ Ok name) }
    ensures form { IfOk result IsPackageName }
    ensures refused { IfErr result (λ e. e ≢ DescError.NoMemory → naming.name_for (map.get vars.now) (option_copied flavor.entry) ≡ Err e) }
{
    if let Some(name) = missing(alloc, vars)? {
        return Err(DescError::Missing { name });
    }
    named_for(alloc, vars, flavor)
}
