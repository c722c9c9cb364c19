// The name of a port's package.
ghost use Rattle.std.specs.Prelude.{◌≡◌, ◌≢◌, ◌↔◌, ◌+◌, ◌++◌, ◌∷◌, [], length, true, Some, None, IfOk, IfErr, OnOk, IsErrOf};
ghost use Rattle.std.specs.Option.{option_map_or};
ghost use Rattle.bulk_base.specs.Names.{IsPackageName};
ghost use Rattle.port_name.specs.Package as parts_of;
ghost use Rattle.port_name.specs.Package.{shown, name_of, first_fault};

use crate::fault::{NameError, NamePart};
use crate::form::{is_affix, is_counter, is_port_name, is_version};
use bulk_base::{NoMemory, Text};
use std::alloc::Global;

/// What a package's name is made of (Porter's Handbook, "Naming").
#[derive(Debug, Drop)]
pub struct NameParts {
    /// PKGNAMEPREFIX: at most 64 bytes that names of ports are made of.
    pub prefix: Text,
    /// PORTNAME: as the name of a port in an origin.
    pub portname: Text,
    /// PKGNAMESUFFIX: as the prefix.
    pub suffix: Text,
    /// PORTVERSION: 1 to 64 letters, digits, `.` and `+`.
    pub version: Text,
    /// PORTREVISION: `0`, or 1 to 9 digits without a leading zero; None where it is not set.
    pub revision: Option<Text>,
    /// PORTEPOCH: as the revision.
    pub epoch: Option<Text>,
}

fn is_optional_counter(number: &Option<Text>) -> bool
    ensures { result ≡ parts_of.is_optional_counter number.now }
{
    match number {
        Some(text) => is_counter(text.bytes()),
        None => true,
    }
}

fn bad_part(parts: &NameParts) -> Option<NamePart>
    ensures { result ≡ parts_of.bad_part parts.now }
{
    if !is_affix(parts.prefix.bytes()) {
        Some(NamePart::Prefix)
    } else if !is_port_name(parts.portname.bytes()) {
        Some(NamePart::Portname)
    } else if !is_affix(parts.suffix.bytes()) {
        Some(NamePart::Suffix)
    } else if !is_version(parts.version.bytes()) {
        Some(NamePart::Version)
    } else if !is_optional_counter(&parts.revision) {
        Some(NamePart::Revision)
    } else if !is_optional_counter(&parts.epoch) {
        Some(NamePart::Epoch)
    } else {
        None
    }
}

/// How many bytes a revision or an epoch takes in the name, with its mark.
fn shown_length(number: &Option<Text>) -> usize
    ensures { result ≡ option_map_or (λ n. length n + 1) (shown number.now) 0 }
{
    match number {
        Some(text) if !text.is(b"0") => text.bytes().len() + 1,
        _ => 0,
    }
}

fn name_length(parts: &NameParts) -> usize
    requires { parts_of.bad_part parts.now ≡ None }
    ensures { result ≡ length (name_of parts.now) }
{
    parts.prefix.bytes().len()
        + parts.portname.bytes().len()
        + parts.suffix.bytes().len()
        + 1
        + parts.version.bytes().len()
        + shown_length(&parts.revision)
        + shown_length(&parts.epoch)
}

/// Puts a mark and a number at the end, where the name shows the number.
fn push_shown(bytes: &mut Vec<u8>, mark: u8, number: &Option<Text>) -> Result<(), NoMemory>
    ensures { OnOk result (bytes.new.items ≡ bytes.old.items ++ option_map_or (λ n. mark ∷ n) (shown number.now) []) }
{
    match number {
        Some(text) if !text.is(b"0") => {
            bytes.push(mark)?;
            bytes.extend_from_slice(text.bytes())?;
            Ok(())
        }
        _ => Ok(()),
    }
}

fn spelled(alloc: Global, parts: &NameParts) -> Result<Vec<u8>, NoMemory>
    ensures { IfOk result (λ bytes. bytes.items ≡ name_of parts.now) }
{
    let mut bytes = Vec::from_slice(alloc, parts.prefix.bytes())?;
    bytes.extend_from_slice(parts.portname.bytes())?;
    bytes.extend_from_slice(parts.suffix.bytes())?;
    bytes.push(b'-')?;
    bytes.extend_from_slice(parts.version.bytes())?;
    push_shown(&mut bytes, b'_', &parts.revision)?;
    push_shown(&mut bytes, b',', &parts.epoch)?;
    Ok(bytes)
}

fn name_in_form(alloc: Global, parts: &NameParts) -> Result<Text, NoMemory>
    requires { parts_of.bad_part parts.now ≡ None }
    ensures { IfOk result (λ name. name ≡ name_of parts.now) }
{
    let bytes = spelled(alloc, parts)?;
    Text::literal(alloc, bytes.as_slice())
}

/// The name of the package: prefix, PORTNAME and suffix, `-` and the version, then `_` and the revision where it is set and
/// not 0, then `,` and the epoch where it is set and not 0 (Porter's Handbook, "Naming").
///
/// BadName exactly where a part is outside its form, with the first such part in the order of the fields; where all are in
/// form, with Portname exactly where the name has more than 200 bytes. One pass over the parts.
pub fn pkgname(alloc: Global, parts: &NameParts) -> Result<Text, NameError>
    ensures name { IfOk result (λ name. name ≡ name_of parts.now) }
    ensures form { IfOk result IsPackageName }
    ensures good { OnOk result (first_fault parts.now ≡ None) }
    ensures bad_name { (which : NamePart) → IsErrOf result (NameError.BadName which) ↔ (first_fault parts.now ≡ Some which) }
{
    if let Some(which) = bad_part(parts) {
        return Err(NameError::BadName { which });
    }
    if name_length(parts) > 200 {
        return Err(NameError::BadName {
            which: NamePart::Portname,
        });
    }
    Ok(name_in_form(alloc, parts)?)
}
