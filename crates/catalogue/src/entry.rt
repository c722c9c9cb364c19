// What the catalogue tells of a package.
ghost use Rattle.std.specs.Prelude.{◌≡◌, [], ◌++◌, length, map, unwrap_or, IfOk, OnOk};
ghost use Rattle.std.specs.String.{string_bytes};
ghost use Rattle.bulk_base.specs.Order.{in_order};
ghost use Rattle.bulk_model.specs.Digests as digests;
ghost use Rattle.bulk_model.specs.Lines.{line};
ghost use Rattle.serde_json.specs.Data.{boolean, number, string, array, object, unsigned, no_members, put as with_member};
ghost use Rattle.serde_json.specs.View.{view, items_of, members_view};
ghost use Rattle.serde_json.specs.Written.{compact_text, has_float};
ghost use Rattle.catalogue.specs.Catalogue as specs;

use bulk_base::{NoMemory, Sequence, Switch, Text, Texts, in_order};
use bulk_model::{Digest, Package, Recorded};
use serde_json::{Map, Value, put};
use sha2::{Digest as _, Sha256};
use std::alloc::Global;

/// The names of recorded dependencies, in their order.
fn names_of(alloc: Global, depends: &[Recorded]) -> Result<Texts, NoMemory>
    ensures { IfOk result (λ names. names ≡ map (λ depend. depend.name) depends.now) }
{
    let mut names = Sequence::new(alloc);
    for depend in depends {
        names.push(depend.name.copy(alloc)?)?;
    }
    Ok(names)
}

/// The packages that a package records, each once in byte order.
fn depend_names(alloc: Global, built: &Package) -> Result<Texts, NoMemory>
    ensures { IfOk result (λ names. names ≡ specs.depend_names built.now) }
{
    let names = names_of(alloc, built.depends.as_slice())?;
    in_order(alloc, names.as_slice())
}

/// Texts as values, in their order.
fn strings(alloc: Global, texts: &[Text]) -> Result<Vec<Value>, NoMemory>
    ensures { IfOk result (λ values. map view values.items ≡ map string texts.now) }
{
    let mut values = Vec::new(alloc);
    for text in texts {
        values.push(Value::try_from_str(alloc, text.as_str())?)?;
    }
    Ok(values)
}

/// The state of each option under its name.
fn switches(alloc: Global, options: &[Switch]) -> Result<Map<String, Value>, NoMemory>
    ensures { IfOk result (λ members.
        members_view members.entries ≡ specs.with_options options.now no_members) }
{
    let mut members = Map::new(alloc);
    for option in options {
        put(
            &mut members,
            alloc,
            option.name.as_str(),
            Value::Bool(option.on),
        )?;
    }
    Ok(members)
}

/// Puts a text under a key.
fn put_text(
    members: &mut Map<String, Value>,
    alloc: Global,
    key: &str,
    text: &str,
) -> Result<(), NoMemory>
    ensures { OnOk result (members_view members.new.entries
        ≡ with_member key.now (string text.now) (members_view members.old.entries)) }
{
    put(members, alloc, key, Value::try_from_str(alloc, text)?)
}

/// Puts a number under a key.
fn put_number(
    members: &mut Map<String, Value>,
    alloc: Global,
    key: &str,
    count: usize,
) -> Result<(), NoMemory>
    ensures { OnOk result (members_view members.new.entries
        ≡ with_member key.now (number (unsigned count)) (members_view members.old.entries)) }
{
    put(members, alloc, key, Value::from(count))
}

fn flavor_text(built: &Package) -> &str
    ensures { result.now ≡ unwrap_or built.now.flavor [] }
{
    match &built.flavor {
        Some(flavor) => flavor.as_str(),
        None => "",
    }
}

/// What is told of a package, with the packages that it records, its options, and the digest and
/// the size of its record.
fn entry_by(
    alloc: Global,
    built: &Package,
    depends: Vec<Value>,
    options: Map<String, Value>,
    sha256: &Text,
    size: usize,
) -> Result<Value, NoMemory>
    ensures { IfOk result (λ value. view value ≡ specs.entry_by built.now
        (items_of (map view depends.items)) (members_view options.entries) sha256.now size) }
{
    let mut members = Map::new(alloc);
    put(&mut members, alloc, "depends", Value::Array(depends))?;
    put_number(&mut members, alloc, "files", built.files.len())?;
    put_text(&mut members, alloc, "flavor", flavor_text(built))?;
    put_text(&mut members, alloc, "name", built.name.as_str())?;
    put(&mut members, alloc, "options", Value::Object(options))?;
    put_text(&mut members, alloc, "origin", built.origin.as_str())?;
    put_text(&mut members, alloc, "sha256", sha256.as_str())?;
    put_number(&mut members, alloc, "size", size)?;
    Ok(Value::Object(members))
}

/// The text of SHA-256 of some bytes (FIPS 180-4).
fn digest_text(alloc: Global, bytes: &[u8]) -> Result<Text, NoMemory>
    ensures { IfOk result (λ text. text ≡ digests.hex (digests.digest_of bytes.now)) }
{
    let digest = Digest {
        bytes: Sha256::digest(bytes),
    };
    digest.hex(alloc)
}

/// What is told of a package, with the digest and the size of its whole record.
fn entry(alloc: Global, built: &Package) -> Result<Value, NoMemory>
    ensures { IfOk result (λ value. view value ≡ specs.entry built.now) }
{
    let record = pkg_record::write(alloc, built)?;
    let sha256 = digest_text(alloc, record.as_slice())?;
    let names = depend_names(alloc, built)?;
    let depends = strings(alloc, names.as_slice())?;
    let options = switches(alloc, built.options.as_slice())?;
    let size = record.len();
    Ok(entry_by(alloc, built, depends, options, &sha256, size)?)
}

/// The text of what is told of a package.
fn entry_text(alloc: Global, built: &Package) -> Result<String, NoMemory>
    ensures { IfOk result (λ text. string_bytes text ≡ compact_text (specs.entry built.now)) }
{
    let value = entry(alloc, built)?;
    Ok(value.to_string(alloc)?)
}

/// The text of a package's line.
fn line_text(alloc: Global, built: &Package) -> Result<String, NoMemory>
    ensures { IfOk result (λ text. string_bytes text ≡ specs.entry_line built.now) }
{
    let mut text = entry_text(alloc, built)?;
    text.push('\n')?;
    Ok(text)
}

/// A package's line.
pub(crate) fn entry_line(alloc: Global, built: &Package) -> Result<Vec<u8>, NoMemory>
    ensures { IfOk result (λ bytes. bytes.items ≡ specs.entry_line built.now) }
{
    Ok(line_text(alloc, built)?.into_bytes())
}
