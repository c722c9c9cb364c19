// The lines and pieces of a record, read at the front of its bytes.
ghost use Rattle.std.specs.Prelude.{◌≡◌, codes, length, IfOk, IfSome, IsTrue};
ghost use Rattle.std.specs.Option.{option_copied};
ghost use Rattle.bulk_base.specs.Names.{IsOrigin, IsPackageName};
ghost use Rattle.bulk_base.specs.Names as names;
ghost use Rattle.bulk_model.specs.Digests.{is_digest};
ghost use Rattle.pkg_record.specs.Reading.{Gives, said_at, piece_at, recipe_at};
ghost use Rattle.pkg_record.specs.Reading as reading;
ghost use Rattle.port_name.specs.Forms.{is_origin};
ghost use Rattle.port_name.specs.PackageForm.{is_package_name};
ghost use Rattle.pkg_record.specs.Said as said;

use crate::fault::{Fault, ReadError, misfit};
use crate::words::{behind, count_of, flavor_of, recipe_said, version_said};
use bulk_base::{NoMemory, Text, cut, place_or_end};
use bulk_model::{Digest, Version};
use port_name::{is_origin, is_package_name};
use std::alloc::Global;

/// The text of the first line and what follows the line.
pub(crate) fn line_at(bytes: &[u8]) -> Result<(&[u8], &[u8]), ReadError>
    ensures { Gives (λ x. (x.0.now, x.1.now)) result (reading.line_at bytes.now) }
{
    if place_or_end(bytes, b'\n') < bytes.len() {
        Ok(cut(bytes, b'\n'))
    } else {
        Err(ReadError::Found(Fault::Short))
    }
}

/// The line that begins a record and tells its version.
#[tactic(auto, unfolding(crate::specs::Reading::said_at))]
pub(crate) fn version_line(bytes: &[u8]) -> Result<(Version, &[u8]), ReadError>
    ensures { Gives (λ x. (x.0, x.1.now)) result (said_at said.version_said bytes.now) }
{
    let (text, after) = line_at(bytes)?;
    match version_said(text) {
        Some(version) => Ok((version, after)),
        None => Err(misfit(bytes)),
    }
}

#[tactic(auto, unfolding(crate::specs::Reading::said_at))]
fn told_recipe(bytes: &[u8]) -> Result<(Digest, &[u8]), ReadError>
    ensures { Gives (λ x. (x.0, x.1.now)) result (said_at said.recipe_said bytes.now) }
{
    let (text, after) = line_at(bytes)?;
    match recipe_said(text) {
        Some(recipe) => Ok((recipe, after)),
        None => Err(misfit(bytes)),
    }
}

/// The line with the digest of the recipe, which version 1 does not have.
#[tactic(auto, unfolding(crate::specs::Reading::recipe_at))]
pub(crate) fn recipe_line(version: Version, bytes: &[u8]) -> Result<(Digest, &[u8]), ReadError>
    ensures { Gives (λ x. (x.0, x.1.now)) result (recipe_at version bytes.now) }
{
    match version {
        Version::One => Ok((Digest::none(), bytes)),
        Version::Two => told_recipe(bytes),
    }
}

/// A line with a count.
#[tactic(auto, unfolding(crate::specs::Reading::said_at))]
pub(crate) fn count_line<'a>(heading: &[u8], bytes: &'a [u8]) -> Result<(u64, &'a [u8]), ReadError>
    ensures { Gives (λ x. (x.0, x.1.now)) result
        (said_at (said.count_behind heading.now) bytes.now) }
{
    let (text, after) = line_at(bytes)?;
    let Some(digits) = behind(heading, text) else {
        return Err(misfit(bytes));
    };
    match count_of(digits) {
        Some(count) => Ok((count, after)),
        None => Err(misfit(bytes)),
    }
}

/// The bytes of a file, behind which a line feed stands.
pub(crate) fn piece(size: u64, bytes: &[u8]) -> Result<(&[u8], &[u8]), ReadError>
    ensures { Gives (λ x. (x.0.now, x.1.now)) result (piece_at size bytes.now) }
{
    if size >= bytes.len() as u64 {
        return Err(ReadError::Found(Fault::Short));
    }
    let size = size as usize;
    if bytes[size] != b'\n' {
        return Err(misfit(bytes));
    }
    Ok((&bytes[..size], &bytes[size + 1..]))
}

/// The line with a package's name.
#[tactic(auto, unfolding(crate::specs::Reading::said_at))]
pub(crate) fn name_line(alloc: Global, bytes: &[u8]) -> Result<(Text, &[u8]), ReadError>
    ensures read { Gives (λ x. (x.0, x.1.now)) result
        (said_at (said.word_behind (codes "name ") is_package_name) bytes.now) }
    ensures form { IfOk result (λ x. IsPackageName x.0) }
{
    let (text, after) = line_at(bytes)?;
    let Some(name) = behind(b"name ", text) else {
        return Err(misfit(bytes));
    };
    if !is_package_name(name) {
        return Err(misfit(bytes));
    }
    Ok((Text::of(alloc, name)?, after))
}

/// The line with a port's origin.
#[tactic(auto, unfolding(crate::specs::Reading::said_at))]
pub(crate) fn origin_line(alloc: Global, bytes: &[u8]) -> Result<(Text, &[u8]), ReadError>
    ensures read { Gives (λ x. (x.0, x.1.now)) result
        (said_at (said.word_behind (codes "origin ") is_origin) bytes.now) }
    ensures form { IfOk result (λ x. IsOrigin x.0) }
{
    let (text, after) = line_at(bytes)?;
    let Some(origin) = behind(b"origin ", text) else {
        return Err(misfit(bytes));
    };
    if !is_origin(origin) {
        return Err(misfit(bytes));
    }
    Ok((Text::of(alloc, origin)?, after))
}

/// The line with the digest of all bytes before it.
#[tactic(auto, unfolding(crate::specs::Reading::said_at))]
pub(crate) fn digest_line(alloc: Global, bytes: &[u8]) -> Result<(Text, &[u8]), ReadError>
    ensures { Gives (λ x. (x.0, x.1.now)) result
        (said_at (said.word_behind (codes "sha256 ") is_digest) bytes.now) }
{
    let (text, after) = line_at(bytes)?;
    let Some(digest) = behind(b"sha256 ", text) else {
        return Err(misfit(bytes));
    };
    if Digest::from_hex(digest).is_none() {
        return Err(misfit(bytes));
    }
    Ok((Text::of(alloc, digest)?, after))
}

fn copied(alloc: Global, flavor: Option<&[u8]>) -> Result<Option<Text>, NoMemory>
    requires { IfSome (option_copied flavor) (λ f. IsTrue (names.is_flavor f)) }
    ensures { IfOk result (λ copy. copy ≡ option_copied flavor.entry) }
{
    match flavor {
        Some(flavor) => Ok(Some(Text::of(alloc, flavor)?)),
        None => Ok(None),
    }
}

/// The line with a flavor, or with `-` where there is none.
#[tactic(auto, unfolding(crate::specs::Reading::said_at))]
pub(crate) fn flavor_line(alloc: Global, bytes: &[u8]) -> Result<(Option<Text>, &[u8]), ReadError>
    ensures read { Gives (λ x. (x.0, x.1.now)) result (said_at said.flavor_said bytes.now) }
    ensures form { IfOk result (λ x. IfSome x.0 (λ f. IsTrue (names.is_flavor f))) }
{
    let (text, after) = line_at(bytes)?;
    let Some(word) = behind(b"flavor ", text) else {
        return Err(misfit(bytes));
    };
    match flavor_of(word) {
        Some(flavor) => Ok((copied(alloc, flavor)?, after)),
        None => Err(misfit(bytes)),
    }
}
