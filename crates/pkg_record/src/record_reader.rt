// A package out of its record.
ghost use Rattle.std.specs.Prelude.{◌≡◌, ◌≢◌, List, ℕ, [], ◌++◌, IfOk, IfErr, OnOk, IsTrue, MatchResult};
ghost use Rattle.bulk_model.specs.declared.version.Version.{Version as AnyVersion};
ghost use Rattle.bulk_model.specs.Digests.{digest_of as digest_is, hex as hex_of, is_digest};
ghost use Rattle.bulk_model.specs.Facts.{IsPackage};
ghost use Rattle.bulk_model.specs.Spelling.{unsigned, signed_with, signed};
ghost use Rattle.bulk_model.specs.Views.{PackageView};
ghost use Rattle.pkg_record.specs.declared.fault.RecordError.TheVariants.{BadDigest};
ghost use Rattle.pkg_record.specs.Laws.{HasRecord, IsSpelled, IsForDigest, IsRefusedAs};
ghost use Rattle.pkg_record.specs.Reading.{Gives, unsigned_at, last_at, answer as answer_of, record_of};

use crate::answer::Record;
use crate::fault::{Fault, ReadError, RecordError, misfit};
use crate::hash::digest_of;
use crate::line_reader::{
    digest_line, flavor_line, name_line, origin_line, recipe_line, version_line,
};
use crate::list_reader::lists;
use bulk_base::{NoMemory, Text};
use bulk_model::{Package, Version};
use std::alloc::Global;

/// The version that the first line tells, and the package that the lines before the digest spell.
#[tactic(auto, unfolding(crate::specs::Reading::unsigned_at))]
fn unsigned(alloc: Global, bytes: &[u8]) -> Result<(Version, Package, &[u8]), ReadError>
    ensures { Gives (λ x. ((x.0, x.1), x.2.now)) result (unsigned_at bytes.now) }
{
    let (version, rest) = version_line(bytes)?;
    let (name, rest) = name_line(alloc, rest)?;
    let (origin, rest) = origin_line(alloc, rest)?;
    let (flavor, rest) = flavor_line(alloc, rest)?;
    let (recipe, rest) = recipe_line(version, rest)?;
    let (options, depends, files, rest) = lists(alloc, version, rest)?;
    let built = Package {
        name,
        origin,
        flavor,
        recipe,
        options,
        depends,
        files,
    };
    Ok((version, built, rest))
}

/// The digest that the record's last line states; nothing may stand behind the line.
fn last_line(alloc: Global, bytes: &[u8]) -> Result<Text, ReadError>
    ensures { Gives (λ stated. stated) result (last_at bytes.now) }
{
    let (stated, rest) = digest_line(alloc, bytes)?;
    if !rest.is_empty() {
        return Err(misfit(rest));
    }
    Ok(stated)
}

/// The text of SHA-256 of some bytes.
fn digest_text(alloc: Global, bytes: &[u8]) -> Result<Text, NoMemory>
    ensures { IfOk result (λ t. t ≡ hex_of (digest_is bytes.now)) }
{
    digest_of(bytes).hex(alloc)
}

/// Why bytes of this length are no record.
fn refusal(size: usize, error: ReadError) -> RecordError
    ensures { result ≡ Rattle.pkg_record.specs.Reading.refusal size error }
{
    match error {
        ReadError::Found(Fault::Short) => RecordError::Short,
        ReadError::Found(Fault::Misfit(left)) => RecordError::BadField {
            place: size.saturating_sub(left) as u64,
        },
        ReadError::Memory => RecordError::NoMemory,
    }
}

/// Reads what stands behind a package's lines: the line with the digest of all bytes before it.
fn verify(alloc: Global, bytes: &[u8], last: &[u8]) -> Result<(), RecordError>
    ensures ok { OnOk result ((version : AnyVersion) (p : PackageView)
        → unsigned_at bytes.now ≡ Ok ((version, p), last.now)
        → record_of bytes.now ≡ Ok (answer_of version p)) }
    ensures spelled { OnOk result ((version : AnyVersion) (p : PackageView) → IsPackage p
        → unsigned_at bytes.now ≡ Ok ((version, p), last.now)
        → IsSpelled bytes.now (answer_of version p)) }
    ensures err { IfErr result (λ e. e ≢ RecordError.NoMemory
        → (version : AnyVersion) (p : PackageView)
        → unsigned_at bytes.now ≡ Ok ((version, p), last.now)
        → record_of bytes.now ≡ Err e) }
    ensures digest { IfErr result (λ e. (version : AnyVersion) (p : PackageView) → IsPackage p
        → unsigned_at bytes.now ≡ Ok ((version, p), last.now)
        → IsForDigest bytes.now e) }
{
    let stated = match last_line(alloc, last) {
        Ok(stated) => stated,
        Err(error) => return Err(refusal(bytes.len(), error)),
    };
    let size = bytes.len().saturating_sub(last.len());
    let found = digest_text(alloc, &bytes[..size])?;
    if stated == found {
        Ok(())
    } else {
        Err(RecordError::BadDigest { stated, found })
    }
}

/// What is answered of a package's record: of one of version 1, the package's name alone.
fn answer(version: Version, built: Package) -> Record
    ensures { result ≡ answer_of version built }
{
    match version {
        Version::One => Record::Old { name: built.name },
        Version::Two => Record::New(built),
    }
}

fn judged(alloc: Global, bytes: &[u8]) -> Result<Record, RecordError>
    ensures ok { IfOk result (λ x. record_of bytes.now ≡ Ok x) }
    ensures spelled { IfOk result (λ x. IsSpelled bytes.now x) }
    ensures err { IfErr result (λ e. e ≢ RecordError.NoMemory → record_of bytes.now ≡ Err e) }
    ensures digest { IfErr result (λ e. IsForDigest bytes.now e) }
{
    match unsigned(alloc, bytes) {
        Ok((version, built, last)) => {
            verify(alloc, bytes, last)?;
            Ok(answer(version, built))
        }
        Err(error) => Err(refusal(bytes.len(), error)),
    }
}

/// What a record is, of version 2 or 1, as its first line tells (docs/FORMATS.md, "The package record"; SHA-256 by FIPS
/// 180-4): New of the package exactly on its record of version 2, Old of a name exactly on a record of version 1 of a
/// package with this name.
///
/// Short, BadField and BadDigest as `RecordError` says, the first fault from left to right; NoMemory for want of memory
/// alone. Each byte is looked at a fixed number of times; a path's folders are looked up among the files before it, in
/// O(log n) comparisons each. Besides the package, two digests are held.
pub fn read(alloc: Global, bytes: &[u8]) -> Result<Record, RecordError>
    // What is read is a package whose record the bytes are, or the name in a record of version 1.
    ensures spelled { IfOk result (λ x. IsSpelled bytes.now x) }
    // What a package's record is, is read as that package, or as its name, unless memory runs out.
    ensures only { (version : AnyVersion) (p : PackageView) → HasRecord version p
        → bytes.now ≡ signed version p
        → MatchResult result (λ x. x ≡ answer_of version p) (λ e. e ≡ RecordError.NoMemory) }
    // What is refused for its digest is a package's record but for that.
    ensures digest { IfErr result (λ e. IsForDigest bytes.now e) }
    // What is a package's record but for the 64 digits at its end is refused for them.
    ensures other_digest { (version : AnyVersion) (p : PackageView) (stated : List ℕ)
        → HasRecord version p → IsTrue (is_digest stated)
        → stated ≢ hex_of (digest_is (unsigned version p))
        → bytes.now ≡ signed_with version stated p
        → IsRefusedAs result (BadDigest stated (hex_of (digest_is (unsigned version p)))) }
    // What a record begins with and is not all of it, is Short, whichever digest the record states.
    ensures cut { (version : AnyVersion) (p : PackageView) (stated more : List ℕ)
        → HasRecord version p → IsTrue (is_digest stated)
        → signed_with version stated p ≡ bytes.now ++ more → more ≢ []
        → IsRefusedAs result RecordError.Short }
    ensures cut_record { (version : AnyVersion) (p : PackageView) (more : List ℕ)
        → HasRecord version p → signed version p ≡ bytes.now ++ more → more ≢ []
        → IsRefusedAs result RecordError.Short }
    // Which answer it is, from left to right.
    ensures ok { IfOk result (λ x. record_of bytes.now ≡ Ok x) }
    ensures err { IfErr result (λ e. e ≢ RecordError.NoMemory → record_of bytes.now ≡ Err e) }
{
    judged(alloc, bytes)
}
