// What the text of a line says, where it fits.
ghost use Rattle.std.specs.Prelude.{◌≡◌, codes, IsTrue, IfSome};
ghost use Rattle.std.specs.Char.{is_ascii_digit};
ghost use Rattle.std.specs.List.{list_all};
ghost use Rattle.std.specs.Option.{option_map, option_copied};
ghost use Rattle.bulk_base.specs.Names.{is_option_name};
ghost use Rattle.port_name.specs.Forms as forms;
ghost use Rattle.port_name.specs.PackageForm as package_form;
ghost use Rattle.pkg_record.specs.Laws.{IsDigest};
ghost use Rattle.pkg_record.specs.Noting.{recorded_of};
ghost use Rattle.pkg_record.specs.Said as said;

use bulk_base::cut;
use bulk_model::{DepKind, Digest, Version};
use port_name::{is_flavor, is_node, is_option_name, is_package_name};
use std::str;

/// What follows a heading.
pub(crate) fn behind<'a>(heading: &[u8], text: &'a [u8]) -> Option<&'a [u8]>
    ensures { option_copied result ≡ said.behind heading.now text.now }
{
    if text.starts_with(heading) {
        Some(&text[heading.len()..])
    } else {
        None
    }
}

/// The version that a record's first line tells.
pub(crate) fn version_said(text: &[u8]) -> Option<Version>
    ensures { result ≡ said.version_said text.now }
{
    if text == b"poudriere-package 1".as_slice() {
        Some(Version::One)
    } else if text == b"poudriere-package 2".as_slice() {
        Some(Version::Two)
    } else {
        None
    }
}

/// A digest, which has 32 bytes.
fn kept(digest: Digest) -> Digest
    ensures same { result ≡ digest }
    ensures form { IsDigest result }
{
    digest
}

/// The digest of which a word is the text.
fn digest_said(word: &[u8]) -> Option<Digest>
    ensures { result ≡ said.digest_said word.now }
{
    match Digest::from_hex(word) {
        Some(digest) => Some(kept(digest)),
        None => None,
    }
}

/// The digest that a recipe's line says.
pub(crate) fn recipe_said(text: &[u8]) -> Option<Digest>
    ensures { result ≡ said.recipe_said text.now }
{
    match behind(b"recipe ", text) {
        Some(word) => digest_said(word),
        None => None,
    }
}

/// The flavor that a word spells: none for `-`.
pub(crate) fn flavor_of(word: &[u8]) -> Option<Option<&[u8]>>
    ensures { option_map (λ flavor. option_copied flavor) result ≡ said.flavor_of word.now }
{
    if word == b"-".as_slice() {
        Some(None)
    } else if is_flavor(word) {
        Some(Some(word))
    } else {
        None
    }
}

fn has_digits(digits: &[u8]) -> bool
    ensures { result ≡ list_all is_ascii_digit digits.now }
{
    digits.iter().all(|b| b.is_ascii_digit())
}

fn is_numeral(digits: &[u8]) -> bool
    ensures { result ≡ said.is_numeral digits.now }
{
    has_digits(digits) && !digits.is_empty() && (digits.len() == 1 || digits[0] != b'0')
}

/// The number below 2^64 that decimal digits without a leading zero spell.
pub(crate) fn count_of(digits: &[u8]) -> Option<u64>
    ensures { result ≡ said.count_of digits.now }
{
    if !is_numeral(digits) {
        return None;
    }
    let Ok(text) = str::from_utf8(digits) else {
        return None;
    };
    text.parse().ok()
}

fn switch_of(word: &[u8]) -> Option<bool>
    ensures { result ≡ said.switch_of word.now }
{
    if word == b"on".as_slice() {
        Some(true)
    } else if word == b"off".as_slice() {
        Some(false)
    } else {
        None
    }
}

/// The kind of a dependency that a word names.
#[tactic(auto, unfolding(crate::specs::Said::kind_of))]
fn kind_of(word: &[u8]) -> Option<DepKind>
    ensures { result ≡ said.kind_of word.now }
{
    if word == b"pkg".as_slice() {
        Some(DepKind::Pkg)
    } else if word == b"fetch".as_slice() {
        Some(DepKind::Fetch)
    } else if word == b"extract".as_slice() {
        Some(DepKind::Extract)
    } else if word == b"patch".as_slice() {
        Some(DepKind::Patch)
    } else if word == b"build".as_slice() {
        Some(DepKind::Build)
    } else if word == b"lib".as_slice() {
        Some(DepKind::Lib)
    } else if word == b"run".as_slice() {
        Some(DepKind::Run)
    } else {
        None
    }
}

/// An option's name and whether it is on.
fn switch_in(words: &[u8]) -> Option<(&[u8], bool)>
    ensures read { option_map (λ x. said.switch x.0.now x.1) result ≡ said.switch_in words.now }
    ensures form { IfSome result (λ x. IsTrue (is_option_name x.0.now)) }
{
    let (name, word) = cut(words, b' ');
    match switch_of(word) {
        Some(on) if is_option_name(name) => Some((name, on)),
        _ => None,
    }
}

/// What an option's line says.
pub(crate) fn option_said(text: &[u8]) -> Option<(&[u8], bool)>
    ensures read { option_map (λ x. said.switch x.0.now x.1) result ≡ said.option_said text.now }
    ensures form { IfSome result (λ x. IsTrue (is_option_name x.0.now)) }
{
    match behind(b"option ", text) {
        Some(words) => switch_in(words),
        None => None,
    }
}

/// What a record tells of a dependency.
#[derive(Clone, Copy)]
pub(crate) struct Noted<'a> {
    pub(crate) kind: DepKind,
    pub(crate) node: &'a [u8],
    pub(crate) name: &'a [u8],
    pub(crate) digest: Digest,
}

/// A package's name and the digest of its record, which version 1 does not tell.
fn mark_in(version: Version, words: &[u8]) -> Option<(&[u8], Digest)>
    ensures { option_map (λ x. (x.0.now, x.1)) result ≡ said.mark_in version words.now }
{
    match version {
        Version::One => Some((words, Digest::none())),
        Version::Two => {
            let (name, word) = cut(words, b' ');
            match digest_said(word) {
                Some(digest) => Some((name, digest)),
                None => None,
            }
        }
    }
}

fn named_depend<'a>(
    version: Version,
    node: &'a [u8],
    words: &'a [u8],
    kind: DepKind,
) -> Option<Noted<'a>>
    ensures read { option_map recorded_of result
        ≡ said.named_depend version node.now words.now kind }
    ensures node { IfSome result (λ x. IsTrue (forms.is_node x.node.now)) }
    ensures name { IfSome result (λ x. IsTrue (package_form.is_package_name x.name.now)) }
{
    match mark_in(version, words) {
        Some((name, digest)) if is_node(node) && is_package_name(name) => Some(Noted {
            kind,
            node,
            name,
            digest,
        }),
        _ => None,
    }
}

/// A dependency's kind, its node and what is told of that node's package.
fn depend_in(version: Version, words: &[u8]) -> Option<Noted<'_>>
    ensures read { option_map recorded_of result ≡ said.depend_in version words.now }
    ensures node { IfSome result (λ x. IsTrue (forms.is_node x.node.now)) }
    ensures name { IfSome result (λ x. IsTrue (package_form.is_package_name x.name.now)) }
{
    let (word, rest) = cut(words, b' ');
    let (node, last) = cut(rest, b' ');
    match kind_of(word) {
        Some(kind) => named_depend(version, node, last, kind),
        None => None,
    }
}

/// What a dependency's line says.
pub(crate) fn depend_said(version: Version, text: &[u8]) -> Option<Noted<'_>>
    ensures read { option_map recorded_of result ≡ said.depend_said version text.now }
    ensures node { IfSome result (λ x. IsTrue (forms.is_node x.node.now)) }
    ensures name { IfSome result (λ x. IsTrue (package_form.is_package_name x.name.now)) }
{
    match behind(b"depend ", text) {
        Some(words) => depend_in(version, words),
        None => None,
    }
}

/// The length and the path that a file's line says.
pub(crate) fn file_said(text: &[u8]) -> Option<(u64, &[u8])>
    ensures { option_map (λ x. (x.0, x.1.now)) result ≡ said.file_said text.now }
{
    let Some(words) = behind(b"file ", text) else {
        return None;
    };
    let (digits, path) = cut(words, b' ');
    match count_of(digits) {
        Some(size) => Some((size, path)),
        None => None,
    }
}
