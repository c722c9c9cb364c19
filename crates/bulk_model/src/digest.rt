// The digest of a record or of a recipe.
ghost use Rattle.std.specs.Prelude.{◌≡◌, ◌↔◌, false, IfOk, IfSome, IsNone};
ghost use Rattle.std.specs.List.{list_all};
ghost use Rattle.hex.specs.Hex.{encode_lower};
ghost use Rattle.bulk_model.specs.Digests as digests;

use bulk_base::{NoMemory, Sequence, Text};
use std::alloc::Global;

/// SHA-256 of some bytes (FIPS 180-4), or 32 zero bytes where there are none to take it of.
#[derive(Clone, Copy, Debug, PartialEq, Eq, PartialOrd, Ord)]
pub struct Digest {
    /// The 32 bytes.
    pub bytes: [u8; 32],
}

/// A digest for each node that has one.
pub type MaybeDigests = Sequence<Option<Digest>>;

/// The digest of the recipe of each node of a tree of which it was asked and that can be built.
#[derive(Debug, Drop)]
pub struct Recipes {
    /// One place per node of the index.
    pub digests: MaybeDigests,
}

fn is_hex_byte(byte: u8) -> bool
    ensures { result ≡ digests.is_hex_byte byte }
{
    byte.is_ascii_digit() || (b'a' <= byte && byte <= b'f')
}

fn has_only_hex_bytes(text: &[u8]) -> bool
    ensures { result ≡ list_all digests.is_hex_byte text.now }
{
    text.iter().all(|byte| is_hex_byte(*byte))
}

fn is_digest(text: &[u8]) -> bool
    ensures { result ≡ digests.is_digest text.now }
{
    text.len() == 64 && has_only_hex_bytes(text)
}

fn digits_of(alloc: Global, bytes: &[u8]) -> Result<Text, NoMemory>
    ensures { IfOk result (λ text. text ≡ encode_lower bytes.now) }
{
    let digits = hex::encode(alloc, bytes)?;
    Text::of(alloc, digits.as_str().as_bytes())
}

impl Digest {
    /// No digest: 32 zero bytes, where no package fits.
    pub fn none() -> Digest
        ensures { result ≡ digests.no_digest }
    {
        Digest { bytes: [0; 32] }
    }

    /// The text of a digest: 64 lower-case hexadecimal digits. NoMemory for want of memory alone.
    pub fn hex(&self, alloc: Global) -> Result<Text, NoMemory>
        ensures { IfOk result (λ text. text ≡ digests.hex self.now) }
    {
        digits_of(alloc, self.bytes.as_slice())
    }

    /// The digest of which this is the text; None exactly where it is not 64 lower-case hexadecimal digits. Takes no
    /// memory.
    pub fn from_hex(text: &[u8]) -> Option<Digest>
        ensures some { IfSome result (λ digest. digests.hex digest ≡ text.now) }
        ensures none { IsNone result ↔ (digests.is_digest text.now ≡ false) }
    {
        if !is_digest(text) {
            return None;
        }
        let mut bytes = [0; 32];
        match hex::decode_to_slice(text, &mut bytes) {
            Ok(()) => Some(Digest { bytes }),
            Err(_) => None,
        }
    }
}
