// SHA-256 of bytes.
ghost use Rattle.std.specs.Prelude.{◌≡◌};
ghost use Rattle.bulk_model.specs.Digests as digests;

use bulk_model::Digest;
use sha2::{Digest as _, Sha256};

/// The digest of some bytes.
pub(crate) fn digest_of(bytes: &[u8]) -> Digest
    ensures { result ≡ digests.digest_of bytes.now }
{
    Digest {
        bytes: Sha256::digest(bytes),
    }
}
