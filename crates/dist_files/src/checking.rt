// A file against what a port's list states of it.
ghost use Rattle.std.specs.Prelude.{◌≡◌};
ghost use Rattle.bulk_model.specs.Digests as digests;
ghost use Rattle.dist_files.specs.Checked.{checked};

use crate::dist::Dist;
use crate::fault::DistWhy;
use bulk_model::Digest;
use sha2::{Digest as _, Sha256};

fn digest_of(bytes: &[u8]) -> Digest
    ensures { result ≡ digests.digest_of bytes.now }
{
    Digest {
        bytes: Sha256::digest(bytes),
    }
}

/// Whether bytes are the file that a port's list states (Porter's Handbook, "distinfo"; FIPS 180-4 for SHA-256).
///
/// Size exactly where they are not as many as stated, else Digest exactly where their SHA-256 is another than stated, each
/// with what was stated and what was found; Absent never. One pass over the bytes; takes no memory.
pub fn check(dist: &Dist, bytes: &[u8]) -> Result<(), DistWhy>
    ensures { result ≡ checked dist.now bytes.now }
{
    let found = bytes.len() as u64;
    if found != dist.size {
        return Err(DistWhy::Size {
            stated: dist.size,
            found,
        });
    }
    let found = digest_of(bytes);
    if found != dist.sha256 {
        return Err(DistWhy::Digest {
            stated: dist.sha256,
            found,
        });
    }
    Ok(())
}
