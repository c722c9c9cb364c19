// SHA-256, by which records are signed.
use case_text::{CaseError, bytes_of, push_str};
use sha2::{Digest, Sha256};
use std::alloc::Global;

/// The digest of bytes, as digits.
pub(crate) fn answer_digest(
    alloc: Global,
    field: &str,
    out: &mut Vec<u8>,
) -> Result<(), CaseError> {
    let bytes = bytes_of(alloc, field)?;
    let digest = hex::encode(alloc, Sha256::digest(bytes.as_slice()))?;
    push_str(out, digest.as_str())?;
    Ok(())
}
