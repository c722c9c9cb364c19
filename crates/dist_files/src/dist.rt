// What a port's list says of a file.
use bulk_base::{Path, Sequence};
use bulk_model::Digest;

/// A file that a port builds from, as its list states it (Porter's Handbook, "distinfo").
#[derive(Debug, Drop)]
pub struct Dist {
    /// The file's path below the folder of all distfiles; it has at most 1,014 bytes.
    pub file: Path,
    /// SHA-256 of the file.
    pub sha256: Digest,
    /// How many bytes the file has.
    pub size: u64,
}

/// A list of such files.
pub type Dists = Sequence<Dist>;
