// The versions of a package's record.

/// Which version of the record's lines is meant (docs/FORMATS.md, "The package record").
#[derive(Clone, Copy, Debug, PartialEq, Eq)]
pub enum Version {
    /// Of before: it tells neither the recipe nor the digests of the dependencies' records.
    One,
    /// What is written.
    Two,
}
