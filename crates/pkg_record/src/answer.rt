// What a record is.
use bulk_base::Text;
use bulk_model::Package;

/// What bytes are the record of.
#[derive(Debug, Drop)]
pub enum Record {
    /// Of version 2: the package.
    New(Package),
    /// Of version 1, which is no package: it tells neither the recipe nor the digests of the dependencies' records.
    Old {
        /// The name that the record tells.
        name: Text,
    },
}
