// What a store was read as.
use bulk_base::Texts;
use bulk_model::Packages;
use std::marker::Model;

/// What a store was read as: its packages, and the files that are to go unread.
///
/// Contracts see the record of its fields. Of each it holds that the packages stand in the byte order of the names
/// of their files, so no two have one name; that the names of the other files ascend too; that no file is in two of
/// the lists; and that these have no more files than a store may have.
#[derive(Debug, Drop)]
pub struct Loaded {
    /// The packages, in the order of their files' names.
    pub packages: Packages,
    /// The names of the files that hold records of version 1, in byte order.
    pub old: Texts,
    /// The names of the package files that hold no record of their own name, in byte order.
    pub damaged: Texts,
}

impl Model for Loaded {
    ghost use Rattle.pkg_store.specs.Loaded.{LoadedView, IsLoaded};

    ghost Value = { LoadedView };

    ghost view = { λ l. record { packages = l.packages; old = l.old; damaged = l.damaged } };

    ghost invariant = { λ l. IsLoaded (record {
      packages = l.packages;
      old = l.old;
      damaged = l.damaged;
    }) };
}
