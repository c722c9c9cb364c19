// A built port.
ghost use Rattle.std.specs.Prelude.{◌≡◌, ◌-◌, ◌^◌, min};
ghost use Rattle.bulk_model.specs.Weight.{weight_of};

use crate::depend::Recordeds;
use crate::digest::Digest;
use crate::shared::Shared;
use bulk_base::{Files, Sequence, Switches, Text};
use std::marker::Model;

/// What a build gives: the files of a port with what they were built as.
///
/// Contracts see the record of its fields. Of every package it holds what holds of a job, and its paths have at most
/// 1,018 bytes, so that `local/` can stand before them.
#[derive(Debug, Drop)]
pub struct Package {
    /// The package's name.
    pub name: Text,
    /// The port's origin.
    pub origin: Text,
    /// The flavor, where the port has flavors.
    pub flavor: Option<Text>,
    /// The digest of the recipe that it was built by.
    pub recipe: Digest,
    /// The state of each option that the port defines.
    pub options: Switches,
    /// What the node depended on, each with the record that it was built with.
    pub depends: Recordeds,
    /// The files.
    pub files: Files,
}

/// A list of packages, each with its holders.
pub type Packages = Sequence<Shared<Package>>;

impl Model for Package {
    ghost use Rattle.bulk_model.specs.Views.{PackageView};

    ghost Value = { PackageView };

    ghost use Rattle.bulk_model.specs.Facts.{IsPackage};

    ghost view = { λ p. record {
      name = p.name;
      origin = p.origin;
      flavor = p.flavor;
      recipe = p.recipe;
      options = p.options;
      depends = p.depends;
      files = p.files;
    } };

    ghost invariant = { λ p. IsPackage (record {
      name = p.name;
      origin = p.origin;
      flavor = p.flavor;
      recipe = p.recipe;
      options = p.options;
      depends = p.depends;
      files = p.files;
    }) };
}

/// The sum over a package's files of the length of the contents, the length of the path, and 16; the largest 64-bit
/// number where the sum is larger.
pub fn weight(built: &Package) -> u64
    ensures { result ≡ min (weight_of built.now.files) (2 ^ 64 - 1) }
{
    let mut sum: u64 = 0;
    for file in built.files.as_slice() {
        let bytes = file.bytes.len() as u64;
        let path = file.path.bytes().len() as u64;
        sum = sum
            .saturating_add(bytes)
            .saturating_add(path)
            .saturating_add(16);
    }
    sum
}
