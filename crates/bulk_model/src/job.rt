// A port to be built.
use crate::depend::Depends;
use crate::steps::Steps;
use bulk_base::{Files, Sequence, Switches, Text};
use std::marker::Model;

/// All that decides a node's build besides the packages of its dependencies and the base root.
///
/// Contracts see the record of its fields. Of every job it holds that the names have their forms, options stand by
/// name, dependencies by kind and then node, and files by path, each once, none a folder of another.
#[derive(Debug, Drop)]
pub struct Job {
    /// The package's name.
    pub name: Text,
    /// The port's origin.
    pub origin: Text,
    /// The flavor, where the port has flavors.
    pub flavor: Option<Text>,
    /// The state of each option that the port defines.
    pub options: Switches,
    /// What the node depends on.
    pub depends: Depends,
    /// The commands that build it.
    pub steps: Steps,
    /// The port's files, which stand below `work/` when it is built.
    pub files: Files,
}

/// A list of jobs.
pub type Jobs = Sequence<Job>;

impl Model for Job {
    ghost use Rattle.bulk_model.specs.Views.{JobView};

    ghost Value = { JobView };

    ghost use Rattle.bulk_model.specs.Facts.{IsJob};

    ghost view = { λ j. record {
      name = j.name;
      origin = j.origin;
      flavor = j.flavor;
      options = j.options;
      depends = j.depends;
      steps = j.steps;
      files = j.files;
    } };

    ghost invariant = { λ j. IsJob (record {
      name = j.name;
      origin = j.origin;
      flavor = j.flavor;
      options = j.options;
      depends = j.depends;
      steps = j.steps;
      files = j.files;
    }) };
}
