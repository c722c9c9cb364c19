// Names in their order that are also looked up.
ghost use Rattle.std.specs.Prelude.{◌≡◌, length, IfOk};
ghost use Rattle.port_name.specs.Sets.{is_among};

use bulk_base::{NoMemory, Text, Texts, copies};
use port_name::Names;
use std::alloc::Global;
use std::marker::Model;

/// Names and the set of them. Contracts see the list.
#[derive(Drop)]
pub(crate) struct Listed {
    names: Texts,
    set: Names,
}

impl Model for Listed {
    ghost use Rattle.std.specs.Prelude.{◌≡◌, List, ℕ};
    ghost use Rattle.port_name.specs.Sets.{is_among};

    ghost Value = { List (List ℕ) };

    ghost view = { λ l. l.names };

    ghost invariant = { λ l. (name : List ℕ) → is_among l.set name ≡ is_among l.names name };
}

impl Listed {
    pub(crate) fn new(alloc: Global, names: Texts) -> Result<Listed, NoMemory>
        ensures { IfOk result (λ listed. listed ≡ names) }
    {
        let set = Names::new(alloc, copies(alloc, names.as_slice())?)?;
        Ok(Listed { names, set })
    }

    /// Whether a name is in the list. O(log n) comparisons.
    pub(crate) fn holds(&self, name: &Text) -> bool
        ensures { result ≡ is_among self.now name.now }
    {
        self.set.holds(name)
    }

    pub(crate) fn names(&self) -> &Texts
        ensures { result.now ≡ self.now }
    {
        &self.names
    }

    pub(crate) fn as_slice(&self) -> &[Text]
        ensures { result.now ≡ self.now }
    {
        self.names.as_slice()
    }
}
