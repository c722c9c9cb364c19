// Texts that came before.
ghost use Rattle.std.specs.Prelude.{◌≡◌, ◌++◌, ◌∷◌, [], ℕ, List, OnOk};
ghost use Rattle.port_name.specs.Sets.{is_among};

use bulk_base::{NoMemory, Text};
use std::alloc::Global;
use std::collections::BTreeSet;
use std::marker::Model;

/// A set of texts, seen by contracts as the list of them in byte order.
#[derive(Drop)]
pub(crate) struct Seen {
    texts: BTreeSet<Text>,
}

impl Model for Seen {
    ghost use Rattle.std.specs.Prelude.{List, ℕ};

    ghost Value = { List (List ℕ) };

    ghost view = { λ s. s.texts.keys };
}

impl Seen {
    /// A set without texts; takes no memory.
    pub(crate) fn new(alloc: Global) -> Seen
        ensures { result ≡ [] }
    {
        Seen {
            texts: BTreeSet::new(alloc),
        }
    }

    /// Whether a text is in the set. O(log n) comparisons.
    pub(crate) fn has(&self, text: &Text) -> bool
        ensures { result ≡ is_among self.now text.now }
    {
        self.texts.contains(text)
    }

    /// Puts a text into the set. O(log n) comparisons.
    pub(crate) fn add(&mut self, text: Text) -> Result<(), NoMemory>
        ensures { OnOk result ((other : List ℕ) → is_among self.new other ≡ is_among (self.old ++ text ∷ []) other) }
    {
        self.texts.insert(text)?;
        Ok(())
    }
}
