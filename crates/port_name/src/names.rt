// Sets of names.
ghost use Rattle.std.specs.Prelude.{◌≡◌, ℕ, List, IfOk, OnOk};
ghost use Rattle.std.specs.Ordering.{nat_cmp};
ghost use Rattle.std.specs.Cmp.Lexicographic.{slice_cmp};
ghost use Rattle.std.specs.List.Sorted.{IsStrictlySortedBy};
ghost use Rattle.port_name.specs.Sets.{is_among};

use bulk_base::{NoMemory, Text, Texts};
use std::alloc::Global;
use std::collections::BTreeSet;
use std::marker::Model;

/// A set of names. Contracts see it as the list of its names in byte order, each once.
#[derive(Drop)]
pub struct Names {
    names: BTreeSet<Text>,
}

impl Model for Names {
    ghost use Rattle.std.specs.Prelude.{List, ℕ};

    ghost Value = { List (List ℕ) };

    ghost view = { λ n. n.names.keys };
}

impl Names {
    /// The set of some names, however often each of them comes. O(n log n) comparisons.
    pub fn new(alloc: Global, names: Texts) -> Result<Names, NoMemory>
        ensures same { IfOk result (λ set. (name : List ℕ) → is_among set name ≡ is_among names name) }
        ensures order { IfOk result (IsStrictlySortedBy (slice_cmp nat_cmp)) }
    {
        let mut set = BTreeSet::new(alloc);
        for name in names.into_vec() {
            set.insert(name)?;
        }
        Ok(Names { names: set })
    }

    /// Whether a name is in the set. O(log n) comparisons.
    pub fn holds(&self, name: &Text) -> bool
        ensures { result ≡ is_among self.now name.now }
    {
        self.names.contains(name)
    }
}
