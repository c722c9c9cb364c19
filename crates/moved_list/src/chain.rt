// The names that are followed, one after another.
ghost use Rattle.std.specs.Prelude.{◌≡◌, ◌≤◌, ◌==◌, ◌++◌, ◌∷◌, [], length, bytes_eq, IfOk};
ghost use Rattle.std.specs.List.{position_or_len};
ghost use Rattle.port_name.specs.Sets.{is_among};
ghost use Rattle.moved_list.specs.Walk.{from_first};

use bulk_base::{NoMemory, Sequence, Text, Texts, copies};
use std::alloc::Global;
use std::collections::BTreeSet;
use std::marker::Model;

/// Where a name leads by MOVED.
#[derive(Debug, Drop)]
pub enum Follow {
    /// The name itself is there.
    Here,
    /// The chain ends at this name, which is there.
    At(Text),
    /// The chain ends at a name that is not there and that no line has.
    Absent,
    /// The chain ends at a name that was removed.
    Gone {
        /// Why, as the name's last line says.
        reason: Text,
    },
    /// The chain comes back to a name.
    Circle {
        /// The names of the chain from that name's first coming on, in the order followed.
        origins: Texts,
    },
}

/// Where a chain goes from a name.
#[derive(Drop)]
pub(crate) enum Step {
    /// No further.
    End(Follow),
    /// To the next name.
    Next(Text),
}

/// The names of a chain, seen by contracts as the list of them in the order followed.
#[derive(Drop)]
pub(crate) struct Chain {
    names: Texts,
    set: BTreeSet<Text>,
}

impl Model for Chain {
    ghost use Rattle.std.specs.Prelude.{◌≡◌, List, ℕ};
    ghost use Rattle.port_name.specs.Sets.{is_among};

    ghost Value = { List (List ℕ) };

    ghost view = { λ c. c.names };

    ghost invariant = { λ c. (name : List ℕ) → is_among c.set.keys name ≡ is_among c.names name };
}

fn first_place(names: &[Text], name: &[u8]) -> usize
    ensures place { result ≡ position_or_len (λ n. bytes_eq n name.now) names.now }
    ensures within { result ≤ length names.now }
{
    names.iter().position(|n| n.is(name)).unwrap_or(names.len())
}

impl Chain {
    /// A chain without names; takes no memory.
    pub(crate) fn new(alloc: Global) -> Chain
        ensures { result ≡ [] }
    {
        Chain {
            names: Sequence::new(alloc),
            set: BTreeSet::new(alloc),
        }
    }

    pub(crate) fn is_empty(&self) -> bool
        ensures { result ≡ (length self.now == 0) }
    {
        self.names.len() == 0
    }

    /// Whether the chain has a name. O(log n) comparisons.
    pub(crate) fn has(&self, name: &Text) -> bool
        ensures { result ≡ is_among self.now name.now }
    {
        self.set.contains(name)
    }

    /// The names from the first coming of one on.
    pub(crate) fn from_first(&self, alloc: Global, name: &Text) -> Result<Texts, NoMemory>
        ensures { IfOk result (λ names. names ≡ from_first name.now self.now) }
    {
        let names = self.names.as_slice();
        copies(alloc, &names[first_place(names, name.bytes())..])
    }

    /// The chain with a name behind it.
    pub(crate) fn with(self, alloc: Global, name: Text) -> Result<Chain, NoMemory>
        ensures { IfOk result (λ longer. longer ≡ self ++ name ∷ []) }
    {
        let Chain { mut names, mut set } = self;
        set.insert(name.copy(alloc)?)?;
        names.push(name)?;
        Ok(Chain { names, set })
    }
}
