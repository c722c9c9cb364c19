// A mark at each node, or none.
ghost use Rattle.std.specs.Prelude.{◌≡◌, ◌<◌, true, false, length, replicate, slice_set, IfOk};
ghost use Rattle.bulk_model.specs.Flags.{flag};

use bulk_base::NoMemory;
use std::alloc::Global;
use std::marker::Model;

/// A mark for each node of a plan, seen by contracts as the list of the marks.
#[derive(Debug, Drop)]
pub struct Flags {
    items: Vec<bool>,
}

impl Model for Flags {
    ghost use Rattle.std.specs.Prelude.{List, Bool};

    ghost Value = { List Bool };

    ghost view = { λ f. f.items.items };
}

impl Flags {
    /// No mark at any of so many nodes. NoMemory for want of memory alone.
    pub fn none(alloc: Global, count: usize) -> Result<Flags, NoMemory>
        ensures { IfOk result (λ flags. flags ≡ replicate count false) }
    {
        Ok(Flags {
            items: vec![in alloc; false; count]?,
        })
    }

    /// How many places there are.
    pub fn len(&self) -> usize
        ensures { result ≡ length self.now }
    {
        self.items.len()
    }

    /// Whether a node is marked; past the end none is.
    pub fn get(&self, n: usize) -> bool
        ensures { result ≡ flag self.now n }
    {
        n < self.items.len() && self.items[n]
    }

    /// Marks a node.
    pub fn set(&mut self, n: usize)
        requires { n < length self.old }
        ensures { self.new ≡ slice_set self.old n true }
    {
        self.items[n] = true;
    }
}
