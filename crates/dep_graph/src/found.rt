// Nodes as they are found, each once.
ghost use Rattle.std.specs.Prelude.{◌≡◌, ◌<◌, ◌≤◌, ◌^◌, [], length, filter, slice_get, IfOk, IfSome, OnOk};
ghost use Rattle.std.specs.Option.{option_copied};
ghost use Rattle.std.specs.List.{All, range_with_len};
ghost use Rattle.dep_graph.specs.Graphs.{has};
ghost use Rattle.dep_graph.specs.Found.{with_node, with_nodes, unmarked};

use bulk_base::{NoMemory, Sequence};
use bulk_model::Numbers;
use std::alloc::Global;
use std::marker::Model;

/// Nodes in the order in which they were found, each once, and a mark at each.
#[derive(Drop)]
pub(crate) struct Found {
    marks: Vec<bool>,
    nodes: Vec<u32>,
}

impl Model for Found {
    ghost use Rattle.std.specs.Prelude.{length};
    ghost use Rattle.dep_graph.specs.Found.{FoundView, IsFound};

    ghost Value = { FoundView };

    ghost view = { λ f. record { count = length f.marks.items; nodes = f.nodes.items } };

    ghost invariant = { λ f. IsFound f.marks.items f.nodes.items };
}

/// Takes the marks at some nodes away.
fn unmark(marks: &mut Vec<bool>, nodes: &[u32])
    requires { All (λ n. n < length marks.old.items) nodes.now }
    ensures { marks.new.items ≡ unmarked marks.old.items nodes.now }
{
    for n in nodes {
        marks[*n as usize] = false;
    }
}

impl Found {
    /// None of so many nodes.
    pub(crate) fn new(alloc: Global, count: usize) -> Result<Found, NoMemory>
        ensures { IfOk result (λ f. f ≡ record { count = count; nodes = [] }) }
    {
        Ok(Found {
            marks: vec![in alloc; false; count]?,
            nodes: Vec::new(alloc),
        })
    }

    /// These of so many nodes.
    pub(crate) fn of(alloc: Global, count: usize, nodes: &[u32]) -> Result<Found, NoMemory>
        requires { All (λ n. n < count) nodes.now }
        ensures { IfOk result (λ f. f ≡ record { count = count; nodes = with_nodes [] nodes.now }) }
    {
        let mut found = Found::new(alloc, count)?;
        for n in nodes {
            found.add(*n)?;
        }
        Ok(found)
    }

    /// Adds a node that was not found before.
    pub(crate) fn add(&mut self, n: u32) -> Result<(), NoMemory>
        requires { n < self.old.count }
        ensures nodes { OnOk result (self.new ≡ record { count = self.old.count; nodes = with_node self.old.nodes n }) }
        ensures count { self.new.count ≡ self.old.count }
    {
        if !self.marks[n as usize] {
            self.nodes.push(n)?;
            self.marks[n as usize] = true;
        }
        Ok(())
    }

    /// The node that was found at a place, from 0; None past the last.
    pub(crate) fn get(&self, at: usize) -> Option<u32>
        ensures node { result ≡ slice_get self.now.nodes at }
        ensures below { IfSome result (λ n. n < self.now.count) }
        ensures few { length self.now.nodes ≤ self.now.count }
    {
        self.nodes.get(at).copied()
    }

    /// The nodes that were found, ascending. One pass over the marks.
    pub(crate) fn ascending(&self, alloc: Global) -> Result<Numbers, NoMemory>
        requires { self.now.count < 2 ^ 32 }
        ensures { IfOk result (λ numbers. numbers ≡ filter (has self.now.nodes) (range_with_len 0 self.now.count)) }
    {
        let mut numbers = Sequence::new(alloc);
        for n in 0..self.marks.len() {
            if self.marks[n] {
                numbers.push(n as u32)?;
            }
        }
        Ok(numbers)
    }

    /// The same by a sort, without a pass over the marks: as many steps as nodes were found, times the logarithm of their
    /// number.
    pub(crate) fn sorted(&self, alloc: Global) -> Result<Numbers, NoMemory>
        ensures { IfOk result (λ numbers.
            numbers ≡ filter (has self.now.nodes) (range_with_len 0 self.now.count)) }
    {
        let mut nodes = Vec::from_slice(alloc, self.nodes.as_slice())?;
        nodes.sort_unstable();
        Ok(Sequence::from_vec(nodes))
    }

    /// Forgets the nodes that were found. As many steps as there are of them.
    pub(crate) fn clear(&mut self)
        ensures { self.new ≡ record { count = self.old.count; nodes = [] } }
    {
        unmark(&mut self.marks, self.nodes.as_slice());
        self.nodes.clear();
    }
}
