// A plain scanning body of the queue: it looks at every node at each turn.
use bulk_base::NoMemory;
use bulk_model::{Edges, Kept, Plan};
use std::alloc::Global;

/// How a node stands.
#[derive(Clone, Copy, Debug, PartialEq, Eq)]
enum Stand {
    Left,
    Free,
    Taken,
    There,
    Bad,
}

/// The nodes of a plan, each with its bucket and how it stands.
#[derive(Drop)]
pub(crate) struct Scan {
    buckets: Vec<u32>,
    stands: Vec<Stand>,
}

/// The longest chains of dependents of a graph whose edges go to lower nodes.
fn longest_above(alloc: Global, edges: &[Edges]) -> Result<Vec<u32>, NoMemory> {
    let mut longest: Vec<u32> = vec![in alloc; 0; edges.len()]?;
    for n in (0..edges.len()).rev() {
        let above = longest.get(n).copied().unwrap_or(0).saturating_add(1);
        for edge in edges[n].as_slice() {
            let to = edge.to as usize;
            if to < longest.len() {
                longest[to] = longest[to].max(above);
            }
        }
    }
    Ok(longest)
}

fn first_stand(plan: &Plan, kept: &Kept, n: usize) -> Stand {
    if n < kept.packages.len() && kept.packages.as_slice()[n].is_some() {
        Stand::There
    } else if n < plan.ignored.len() && plan.ignored.as_slice()[n].is_some() {
        Stand::Left
    } else {
        Stand::Free
    }
}

impl Scan {
    /// The nodes of a plan whose edges go to lower nodes, before any was taken.
    pub(crate) fn new(alloc: Global, plan: &Plan, kept: &Kept) -> Result<Scan, NoMemory> {
        let longest = longest_above(alloc, plan.edges.as_slice())?;
        let mut buckets = Vec::new(alloc);
        let mut stands = Vec::new(alloc);
        for n in 0..plan.jobs.len() {
            let above = longest.get(n).copied().unwrap_or(0);
            buckets.push(if plan.boosted.get(n) {
                10
            } else {
                above.min(9)
            })?;
            stands.push(first_stand(plan, kept, n))?;
        }
        Ok(Scan { buckets, stands })
    }

    fn stand(&self, n: usize) -> Stand {
        self.stands.get(n).copied().unwrap_or(Stand::Left)
    }

    fn is_ready(&self, plan: &Plan, n: usize) -> bool {
        self.stand(n) == Stand::Free
            && n < plan.edges.len()
            && plan.edges.as_slice()[n]
                .iter()
                .all(|edge| self.stand(edge.to as usize) == Stand::There)
    }

    fn bucket(&self, n: usize) -> u32 {
        self.buckets.get(n).copied().unwrap_or(0)
    }

    fn best(&self, plan: &Plan) -> Option<usize> {
        let mut best: Option<usize> = None;
        for n in 0..self.stands.len() {
            if self.is_ready(plan, n) {
                let higher = match best {
                    Some(other) => self.bucket(other) < self.bucket(n),
                    None => true,
                };
                if higher {
                    best = Some(n);
                }
            }
        }
        best
    }

    fn set(&mut self, n: usize, stand: Stand) {
        if n < self.stands.len() {
            self.stands[n] = stand;
        }
    }

    /// Takes the least ready node of the highest bucket.
    pub(crate) fn next(&mut self, plan: &Plan) -> Option<usize> {
        let best = self.best(plan)?;
        self.set(best, Stand::Taken);
        Some(best)
    }

    /// Ends a node. False where it is not taken.
    pub(crate) fn end(&mut self, n: usize, well: bool) -> bool {
        if self.stand(n) != Stand::Taken {
            return false;
        }
        self.set(n, if well { Stand::There } else { Stand::Bad });
        true
    }

    /// Whether none is ready or taken.
    pub(crate) fn over(&self, plan: &Plan) -> bool {
        self.best(plan).is_none() && !self.stands.iter().any(|stand| *stand == Stand::Taken)
    }
}
