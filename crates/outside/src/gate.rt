// A place that a builder passes between its claim of a node and the node's build.
use std::hint;
use std::sync::atomic::{AtomicBool, AtomicU64, Ordering};

/// Called between a claim and its build, and changes nothing that a contract sees.
pub trait Gate {
    /// The builder with this number passes on its way to build the node with that number.
    fn pass(&self, builder: u32, node: u32);
}

/// A gate that is always open.
#[derive(Clone, Copy, Debug)]
pub struct OpenGate;

impl Gate for OpenGate {
    fn pass(&self, _builder: u32, _node: u32) {}
}

// What stands in `first` where no builder came yet; builders have 32 bits.
const NOBODY: u64 = u64::MAX;

/// A gate that holds the first builder that comes until a second one comes, for a number of turns at most, so that a
/// test sees two builders at work at once. No contract tells what it saw: it is for tests.
#[derive(Drop)]
pub struct MeetGate {
    limit: u64,
    first: AtomicU64,
    met: AtomicBool,
}

impl MeetGate {
    /// A gate to which no builder came yet, which holds the first for `limit` turns at most.
    pub fn new(limit: u64) -> MeetGate {
        MeetGate {
            limit,
            first: AtomicU64::new(NOBODY),
            met: AtomicBool::new(false),
        }
    }

    /// Whether two builders came.
    pub fn met(&self) -> bool {
        self.met.load(Ordering::SeqCst)
    }

    // Looks for the second builder, a number of times.
    fn wait(&self) {
        for _ in 0..self.limit {
            if self.met() {
                return;
            }
            hint::spin_loop();
        }
    }
}

impl Gate for MeetGate {
    fn pass(&self, builder: u32, _node: u32) {
        let own = u64::from(builder);
        match self
            .first
            .compare_exchange(NOBODY, own, Ordering::SeqCst, Ordering::SeqCst)
        {
            Ok(_) => self.wait(),
            Err(other) => {
                if other != own {
                    self.met.store(true, Ordering::SeqCst);
                }
            }
        }
    }
}
