// The queue beside a plain scanning body.
use crate::scan::Scan;
use bucket_queue::{Queue, dry_order};
use bulk_base::NoMemory;
use bulk_model::{Kept, Plan};
use case_plans::{Marks, kept_of, mixed, next_number, plan_with};
use case_text::{CaseError, number_of, push_number, push_str};
use std::alloc::Global;

/// A queue and a scanning body of the same plan, and how they agreed so far.
#[derive(Drop)]
struct Both {
    queue: Queue,
    scan: Scan,
    nexts: u64,
    agree: bool,
}

impl Both {
    fn new(alloc: Global, plan: &Plan, kept: &Kept) -> Result<Both, NoMemory> {
        let scan = Scan::new(alloc, plan, kept)?;
        Ok(Both {
            queue: Queue::new(alloc, plan, kept)?,
            scan,
            nexts: 0,
            agree: true,
        })
    }

    /// The next node of both, if they agree.
    fn next(&mut self, plan: &Plan) -> Option<u32> {
        let next = self.queue.next();
        let other = self.scan.next(plan);
        self.agree = self.agree && next.map(|n| n as usize) == other;
        self.agree = self.agree && self.queue.over() == self.scan.over(plan);
        if next.is_some() {
            self.nexts = self.nexts.wrapping_add(1);
        }
        next
    }

    fn end(&mut self, n: u32, well: bool) {
        let ended = if well {
            self.queue.done(n)
        } else {
            self.queue.bad(n)
        };
        let other = self.scan.end(n as usize, well);
        self.agree = self.agree && ended == other;
    }
}

fn agreement(both: &Both) -> &'static str {
    if both.agree {
        "as the scan"
    } else {
        "unlike the scan"
    }
}

fn push_agreement(alloc: Global, both: &Both, out: &mut Vec<u8>) -> Result<(), NoMemory> {
    push_number(alloc, out, both.nexts)?;
    push_str(out, " taken; ")?;
    push_str(out, agreement(both))
}

fn is_well(marks: &[Marks], n: u32) -> bool {
    match marks.get(n as usize) {
        Some(mark) => !mark.fails,
        None => true,
    }
}

fn push_order(alloc: Global, plan: &Plan, kept: &Kept, out: &mut Vec<u8>) -> Result<(), NoMemory> {
    push_str(out, "; dry")?;
    for n in dry_order(alloc, plan, kept)?.as_slice() {
        push_str(out, " ")?;
        push_number(alloc, out, u64::from(*n))?;
    }
    Ok(())
}

/// Takes each node in turn, and ends it at once.
fn take_turns(
    alloc: Global,
    plan: &Plan,
    marks: &[Marks],
    both: &mut Both,
    out: &mut Vec<u8>,
) -> Result<(), NoMemory> {
    for _ in 0..plan.jobs.len() {
        if let Some(n) = both.next(plan) {
            push_number(alloc, out, u64::from(n))?;
            push_str(out, " ")?;
            both.end(n, is_well(marks, n));
        }
    }
    push_agreement(alloc, both, out)
}

/// The nodes that the queue of a plan gives, each beside the scanning body, and the order of a dry run.
pub(crate) fn push_turns(
    alloc: Global,
    plan: &Plan,
    kept: &Kept,
    marks: &[Marks],
    out: &mut Vec<u8>,
) -> Result<(), CaseError> {
    let mut both = Both::new(alloc, plan, kept)?;
    take_turns(alloc, plan, marks, &mut both, out)?;
    Ok(push_order(alloc, plan, kept, out)?)
}

/// Takes nodes and ends some that are taken, and some that are not, as the seed says.
fn mix(
    plan: &Plan,
    marks: &[Marks],
    seed: &mut u64,
    both: &mut Both,
    taken: &mut Vec<u32>,
) -> Result<(), NoMemory> {
    for _ in 0..4 * plan.jobs.len().min(100_000) {
        let number = next_number(seed);
        if number % 3 == 0 {
            if let Some(n) = both.next(plan) {
                taken.push(n)?;
            }
        } else if number % 7 == 0 {
            both.end((next_number(seed) % 512) as u32, true);
        } else if let Some(n) = taken.pop() {
            both.end(n, is_well(marks, n));
        }
    }
    Ok(())
}

/// Ends what is taken, then takes and ends what is left. Answers whether the queue is over then.
fn drain(plan: &Plan, marks: &[Marks], taken: &[u32], both: &mut Both) -> bool {
    for n in taken {
        both.end(*n, is_well(marks, *n));
    }
    for _ in 0..plan.jobs.len() {
        if let Some(n) = both.next(plan) {
            both.end(n, is_well(marks, n));
        }
    }
    both.queue.over()
}

fn push_ends(
    plan: &Plan,
    marks: &[Marks],
    seed: &mut u64,
    alloc: Global,
    both: &mut Both,
    out: &mut Vec<u8>,
) -> Result<(), NoMemory> {
    let mut taken = Vec::new(alloc);
    mix(plan, marks, seed, both, &mut taken)?;
    let over = drain(plan, marks, taken.as_slice(), both);
    push_str(out, agreement(both))?;
    push_str(out, if over { "; over" } else { "; not over" })?;
    let many = both.nexts >= plan.jobs.len() as u64 / 4;
    push_str(out, if many { "; many taken" } else { "; few taken" })
}

fn push_mix(
    alloc: Global,
    plan: &Plan,
    marks: &[Marks],
    seed: &mut u64,
    out: &mut Vec<u8>,
) -> Result<(), NoMemory> {
    let kept = kept_of(alloc, plan, marks)?;
    let mut both = Both::new(alloc, plan, &kept)?;
    push_ends(plan, marks, seed, alloc, &mut both, out)
}

/// Many nodes with mixed ends: whether each was taken as by the scanning body, whether the queue is over in the end, and
/// whether a quarter at least was taken.
pub(crate) fn answer_mix(
    alloc: Global,
    count: &str,
    seed: &str,
    out: &mut Vec<u8>,
) -> Result<(), CaseError> {
    let count = number_of(count)?.min(10_000) as u32;
    let mut seed = number_of(seed)?;
    let (edges, marks) = mixed(alloc, count, &mut seed)?;
    let plan = plan_with(alloc, edges, marks.as_slice())?;
    Ok(push_mix(alloc, &plan, marks.as_slice(), &mut seed, out)?)
}
