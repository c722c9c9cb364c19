// Four seats at a desk, each in a thread of its own.
ghost use Rattle.std.specs.Prelude.{◌≡◌, ◌+◌, ◌<◌, length, slice_index_or, All};
ghost use Rattle.desk_cases.specs.Seating.{IsAbout, HasShares};
ghost use Rattle.store_desk.specs.Rule.{all_shares};

use crate::bringing::bring;
use crate::journals::is_in_order;
use bulk_base::{NoMemory, Sequence};
use bulk_model::{Flags, Kept, Plan, Shared};
use case_plans::{next_number, none_kept, plan_in};
use case_text::{CaseError, fails_of, number_of, push_number, push_str};
use outside::{MemStore, Untold};
use std::alloc::Global;
use std::collections::VecDeque;
use std::sync::Wait;
use std::thread;
use std::thread::Threads;
use store_desk::{Desk, DeskRefused, DeskSeat, Desked, Keep};

/// A seat, and the nodes whose packages it is still to bring.
struct Worker {
    seat: DeskSeat<Untold>,
    left: VecDeque<u32>,
}

/// Brings the packages that are left, the first first. One that is not saved is brought again, behind
/// all others.
fn work<R: Wait>(
    rt: &R,
    alloc: Global,
    desk: &Desk<MemStore, Untold>,
    plan: &Plan,
    kept: &Kept,
    worker: &mut Worker,
)
    requires about { IsAbout desk.now plan.now kept.now }
    requires seat { HasShares desk.now worker.old.seat.view.shares worker.old.seat }
    ensures seat { HasShares desk.now worker.old.seat.view.shares worker.new.seat }
{
    for _ in rt.forever() {
        let Some(n) = worker.left.pop_front() else {
            return;
        };
        match bring(rt, alloc, desk, plan, kept, &mut worker.seat, n) {
            Some(Keep::Saved) | None => (),
            Some(_) => {
                if worker.left.push_back(n).is_err() {
                    return;
                }
            }
        }
    }
    unreachable!()
}

/// Has each worker bring its packages, in a thread of its own.
fn work_all<R: Threads + Wait + Sync>(
    rt: &R,
    alloc: Global,
    desk: &Desk<MemStore, Untold>,
    plan: &Plan,
    kept: &Kept,
    crew: &mut [Worker],
)
    requires about { IsAbout desk.now plan.now kept.now }
    requires crew { All (λ w. HasShares desk.now w.seat.view.shares w.seat) crew.old }
    ensures { (i : _) (d : _) → i < length crew.old
        → HasShares desk.now (slice_index_or crew.old i d).seat.view.shares
        (slice_index_or crew.new i d).seat }
{
    let each = |_: usize, worker: &mut Worker|
        requires about { IsAbout desk.now plan.now kept.now }
        requires seat { HasShares desk.now worker.old.seat.view.shares worker.old.seat }
        ensures seat { HasShares desk.entry.now worker.old.seat.view.shares worker.new.seat }
    { work(rt, alloc, desk, plan, kept, worker) };
    thread::for_each_mut(rt, crew, 4, &each);
}

fn at_work(seat: DeskSeat<Untold>, left: VecDeque<u32>) -> Worker
    ensures { result.seat ≡ seat }
{
    Worker { seat, left }
}

/// The seats of two workers as one.
fn as_one(desk: &Desk<MemStore, Untold>, a: Worker, b: Worker) -> Worker
    requires a { HasShares desk.now a.seat.view.shares a.seat }
    requires b { HasShares desk.now b.seat.view.shares b.seat }
    ensures { HasShares desk.now (a.seat.view.shares + b.seat.view.shares) result.seat }
{
    let Worker { seat, left } = a;
    let Worker {
        seat: other,
        left: _,
    } = b;
    Worker {
        seat: desk.join(seat, other),
        left,
    }
}

/// What a desk is closed with to which four workers brought their packages.
fn crew_of<R: Threads + Wait + Sync>(
    rt: &R,
    alloc: Global,
    desk: Desk<MemStore, Untold>,
    seat: DeskSeat<Untold>,
    plan: &Plan,
    kept: &Kept,
    hands: [VecDeque<u32>; 4],
) -> Desked<MemStore>
    requires about { IsAbout desk plan.now kept.now }
    requires seat { HasShares desk all_shares seat }
{
    let (a, b) = desk.split(seat);
    let (a, c) = desk.split(a);
    let (a, d) = desk.split(a);
    let [of_a, of_b, of_c, of_d] = hands;
    let mut crew = [
        at_work(a, of_a),
        at_work(b, of_b),
        at_work(c, of_c),
        at_work(d, of_d),
    ];
    work_all(rt, alloc, &desk, plan, kept, crew.as_mut_slice());
    let [a, b, c, d] = crew;
    let first = as_one(&desk, a, b);
    let second = as_one(&desk, c, d);
    let Worker { seat, left: _ } = as_one(&desk, first, second);
    desk.close(seat)
}

/// The numbers of so many nodes, in the order of the numbers that a seed draws for them.
fn shuffled(alloc: Global, count: usize, seed: u64) -> Result<Vec<(u64, u32)>, NoMemory> {
    let mut seed = seed;
    let mut drawn = Vec::new(alloc);
    for n in 0..count.min(100_000) as u32 {
        drawn.push((next_number(&mut seed), n))?;
    }
    drawn.sort()?;
    Ok(drawn)
}

/// Each fourth of the nodes, from a turn on.
fn hand(alloc: Global, nodes: &[(u64, u32)], turn: usize) -> Result<VecDeque<u32>, NoMemory> {
    let mut left = VecDeque::new(alloc);
    for at in 0..nodes.len() {
        if at % 4 == turn {
            left.push_back(nodes[at].1)?;
        }
    }
    Ok(left)
}

/// Nodes dealt out to four workers.
fn deal(alloc: Global, nodes: &[(u64, u32)]) -> Result<[VecDeque<u32>; 4], NoMemory> {
    Ok([
        hand(alloc, nodes, 0)?,
        hand(alloc, nodes, 1)?,
        hand(alloc, nodes, 2)?,
        hand(alloc, nodes, 3)?,
    ])
}

fn marked(saved: &Flags) -> u64 {
    let mut count = 0u64;
    for n in 0..saved.len() {
        if saved.get(n) {
            count = count.wrapping_add(1);
        }
    }
    count
}

fn push_closed(
    alloc: Global,
    plan: &Plan,
    kept: &Kept,
    store: &MemStore,
    saved: &Flags,
    out: &mut Vec<u8>,
) -> Result<(), NoMemory> {
    let journal = store.journal();
    push_number(alloc, out, marked(saved))?;
    push_str(out, " saved; faults: ")?;
    push_number(alloc, out, store.faults())?;
    push_str(out, "; ")?;
    push_number(alloc, out, journal.len() as u64)?;
    push_str(out, " put, ")?;
    let ordered = is_in_order(alloc, plan, kept, journal)?;
    push_str(
        out,
        if ordered {
            "dependencies first"
        } else {
            "out of order"
        },
    )
}

/// Has four workers bring the packages of nodes to the desk of a plan with this store.
fn push_crew<R: Threads + Wait + Sync>(
    rt: &R,
    alloc: Global,
    store: MemStore,
    plan: &Shared<Plan>,
    kept: &Shared<Kept>,
    nodes: &[(u64, u32)],
    out: &mut Vec<u8>,
) -> Result<(), NoMemory> {
    let plan_there = plan.share()?;
    let kept_there = kept.share()?;
    let hands = deal(alloc, nodes)?;
    match Desk::<MemStore, Untold>::new(alloc, store, plan_there, kept_there) {
        Ok((desk, seat)) => {
            let Desked { store, saved } = crew_of(
                rt,
                alloc,
                desk,
                seat,
                plan.get(),
                kept.get(),
                hands,
            );
            push_closed(alloc, plan.get(), kept.get(), &store, &saved, out)
        }
        Err(DeskRefused { store: _ }) => push_str(out, "refused"),
    }
}

/// The same over a store of which the given calls fail.
fn push_over<R: Threads + Wait + Sync>(
    rt: &R,
    alloc: Global,
    plan: &Shared<Plan>,
    kept: &Shared<Kept>,
    nodes: &[(u64, u32)],
    fails: &str,
    out: &mut Vec<u8>,
) -> Result<(), CaseError> {
    let fails = fails_of(alloc, fails, "")?;
    let store = MemStore::new(alloc, Sequence::new(alloc), fails)?;
    Ok(push_crew(rt, alloc, store, plan, kept, nodes, out)?)
}

/// Four workers over a chain, a fan or groups of so many nodes, in an order that a seed gives, and over a
/// store of which the given calls fail: how many nodes are saved, and what was done to the store.
pub(crate) fn answer_crew<R: Threads + Wait + Sync>(
    rt: &R,
    alloc: Global,
    shape: &str,
    count: &str,
    seed: &str,
    fails: &str,
    out: &mut Vec<u8>,
) -> Result<(), CaseError> {
    let seed = number_of(seed)?;
    let plan = plan_in(alloc, shape, count)?;
    let nodes = shuffled(alloc, plan.jobs.len(), seed)?;
    let kept = Shared::new(alloc, none_kept(alloc, &plan)?)?;
    let plan = Shared::new(alloc, plan)?;
    push_over(rt, alloc, &plan, &kept, nodes.as_slice(), fails, out)
}
