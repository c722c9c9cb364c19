// Four seats at a claim table, each in a thread of its own.
ghost use Rattle.std.specs.Prelude.{◌≡◌, ◌+◌, ◌<◌, length, slice_index_or, All};
ghost use Rattle.bulk_model.specs.Fit.{FitsKept};
ghost use Rattle.claim_table.specs.Rule.{all_shares};
ghost use Rattle.seat_cases.specs.Seating.{IsAbout, IsIdle};

use crate::looks::{end_claim, try_claim};
use bulk_base::NoMemory;
use bulk_model::{Kept, Outcome, Partial, Plan, Shared};
use case_plans::{fits_kept, none_kept, plan_in};
use case_text::{CaseError, push_number, push_str};
use claim_table::{Seat, Table};
use outside::Untold;
use std::alloc::Global;
use std::thread;
use std::thread::Threads;

/// A seat, and how many nodes it built.
struct Worker {
    seat: Seat,
    built: u64,
}

/// Builds a node, where it is ready and nobody has claimed it. Answers whether it was built.
fn build_at(
    alloc: Global,
    table: &Table<Untold>,
    plan: &Plan,
    kept: &Kept,
    seat: &mut Seat,
    n: u32,
) -> bool
    requires about { IsAbout table.now plan.now kept.now }
    requires seat { IsIdle table.now seat.old.view.shares seat.old }
    ensures seat { IsIdle table.now seat.old.view.shares seat.new }
{
    match try_claim(table, plan, kept, seat, n) {
        Ok(ticket) => end_claim(alloc, table, plan, seat, ticket, false),
        Err(_) => false,
    }
}

/// Goes over the nodes once. The last of all workers to end a dependency of a node comes to that node
/// afterwards, so all workers together leave no node out.
fn work(alloc: Global, table: &Table<Untold>, plan: &Plan, kept: &Kept, worker: &mut Worker)
    requires about { IsAbout table.now plan.now kept.now }
    requires seat { IsIdle table.now worker.old.seat.view.shares worker.old.seat }
    ensures seat { IsIdle table.now worker.old.seat.view.shares worker.new.seat }
{
    for n in 0..plan.jobs.len().min(100_000) as u32 {
        if build_at(alloc, table, plan, kept, &mut worker.seat, n) {
            worker.built = worker.built.wrapping_add(1);
        }
    }
}

/// Has each worker go over the nodes, in a thread of its own.
fn work_all<R: Threads + Sync>(
    rt: &R,
    alloc: Global,
    table: &Table<Untold>,
    plan: &Plan,
    kept: &Kept,
    crew: &mut [Worker],
)
    requires about { IsAbout table.now plan.now kept.now }
    requires crew { All (λ w. IsIdle table.now w.seat.view.shares w.seat) crew.old }
    ensures { (i : _) (d : _) → i < length crew.old
        → IsIdle table.now (slice_index_or crew.old i d).seat.view.shares
        (slice_index_or crew.new i d).seat }
{
    let each = |_: usize, worker: &mut Worker|
        requires about { IsAbout table.now plan.now kept.now }
        requires seat { IsIdle table.now worker.old.seat.view.shares worker.old.seat }
        ensures seat { IsIdle table.entry.now worker.old.seat.view.shares worker.new.seat }
    { work(alloc, table, plan, kept, worker) };
    thread::for_each_mut(rt, crew, 4, &each);
}

fn at_work(seat: Seat) -> Worker
    ensures { result.seat ≡ seat }
{
    Worker { seat, built: 0 }
}

/// Two workers as one.
fn as_one(table: &Table<Untold>, a: Worker, b: Worker) -> Worker
    requires a { IsIdle table.now a.seat.view.shares a.seat }
    requires b { IsIdle table.now b.seat.view.shares b.seat }
    ensures { IsIdle table.now (a.seat.view.shares + b.seat.view.shares) result.seat }
{
    let Worker { seat, built } = a;
    let Worker {
        seat: other,
        built: more,
    } = b;
    Worker {
        seat: table.join(seat, other),
        built: built.wrapping_add(more),
    }
}

/// The outcomes of a table for which four workers went over the nodes, and how many nodes they built.
fn crew_of<R: Threads + Sync>(
    rt: &R,
    alloc: Global,
    table: Table<Untold>,
    plan: &Plan,
    kept: &Kept,
    seat: Seat,
) -> (Partial, u64)
    requires about { IsAbout table plan.now kept.now }
    requires seat { IsIdle table all_shares seat }
{
    let (a, b) = table.split(seat);
    let (a, c) = table.split(a);
    let (a, d) = table.split(a);
    let mut crew = [at_work(a), at_work(b), at_work(c), at_work(d)];
    work_all(rt, alloc, &table, plan, kept, crew.as_mut_slice());
    let [a, b, c, d] = crew;
    let first = as_one(&table, a, b);
    let second = as_one(&table, c, d);
    let Worker { seat, built } = as_one(&table, first, second);
    (table.close(seat), built)
}

fn has_package(outcome: &Option<Outcome>) -> bool {
    matches!(outcome, Some(Outcome::Built(_)))
}

fn push_crew(
    alloc: Global,
    partial: &Partial,
    built: u64,
    out: &mut Vec<u8>,
) -> Result<(), NoMemory> {
    push_number(alloc, out, built)?;
    push_str(out, " ended as built; ")?;
    let there = partial
        .outcomes
        .iter()
        .filter(|outcome| has_package(outcome))
        .count();
    push_number(alloc, out, there as u64)?;
    push_str(out, " packages")
}

fn push_built<R: Threads + Sync>(
    rt: &R,
    alloc: Global,
    plan: Plan,
    kept: Kept,
    out: &mut Vec<u8>,
) -> Result<(), NoMemory>
    requires { FitsKept plan kept }
{
    let plan = Shared::new(alloc, plan)?;
    let kept = Shared::new(alloc, kept)?;
    let (table, seat) = Table::<Untold>::make(alloc, plan.share()?, kept.share()?)?;
    let (partial, built) = crew_of(rt, alloc, table, plan.get(), kept.get(), seat);
    push_crew(alloc, &partial, built, out)
}

/// Four workers over a chain, a fan or groups of so many nodes: how many nodes they ended as built, all
/// together, and how many packages the table has then.
pub(crate) fn answer_crew<R: Threads + Sync>(
    rt: &R,
    alloc: Global,
    shape: &str,
    count: &str,
    out: &mut Vec<u8>,
) -> Result<(), CaseError> {
    let plan = plan_in(alloc, shape, count)?;
    let kept = none_kept(alloc, &plan)?;
    if !fits_kept(&plan, &kept) {
        return Err(CaseError::Unfit);
    }
    Ok(push_built(rt, alloc, plan, kept, out)?)
}
