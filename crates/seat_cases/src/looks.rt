// What a seat at a claim table may do, by what it looks at.
ghost use Rattle.std.specs.Prelude.{◌≡◌, ◌<◌, true, length, map, None, IfOk, IfErr};
ghost use Rattle.std.specs.List.{list_all, list_any};
ghost use Rattle.bulk_model.specs.Installs.{has};
ghost use Rattle.bulk_model.specs.PlanView.{job_at};
ghost use Rattle.claim_table.specs.Seats.{IsOf, IsTicketOf, KnowsMore, is_known, knows_all};
ghost use Rattle.claim_table.specs.Words as words;
ghost use Rattle.seat_cases.specs.Seating.{IsAbout};

use bulk_model::{Edge, Job, Kept, Plan};
use case_plans::{is_ignored, is_kept, plain_outcome};
use claim_table::{Seat, Table, Taken, Ticket, Word};
use outside::Untold;
use std::alloc::Global;

fn is_good(word: Word) -> bool
    ensures { result ≡ words.is_good word }
{
    match word {
        Word::Built | Word::Reading | Word::Kept => true,
        _ => false,
    }
}

fn is_bad(word: Word) -> bool
    ensures { result ≡ words.is_bad word }
{
    match word {
        Word::Failed | Word::Skipped | Word::Ignored => true,
        _ => false,
    }
}

/// Looks at a node. Answers whether its package is there.
fn sees_good(table: &Table<Untold>, plan: &Plan, kept: &Kept, seat: &mut Seat, d: u32) -> bool
    requires about { IsAbout table.now plan.now kept.now }
    requires seat { IsOf table.now seat.old }
    ensures seat { IsOf table.now seat.new }
    ensures shares { seat.new.view.shares ≡ seat.old.view.shares }
    ensures holds { seat.new.view.holds ≡ seat.old.view.holds }
    ensures more { KnowsMore seat.old.view seat.new.view }
    ensures good { result ≡ true → is_known kept.now seat.new.view d ≡ true }
{
    if d as usize >= plan.jobs.len() {
        return false;
    }
    if is_kept(kept, d as usize) {
        return true;
    }
    is_good(table.look(seat, d))
}

/// Looks at the targets of edges. Answers whether all have their packages.
fn sees_all_good(
    table: &Table<Untold>,
    plan: &Plan,
    kept: &Kept,
    seat: &mut Seat,
    edges: &[Edge],
) -> bool
    requires about { IsAbout table.now plan.now kept.now }
    requires seat { IsOf table.now seat.old }
    ensures seat { IsOf table.now seat.new }
    ensures shares { seat.new.view.shares ≡ seat.old.view.shares }
    ensures holds { seat.new.view.holds ≡ seat.old.view.holds }
    ensures good { result ≡ true → list_all (is_known kept.now seat.new.view)
        (map (λ edge. edge.to) edges.now) ≡ true }
{
    for edge in edges {
        if !sees_good(table, plan, kept, seat, edge.to) {
            return false;
        }
    }
    true
}

/// Looks at the dependencies of a node. Answers whether all have their packages.
fn is_ready(table: &Table<Untold>, plan: &Plan, kept: &Kept, seat: &mut Seat, n: u32) -> bool
    requires about { IsAbout table.now plan.now kept.now }
    requires seat { IsOf table.now seat.old }
    requires node { n < length plan.now.jobs }
    ensures seat { IsOf table.now seat.new }
    ensures shares { seat.new.view.shares ≡ seat.old.view.shares }
    ensures holds { seat.new.view.holds ≡ seat.old.view.holds }
    ensures ready { result ≡ true → knows_all table.now.task seat.new.view n ≡ true }
{
    let edges = plan.edges.as_slice()[n as usize].as_slice();
    sees_all_good(table, plan, kept, seat, edges)
}

/// Claims a node, where it is to be built and its dependencies are seen as built or kept. Else the word
/// that was found, or none where it may not be claimed.
pub(crate) fn try_claim(
    table: &Table<Untold>,
    plan: &Plan,
    kept: &Kept,
    seat: &mut Seat,
    n: u32,
) -> Result<Ticket, Option<Word>>
    requires about { IsAbout table.now plan.now kept.now }
    requires seat { IsOf table.now seat.old }
    requires idle { seat.old.view.holds ≡ None }
    ensures seat { IsOf table.now seat.new }
    ensures shares { seat.new.view.shares ≡ seat.old.view.shares }
    ensures ok { IfOk result (IsTicketOf table.now seat.new) }
    ensures err { IfErr result (λ _. seat.new.view.holds ≡ None) }
{
    if n as usize >= plan.jobs.len() {
        return Err(None);
    }
    if is_kept(kept, n as usize) || is_ignored(plan, n as usize) {
        return Err(None);
    }
    if !is_ready(table, plan, kept, seat, n) {
        return Err(None);
    }
    match table.claim(seat, n) {
        Ok(ticket) => Ok(ticket),
        Err(Taken { word }) => Err(Some(word)),
    }
}

fn job_of(plan: &Plan, n: u32) -> &Job
    requires { n < length plan.now.jobs }
    ensures { result.now ≡ job_at plan.now n }
{
    &plan.jobs.as_slice()[n as usize]
}

/// Ends a claim with the package of its job, or with a failure where it fails. Answers false where it is
/// given up for want of memory.
pub(crate) fn end_claim(
    alloc: Global,
    table: &Table<Untold>,
    plan: &Plan,
    seat: &mut Seat,
    ticket: Ticket,
    fails: bool,
) -> bool
    requires about { table.now.task.plan ≡ plan.now }
    requires seat { IsOf table.now seat.old }
    requires ticket { IsTicketOf table.now seat.old ticket }
    ensures seat { IsOf table.now seat.new }
    ensures shares { seat.new.view.shares ≡ seat.old.view.shares }
    ensures idle { seat.new.view.holds ≡ None }
{
    let n = ticket.node();
    let job = job_of(plan, n);
    match plain_outcome(alloc, &plan.base, job, fails) {
        Ok(outcome) => {
            table.end(seat, ticket, outcome);
            true
        }
        Err(_) => {
            table.drop_claim(seat, ticket);
            false
        }
    }
}

/// Looks at a node. Answers whether it has no package and will have none.
fn sees_bad(table: &Table<Untold>, plan: &Plan, seat: &mut Seat, d: u32) -> bool
    requires about { table.now.task.plan ≡ plan.now }
    requires seat { IsOf table.now seat.old }
    ensures seat { IsOf table.now seat.new }
    ensures shares { seat.new.view.shares ≡ seat.old.view.shares }
    ensures holds { seat.new.view.holds ≡ seat.old.view.holds }
    ensures bad { result ≡ true → has seat.new.view.bad d ≡ true }
{
    if d as usize >= plan.jobs.len() {
        return false;
    }
    is_bad(table.look(seat, d))
}

/// Looks at the targets of edges until one is bad. Answers whether one is.
fn sees_some_bad(table: &Table<Untold>, plan: &Plan, seat: &mut Seat, edges: &[Edge]) -> bool
    requires about { table.now.task.plan ≡ plan.now }
    requires seat { IsOf table.now seat.old }
    ensures seat { IsOf table.now seat.new }
    ensures shares { seat.new.view.shares ≡ seat.old.view.shares }
    ensures holds { seat.new.view.holds ≡ seat.old.view.holds }
    ensures bad { result ≡ true → list_any (has seat.new.view.bad)
        (map (λ edge. edge.to) edges.now) ≡ true }
{
    for edge in edges {
        if sees_bad(table, plan, seat, edge.to) {
            return true;
        }
    }
    false
}

/// Skips a node of which a dependency is seen as bad; none where none is.
pub(crate) fn try_skip(table: &Table<Untold>, plan: &Plan, seat: &mut Seat, n: u32) -> Option<bool>
    requires about { table.now.task.plan ≡ plan.now }
    requires seat { IsOf table.now seat.old }
    requires node { n < length plan.now.jobs }
    ensures seat { IsOf table.now seat.new }
    ensures shares { seat.new.view.shares ≡ seat.old.view.shares }
    ensures holds { seat.new.view.holds ≡ seat.old.view.holds }
{
    let edges = plan.edges.as_slice()[n as usize].as_slice();
    if !sees_some_bad(table, plan, seat, edges) {
        return None;
    }
    Some(table.skip(seat, n))
}
