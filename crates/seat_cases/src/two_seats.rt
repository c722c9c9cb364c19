// Steps of two seats at a claim table, one after another.
ghost use Rattle.std.specs.Prelude.{◌≡◌, ◌+◌, ◌<◌, length, None};
ghost use Rattle.bulk_model.specs.Fit.{FitsKept};
ghost use Rattle.claim_table.specs.Rule.{all_shares};
ghost use Rattle.claim_table.specs.Seats.{IsOf, IsTicketOf};
ghost use Rattle.seat_cases.specs.Seating.{IsAbout, IsIdle, Holds};

use crate::looks::{end_claim, try_claim, try_skip};
use bulk_base::NoMemory;
use bulk_model::{Kept, Outcome, Partial, Plan, Shared};
use case_plans::{Marks, Written, fits_kept, kept_of, plan_from, written_of};
use case_text::{CaseError, push_str};
use claim_table::{FetchError, Seat, Table, Ticket, Word};
use outside::Untold;
use std::alloc::Global;

/// What a seat is to do.
#[derive(Clone, Copy)]
enum Deed {
    Look,
    Claim,
    End,
    Drop,
    Skip,
    Fetch,
}

/// One of the seats, what it is to do, and at which node.
#[derive(Clone, Copy)]
struct Step {
    second: bool,
    deed: Deed,
    node: u32,
}

/// What a seat is answered.
#[derive(Clone, Copy)]
enum Said {
    /// It may not.
    Unfit,
    Seen(Word),
    Claimed,
    Taken(Word),
    Ended,
    GivenUp,
    Skipped(bool),
    Fetched,
    NotFetched(FetchError),
}

fn deed_of(word: &str) -> Result<Deed, CaseError> {
    match word {
        "look" => Ok(Deed::Look),
        "claim" => Ok(Deed::Claim),
        "end" => Ok(Deed::End),
        "drop" => Ok(Deed::Drop),
        "skip" => Ok(Deed::Skip),
        "fetch" => Ok(Deed::Fetch),
        _ => Err(CaseError::Unfit),
    }
}

/// The step of a part: `p` or `q`, a deed, and a node where the deed is at one.
fn step_of(part: &str) -> Result<Step, CaseError> {
    let mut words = part.split(' ');
    let second = words.next() == Some("q");
    let deed = deed_of(words.next().unwrap_or(""))?;
    match words.next().unwrap_or("0").parse() {
        Ok(node) => Ok(Step { second, deed, node }),
        Err(_) => Err(CaseError::Unfit),
    }
}

fn steps_of(alloc: Global, field: &str) -> Result<Vec<Step>, CaseError> {
    let mut steps = Vec::new(alloc);
    for part in field.split(';') {
        steps.push(step_of(part)?).map_err(NoMemory::from)?;
    }
    Ok(steps)
}

/// A look, a skip or a fetch of a node of the plan.
fn watch(table: &Table<Untold>, plan: &Plan, seat: &mut Seat, step: Step) -> Said
    requires about { table.now.task.plan ≡ plan.now }
    requires seat { IsOf table.now seat.old }
    ensures seat { IsOf table.now seat.new }
    ensures shares { seat.new.view.shares ≡ seat.old.view.shares }
    ensures holds { seat.new.view.holds ≡ seat.old.view.holds }
{
    if step.node as usize >= plan.jobs.len() {
        return Said::Unfit;
    }
    match step.deed {
        Deed::Look => Said::Seen(table.look(seat, step.node)),
        Deed::Skip => skip(table, plan, seat, step.node),
        Deed::Fetch => fetch(table, seat, step.node),
        _ => Said::Unfit,
    }
}

fn skip(table: &Table<Untold>, plan: &Plan, seat: &mut Seat, n: u32) -> Said
    requires about { table.now.task.plan ≡ plan.now }
    requires seat { IsOf table.now seat.old }
    requires node { n < length plan.now.jobs }
    ensures seat { IsOf table.now seat.new }
    ensures shares { seat.new.view.shares ≡ seat.old.view.shares }
    ensures holds { seat.new.view.holds ≡ seat.old.view.holds }
{
    match try_skip(table, plan, seat, n) {
        Some(first) => Said::Skipped(first),
        None => Said::Unfit,
    }
}

fn fetch(table: &Table<Untold>, seat: &mut Seat, n: u32) -> Said
    requires seat { IsOf table.now seat.old }
    requires node { n < length table.now.task.plan.jobs }
    ensures seat { IsOf table.now seat.new }
    ensures shares { seat.new.view.shares ≡ seat.old.view.shares }
    ensures holds { seat.new.view.holds ≡ seat.old.view.holds }
{
    match table.fetch(seat, n) {
        Ok(_) => Said::Fetched,
        Err(error) => Said::NotFetched(error),
    }
}

/// A claim of a seat that holds none.
fn claim(
    table: &Table<Untold>,
    plan: &Plan,
    kept: &Kept,
    seat: &mut Seat,
    n: u32,
) -> (Option<Ticket>, Said)
    requires about { IsAbout table.now plan.now kept.now }
    requires seat { IsOf table.now seat.old }
    requires idle { seat.old.view.holds ≡ None }
    ensures seat { IsOf table.now seat.new }
    ensures shares { seat.new.view.shares ≡ seat.old.view.shares }
    ensures holds { Holds table.now seat.new result.0 }
{
    match try_claim(table, plan, kept, seat, n) {
        Ok(ticket) => (Some(ticket), Said::Claimed),
        Err(Some(word)) => (None, Said::Taken(word)),
        Err(None) => (None, Said::Unfit),
    }
}

/// What a seat does that holds nothing.
fn act_idle(
    table: &Table<Untold>,
    plan: &Plan,
    kept: &Kept,
    seat: &mut Seat,
    step: Step,
) -> (Option<Ticket>, Said)
    requires about { IsAbout table.now plan.now kept.now }
    requires seat { IsOf table.now seat.old }
    requires idle { seat.old.view.holds ≡ None }
    ensures seat { IsOf table.now seat.new }
    ensures shares { seat.new.view.shares ≡ seat.old.view.shares }
    ensures holds { Holds table.now seat.new result.0 }
{
    match step.deed {
        Deed::Claim => claim(table, plan, kept, seat, step.node),
        _ => (None, watch(table, plan, seat, step)),
    }
}

fn end(
    alloc: Global,
    table: &Table<Untold>,
    plan: &Plan,
    fails: bool,
    seat: &mut Seat,
    ticket: Ticket,
) -> Said
    requires about { table.now.task.plan ≡ plan.now }
    requires seat { IsOf table.now seat.old }
    requires ticket { IsTicketOf table.now seat.old ticket }
    ensures seat { IsOf table.now seat.new }
    ensures shares { seat.new.view.shares ≡ seat.old.view.shares }
    ensures idle { seat.new.view.holds ≡ None }
{
    if end_claim(alloc, table, plan, seat, ticket, fails) {
        Said::Ended
    } else {
        Said::GivenUp
    }
}

/// What a seat does that holds a claim. The claim fails where that is asked for.
fn act_held(
    alloc: Global,
    table: &Table<Untold>,
    plan: &Plan,
    fails: bool,
    seat: &mut Seat,
    ticket: Ticket,
    step: Step,
) -> (Option<Ticket>, Said)
    requires about { table.now.task.plan ≡ plan.now }
    requires seat { IsOf table.now seat.old }
    requires ticket { IsTicketOf table.now seat.old ticket }
    ensures seat { IsOf table.now seat.new }
    ensures shares { seat.new.view.shares ≡ seat.old.view.shares }
    ensures holds { Holds table.now seat.new result.0 }
{
    match step.deed {
        Deed::End => (None, end(alloc, table, plan, fails, seat, ticket)),
        Deed::Drop => {
            table.drop_claim(seat, ticket);
            (None, Said::GivenUp)
        }
        _ => (Some(ticket), watch(table, plan, seat, step)),
    }
}

fn fails_at(marks: &[Marks], n: u32) -> bool {
    match marks.get(n as usize) {
        Some(mark) => mark.fails,
        None => false,
    }
}

/// What a seat does with what it holds.
fn act(
    alloc: Global,
    table: &Table<Untold>,
    plan: &Plan,
    kept: &Kept,
    marks: &[Marks],
    seat: &mut Seat,
    held: Option<Ticket>,
    step: Step,
) -> (Option<Ticket>, Said)
    requires about { IsAbout table.now plan.now kept.now }
    requires seat { IsOf table.now seat.old }
    requires held { Holds table.now seat.old held }
    ensures seat { IsOf table.now seat.new }
    ensures shares { seat.new.view.shares ≡ seat.old.view.shares }
    ensures holds { Holds table.now seat.new result.0 }
{
    match held {
        Some(ticket) => {
            let fails = fails_at(marks, ticket.node());
            act_held(alloc, table, plan, fails, seat, ticket, step)
        }
        None => act_idle(table, plan, kept, seat, step),
    }
}

/// Gives up what a seat holds.
fn release(table: &Table<Untold>, seat: &mut Seat, held: Option<Ticket>)
    requires seat { IsOf table.now seat.old }
    requires held { Holds table.now seat.old held }
    ensures idle { IsIdle table.now seat.old.view.shares seat.new }
{
    match held {
        Some(ticket) => table.drop_claim(seat, ticket),
        None => (),
    }
}

/// What one of the seats does: what the two hold then, and what was answered.
fn act_by(
    alloc: Global,
    table: &Table<Untold>,
    plan: &Plan,
    kept: &Kept,
    marks: &[Marks],
    p: &mut Seat,
    of_p: Option<Ticket>,
    q: &mut Seat,
    of_q: Option<Ticket>,
    step: Step,
) -> (Option<Ticket>, Option<Ticket>, Said)
    requires about { IsAbout table.now plan.now kept.now }
    requires p { IsOf table.now p.old × Holds table.now p.old of_p }
    requires q { IsOf table.now q.old × Holds table.now q.old of_q }
    ensures p { IsOf table.now p.new × Holds table.now p.new result.0 }
    ensures q { IsOf table.now q.new × Holds table.now q.new result.1 }
    ensures shares_p { p.new.view.shares ≡ p.old.view.shares }
    ensures shares_q { q.new.view.shares ≡ q.old.view.shares }
{
    if step.second {
        let (held, said) = act(alloc, table, plan, kept, marks, q, of_q, step);
        return (of_p, held, said);
    }
    let (held, said) = act(alloc, table, plan, kept, marks, p, of_p, step);
    (held, of_q, said)
}

/// Takes the steps one after another, and gives up what is held then. An answer a step.
fn take_steps(
    alloc: Global,
    table: &Table<Untold>,
    plan: &Plan,
    kept: &Kept,
    marks: &[Marks],
    steps: &[Step],
    p: &mut Seat,
    q: &mut Seat,
    answers: &mut [Said],
)
    requires about { IsAbout table.now plan.now kept.now }
    requires p { IsIdle table.now p.old.view.shares p.old }
    requires q { IsIdle table.now q.old.view.shares q.old }
    requires answers { length answers.old ≡ length steps.now }
    ensures p { IsIdle table.now p.old.view.shares p.new }
    ensures q { IsIdle table.now q.old.view.shares q.new }
{
    let mut of_p = None;
    let mut of_q = None;
    for i in 0..steps.len() {
        let (first, second, said) = act_by(
            alloc, table, plan, kept, marks, p, of_p, q, of_q, steps[i],
        );
        of_p = first;
        of_q = second;
        answers[i] = said;
    }
    release(table, p, of_p);
    release(table, q, of_q);
}

/// The outcomes of a table with two seats.
fn outcomes_of(table: Table<Untold>, p: Seat, q: Seat) -> Partial
    requires p { IsIdle table p.view.shares p }
    requires q { IsIdle table q.view.shares q }
    requires shares { p.view.shares + q.view.shares ≡ all_shares }
{
    let seat = table.join(p, q);
    table.close(seat)
}

/// The steps of the two seats of a table, and what came of the nodes.
fn play(
    alloc: Global,
    plan: &Shared<Plan>,
    kept: &Shared<Kept>,
    marks: &[Marks],
    steps: &[Step],
    answers: &mut [Said],
) -> Result<Partial, NoMemory>
    requires fit { FitsKept plan.now kept.now }
    requires answers { length answers.old ≡ length steps.now }
{
    let (table, seat) = Table::<Untold>::make(alloc, plan.share()?, kept.share()?)?;
    let (mut p, mut q) = table.split(seat);
    take_steps(
        alloc,
        &table,
        plan.get(),
        kept.get(),
        marks,
        steps,
        &mut p,
        &mut q,
        answers,
    );
    Ok(outcomes_of(table, p, q))
}

fn word_text(word: Word) -> &'static str {
    match word {
        Word::Free => "free",
        Word::Claimed => "claimed",
        Word::Built => "built",
        Word::Failed => "failed",
        Word::Reading => "reading",
        Word::Skipped => "skipped",
        Word::Kept => "kept",
        Word::Ignored => "ignored",
        Word::GivenUp => "given up",
    }
}

fn push_refusal(error: FetchError, out: &mut Vec<u8>) -> Result<(), NoMemory> {
    match error {
        FetchError::Busy => push_str(out, "busy"),
        FetchError::NotThere { word } => {
            push_str(out, "not there: ")?;
            push_str(out, word_text(word))
        }
        FetchError::NoMemory => push_str(out, "no memory"),
    }
}

fn push_said(said: Said, out: &mut Vec<u8>) -> Result<(), NoMemory> {
    match said {
        Said::Unfit => push_str(out, "may not"),
        Said::Seen(word) => push_str(out, word_text(word)),
        Said::Claimed => push_str(out, "has it"),
        Said::Taken(word) => {
            push_str(out, "taken: ")?;
            push_str(out, word_text(word))
        }
        Said::Ended => push_str(out, "ended"),
        Said::GivenUp => push_str(out, "given up"),
        Said::Skipped(first) => push_str(out, if first { "true" } else { "false" }),
        Said::Fetched => push_str(out, "fetched"),
        Said::NotFetched(error) => push_refusal(error, out),
    }
}

fn letter(outcome: &Option<Outcome>) -> &'static str {
    match outcome {
        Some(Outcome::Built(_)) => "B",
        Some(Outcome::Failed { .. }) => "F",
        None => "-",
    }
}

/// Puts an answer a step, then a letter a node: what came of it.
fn push_play(answers: &[Said], partial: &Partial, out: &mut Vec<u8>) -> Result<(), NoMemory> {
    for said in answers {
        push_said(*said, out)?;
        push_str(out, "; ")?;
    }
    for outcome in partial.outcomes.as_slice() {
        push_str(out, letter(outcome))?;
    }
    Ok(())
}

fn push_steps(
    alloc: Global,
    plan: Plan,
    kept: Kept,
    marks: &[Marks],
    steps: &[Step],
    out: &mut Vec<u8>,
) -> Result<(), NoMemory>
    requires { FitsKept plan kept }
{
    let plan = Shared::new(alloc, plan)?;
    let kept = Shared::new(alloc, kept)?;
    let mut answers = vec![in alloc; Said::Unfit; steps.len()]?;
    let partial = play(alloc, &plan, &kept, marks, steps, answers.as_mut_slice())?;
    push_play(answers.as_slice(), &partial, out)
}

/// The steps of two seats at the table of a written plan.
pub(crate) fn answer_steps(
    alloc: Global,
    nodes: &str,
    steps: &str,
    out: &mut Vec<u8>,
) -> Result<(), CaseError> {
    let steps = steps_of(alloc, steps)?;
    let Written { jobs, edges, marks } = written_of(alloc, nodes)?;
    let plan = plan_from(alloc, jobs, edges, marks.as_slice())?;
    let kept = kept_of(alloc, &plan, marks.as_slice())?;
    if !fits_kept(&plan, &kept) {
        return Err(CaseError::Unfit);
    }
    Ok(push_steps(alloc, plan, kept, marks.as_slice(), steps.as_slice(), out)?)
}
