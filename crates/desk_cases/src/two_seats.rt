// Packages that two seats bring to a desk, one after another.
ghost use Rattle.std.specs.Prelude.{◌≡◌, length};
ghost use Rattle.desk_cases.specs.Seating.{IsAbout, HasShares};
ghost use Rattle.store_desk.specs.Rule.{all_shares};

use crate::bringing::bring;
use crate::journals::push_journal;
use bulk_base::{NoMemory, Sequence};
use bulk_model::{Flags, Kept, Plan, Shared};
use case_plans::{Written, kept_of, plan_from, written_of};
use case_text::{CaseError, fails_of, push_number, push_str};
use outside::{MemStore, Untold};
use std::alloc::Global;
use std::sync::Wait;
use store_desk::{Desk, DeskRefused, DeskSeat, Desked, Keep};

/// Which of the seats brings a package, and of which node.
#[derive(Clone, Copy)]
struct Step {
    second: bool,
    node: u32,
}

/// The step of a part: `p` or `q` and a node.
fn step_of(part: &str) -> Result<Step, CaseError> {
    let mut words = part.split(' ');
    let second = words.next() == Some("q");
    match words.next().unwrap_or("").parse() {
        Ok(node) => Ok(Step { second, node }),
        Err(_) => Err(CaseError::Unfit),
    }
}

/// The steps of a field; none of an empty one.
fn steps_of(alloc: Global, field: &str) -> Result<Vec<Step>, CaseError> {
    let mut steps = Vec::new(alloc);
    for part in field.split(';') {
        if !part.is_empty() {
            steps.push(step_of(part)?).map_err(NoMemory::from)?;
        }
    }
    Ok(steps)
}

/// Takes the steps one after another. An answer a step.
fn take_steps<R: Wait>(
    rt: &R,
    alloc: Global,
    desk: &Desk<MemStore, Untold>,
    plan: &Plan,
    kept: &Kept,
    steps: &[Step],
    p: &mut DeskSeat<Untold>,
    q: &mut DeskSeat<Untold>,
    answers: &mut [Option<Keep>],
)
    requires about { IsAbout desk.now plan.now kept.now }
    requires p { HasShares desk.now p.old.view.shares p.old }
    requires q { HasShares desk.now q.old.view.shares q.old }
    requires answers { length answers.old ≡ length steps.now }
    ensures p { HasShares desk.now p.old.view.shares p.new }
    ensures q { HasShares desk.now q.old.view.shares q.new }
{
    for i in 0..steps.len() {
        let Step { second, node } = steps[i];
        answers[i] = if second {
            bring(rt, alloc, desk, plan, kept, q, node)
        } else {
            bring(rt, alloc, desk, plan, kept, p, node)
        };
    }
}

/// The steps of the two seats of a desk, which is closed then.
fn play<R: Wait>(
    rt: &R,
    alloc: Global,
    desk: Desk<MemStore, Untold>,
    seat: DeskSeat<Untold>,
    plan: &Plan,
    kept: &Kept,
    steps: &[Step],
    answers: &mut [Option<Keep>],
) -> Desked<MemStore>
    requires about { IsAbout desk plan.now kept.now }
    requires seat { HasShares desk all_shares seat }
    requires answers { length answers.old ≡ length steps.now }
{
    let (mut p, mut q) = desk.split(seat);
    take_steps(rt, alloc, &desk, plan, kept, steps, &mut p, &mut q, answers);
    let seat = desk.join(p, q);
    desk.close(seat)
}

fn push_answer(alloc: Global, answer: Option<Keep>, out: &mut Vec<u8>) -> Result<(), NoMemory> {
    match answer {
        Some(Keep::Saved) => push_str(out, "saved; ")?,
        Some(Keep::Later { node }) => {
            push_str(out, "later: ")?;
            push_number(alloc, out, u64::from(node))?;
            push_str(out, "; ")?;
        }
        Some(Keep::Fault) => push_str(out, "fault; ")?,
        Some(Keep::NoMemory) => push_str(out, "no memory; ")?,
        None => push_str(out, "may not; ")?,
    }
    Ok(())
}

fn push_marks(saved: &Flags, out: &mut Vec<u8>) -> Result<(), NoMemory> {
    for n in 0..saved.len() {
        push_str(out, if saved.get(n) { "S" } else { "-" })?;
    }
    Ok(())
}

/// Puts what a store counts as faults and what was done to it.
fn push_store(alloc: Global, store: &MemStore, out: &mut Vec<u8>) -> Result<(), NoMemory> {
    push_str(out, "; faults: ")?;
    push_number(alloc, out, store.faults())?;
    push_str(out, "; put:")?;
    push_journal(store.journal(), out)
}

/// Puts an answer a step, then a letter a node: whether it was saved; then what came of the store.
fn push_play(
    alloc: Global,
    answers: &[Option<Keep>],
    store: &MemStore,
    saved: &Flags,
    out: &mut Vec<u8>,
) -> Result<(), NoMemory> {
    for answer in answers {
        push_answer(alloc, *answer, out)?;
    }
    push_marks(saved, out)?;
    push_store(alloc, store, out)
}

/// The steps at a desk with this store, or that it was refused.
fn push_steps<R: Wait>(
    rt: &R,
    alloc: Global,
    store: MemStore,
    plan: &Shared<Plan>,
    kept: &Shared<Kept>,
    steps: &[Step],
    out: &mut Vec<u8>,
) -> Result<(), NoMemory> {
    let mut answers = vec![in alloc; None; steps.len()]?;
    match Desk::<MemStore, Untold>::new(alloc, store, plan.share()?, kept.share()?) {
        Ok((desk, seat)) => {
            let Desked { store, saved } = play(
                rt,
                alloc,
                desk,
                seat,
                plan.get(),
                kept.get(),
                steps,
                answers.as_mut_slice(),
            );
            push_play(alloc, answers.as_slice(), &store, &saved, out)
        }
        Err(DeskRefused { store }) => {
            push_str(out, "refused")?;
            push_store(alloc, &store, out)
        }
    }
}

/// The plan of written nodes, and which packages it keeps.
fn plan_of(alloc: Global, nodes: &str) -> Result<(Plan, Kept), CaseError> {
    let Written { jobs, edges, marks } = written_of(alloc, nodes)?;
    let plan = plan_from(alloc, jobs, edges, marks.as_slice())?;
    let kept = kept_of(alloc, &plan, marks.as_slice())?;
    Ok((plan, kept))
}

/// What two seats bring to the desk of a written plan, over a store of which the given calls fail.
pub(crate) fn answer_steps<R: Wait>(
    rt: &R,
    alloc: Global,
    nodes: &str,
    fails: &str,
    steps: &str,
    out: &mut Vec<u8>,
) -> Result<(), CaseError> {
    let steps = steps_of(alloc, steps)?;
    let fails = fails_of(alloc, fails, "")?;
    let store = MemStore::new(alloc, Sequence::new(alloc), fails)?;
    let (plan, kept) = plan_of(alloc, nodes)?;
    let plan = Shared::new(alloc, plan)?;
    let kept = Shared::new(alloc, kept)?;
    Ok(push_steps(rt, alloc, store, &plan, &kept, steps.as_slice(), out)?)
}
