// One node after another.
ghost use Rattle.std.specs.Prelude.{◌≡◌, ◌≤◌, ◌<◌, ◌∷◌, [], ◌++◌, length, map, None, true, false, IsTrue, IfOk, OnOk, OnErr, if◌then◌else◌};
ghost use Rattle.std.specs.Option.{option_map_or};
ghost use Rattle.outside.specs.Faults.{HasCause};
ghost use Rattle.outside.specs.Outcomes.{GrewByAtMost};
ghost use Rattle.bulk_model.specs.Baked.{IsBuildOf};
ghost use Rattle.bulk_model.specs.Fit.{FitsKept, FitsPartial, outcome_at};
ghost use Rattle.bulk_model.specs.PlanView.{job_at};
ghost use Rattle.bucket_queue.specs.declared.mark.Mark.TheVariants.{Done, Bad};
ghost use Rattle.bucket_queue.specs.QueueView.{is_running, with_mark};
ghost use Rattle.bulk_core.specs.Builder.{Began};
ghost use Rattle.bulk_core.specs.Turns.{is_made, packages_for, Turn, IsEnded};

use crate::gather::gather;
use bucket_queue::Queue;
use bulk_model::{Baking, Kept, Outcome, Plan};
use dep_graph::Collector;
use outside::Outer;
use std::alloc::Global;

fn is_built(outcome: &Outcome) -> bool
    ensures { result ≡ is_made outcome.now }
{
    matches!(outcome, Outcome::Built(_))
}

/// Whether a node that has its outcome was built well.
fn had(outcomes: &[Option<Outcome>], n: u32) -> Option<bool>
    requires { n < length outcomes.now }
    ensures { result
        ≡ option_map_or (λ outcome. Some (is_made outcome)) (outcome_at outcomes.now n) None }
{
    match &outcomes[n as usize] {
        Some(outcome) => Some(is_built(outcome)),
        None => None,
    }
}

/// Builds a node with the packages that are installed for it.
fn bake_node<B: Baking>(
    alloc: Global,
    plan: &Plan,
    kept: &Kept,
    collector: &mut Collector,
    outcomes: &[Option<Outcome>],
    n: u32,
    baker: &mut B,
) -> Result<Outcome, Outer>
    requires node { n < length plan.now.jobs }
    requires kept { length kept.now.packages ≡ length plan.now.jobs }
    requires collector { collector.old ≡ length plan.now.jobs }
    requires outcomes { length outcomes.now ≡ length plan.now.jobs }
    ensures build { IfOk result (IsBuildOf B.Ways.tells B.Ways.runs
        plan.now.base (job_at plan.now n) (packages_for plan.now kept.now outcomes.now n)) }
    ensures collector { collector.new ≡ collector.old }
    ensures begun { OnOk result
        (B.begun baker.new ≡ B.begun baker.old ++ (job_at plan.now n).name ∷ []) }
    ensures begun_err { OnErr result
        (GrewByAtMost (job_at plan.now n).name (B.begun baker.old) (B.begun baker.new)) }
    ensures cause { HasCause (B.faults baker.old) (B.faults baker.new) result }
{
    let nodes = collector.collect(alloc, plan, n)?;
    let packages = gather(alloc, plan, kept, outcomes, nodes.as_slice())?;
    baker.bake(
        alloc,
        &plan.base,
        &plan.jobs.as_slice()[n as usize],
        packages.as_slice(),
    )
}

/// Builds a node that has no outcome yet. Answers whether the node was built well.
fn turn<B: Baking>(
    alloc: Global,
    plan: &Plan,
    kept: &Kept,
    collector: &mut Collector,
    outcomes: &mut Vec<Option<Outcome>>,
    n: u32,
    baker: &mut B,
) -> Result<bool, Outer>
    requires node { n < length plan.now.jobs }
    requires kept { length kept.now.packages ≡ length plan.now.jobs }
    requires collector { collector.old ≡ length plan.now.jobs }
    requires outcomes { length outcomes.old.items ≡ length plan.now.jobs }
    ensures turn { IfOk result (Turn B.Ways.tells B.Ways.runs plan.now kept.now n
        outcomes.old.items outcomes.new.items (B.begun baker.old) (B.begun baker.new)) }
    ensures collector { collector.new ≡ collector.old }
    ensures new { OnErr result (outcome_at outcomes.old.items n ≡ None) }
    ensures begun_err { OnErr result
        (GrewByAtMost (job_at plan.now n).name (B.begun baker.old) (B.begun baker.new)) }
    ensures cause { HasCause (B.faults baker.old) (B.faults baker.new) result }
{
    if let Some(well) = had(outcomes.as_slice(), n) {
        return Ok(well);
    }
    let outcome = bake_node(alloc, plan, kept, collector, outcomes.as_slice(), n, baker)?;
    let well = is_built(&outcome);
    outcomes[n as usize] = Some(outcome);
    Ok(well)
}

/// Ends a node that was taken, well or not.
fn end(queue: &mut Queue, n: u32, well: bool)
    requires { IsTrue (is_running queue.old n) }
    ensures { queue.new ≡ with_mark queue.old n (if well then Done else Bad) }
{
    if well {
        queue.done(n);
    } else {
        queue.bad(n);
    }
}

/// Builds all that has no outcome yet and can be built.
pub(crate) fn build_left<B: Baking>(
    alloc: Global,
    plan: &Plan,
    kept: &Kept,
    outcomes: &mut Vec<Option<Outcome>>,
    baker: &mut B,
) -> Result<(), Outer>
    requires fit { FitsKept plan.now kept.now }
    requires given { FitsPartial plan.now kept.now outcomes.old.items }
    ensures ended { OnOk result (IsEnded B.Ways.tells B.Ways.runs plan.now kept.now
        outcomes.old.items outcomes.new.items (B.begun baker.old) (B.begun baker.new)) }
    ensures begun { Began plan.now kept.now outcomes.old.items
        (B.begun baker.old) (B.begun baker.new) }
    ensures cause { HasCause (B.faults baker.old) (B.faults baker.new) result }
{
    let _ = &plan.jobs;
    let mut queue = Queue::new(alloc, plan, kept)?;
    let mut collector = Collector::new(alloc, plan)?;
    while let Some(n) = queue.next() {
        let well = turn(alloc, plan, kept, &mut collector, outcomes, n, baker)?;
        end(&mut queue, n, well);
    }
    Ok(())
}
