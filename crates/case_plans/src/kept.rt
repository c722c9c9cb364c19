// Kept packages and given outcomes, and whether they fit a plan.
ghost use Rattle.std.specs.Prelude.{◌≡◌, ◌<◌, true, length, is_some, IsTrue};
ghost use Rattle.std.specs.List.{list_all};
ghost use Rattle.std.specs.Option.{option_map_or};
ghost use Rattle.bulk_model.specs.Fit.{FitsKept, FitsPartial, outcome_at, has_built, is_there};
ghost use Rattle.bulk_model.specs.PlanView.{depends, is_ignored, job_at};
ghost use Rattle.bulk_model.specs.Results.{kept_at, is_kept};
ghost use Rattle.case_plans.specs.Testing.{may_keep, may_be_kept, may_be_given};

use bulk_model::{Edge, Job, Kept, Outcome, Package, Plan};

/// Whether the package of a node is kept.
pub fn is_kept(kept: &Kept, d: usize) -> bool
    ensures { result ≡ is_kept kept.now d }
{
    d < kept.packages.len() && kept.packages.as_slice()[d].is_some()
}

/// Whether the plan ignores a node.
pub fn is_ignored(plan: &Plan, n: usize) -> bool
    requires { n < length plan.now.jobs }
    ensures { result ≡ is_ignored plan.now n }
{
    plan.ignored.as_slice()[n].is_some()
}

fn are_kept(kept: &Kept, edges: &[Edge]) -> bool
    ensures { result ≡ list_all (λ edge. is_kept kept.now edge.to) edges.now }
{
    edges.iter().all(|edge| is_kept(kept, edge.to as usize))
}

fn all_kept(plan: &Plan, kept: &Kept, n: usize) -> bool
    requires { n < length plan.now.jobs }
    ensures { result ≡ list_all (is_kept kept.now) (depends plan.now n) }
{
    are_kept(kept, plan.edges.as_slice()[n].as_slice())
}

fn may_keep(job: &Job, built: &Package) -> bool
    ensures { result ≡ may_keep job.now built.now }
{
    built.name == job.name
        && built.options.len() == 0
        && job.options.len() == 0
        && built.depends.len() == 0
        && job.depends.len() == 0
}

fn may_keep_at(plan: &Plan, kept: &Kept, n: usize) -> bool
    requires node { n < length plan.now.jobs }
    requires place { n < length kept.now.packages }
    ensures { result ≡ option_map_or (may_keep (job_at plan.now n)) (kept_at kept.now n) true }
{
    match &kept.packages.as_slice()[n] {
        Some(built) => may_keep(&plan.jobs.as_slice()[n], built.get()),
        None => true,
    }
}

fn may_be_kept(plan: &Plan, kept: &Kept, n: usize) -> bool
    requires { n < length plan.now.jobs }
    ensures { result ≡ may_be_kept plan.now kept.now n }
{
    !is_kept(kept, n) || (!is_ignored(plan, n) && all_kept(plan, kept, n))
}

/// Whether kept packages fit a plan.
pub fn fits_kept(plan: &Plan, kept: &Kept) -> bool
    ensures { IsTrue result → FitsKept plan.now kept.now }
{
    if kept.packages.len() != plan.jobs.len() {
        return false;
    }
    for n in 0..plan.jobs.len() {
        if !may_be_kept(plan, kept, n) || !may_keep_at(plan, kept, n) {
            return false;
        }
    }
    true
}

fn has_built(outcome: &Option<Outcome>) -> bool
    ensures { result ≡ has_built outcome.now }
{
    match outcome {
        Some(Outcome::Built(_)) => true,
        _ => false,
    }
}

fn is_there(kept: &Kept, outcomes: &[Option<Outcome>], d: usize) -> bool
    ensures { result ≡ is_there kept.now outcomes.now d }
{
    if is_kept(kept, d) {
        return true;
    }
    d < outcomes.len() && has_built(&outcomes[d])
}

fn are_there(kept: &Kept, outcomes: &[Option<Outcome>], edges: &[Edge]) -> bool
    ensures { result ≡ list_all (λ edge. is_there kept.now outcomes.now edge.to) edges.now }
{
    edges
        .iter()
        .all(|edge| is_there(kept, outcomes, edge.to as usize))
}

fn all_there(plan: &Plan, kept: &Kept, outcomes: &[Option<Outcome>], n: usize) -> bool
    requires { n < length plan.now.jobs }
    ensures { result ≡ list_all (is_there kept.now outcomes.now) (depends plan.now n) }
{
    are_there(kept, outcomes, plan.edges.as_slice()[n].as_slice())
}

fn has_outcome(outcomes: &[Option<Outcome>], n: usize) -> bool
    requires { n < length outcomes.now }
    ensures { result ≡ is_some (outcome_at outcomes.now n) }
{
    outcomes[n].is_some()
}

fn may_be_given(plan: &Plan, kept: &Kept, outcomes: &[Option<Outcome>], n: usize) -> bool
    requires node { n < length plan.now.jobs }
    requires place { n < length outcomes.now }
    ensures { result ≡ may_be_given plan.now kept.now outcomes.now n }
{
    !has_outcome(outcomes, n)
        || (!is_kept(kept, n) && !is_ignored(plan, n) && all_there(plan, kept, outcomes, n))
}

/// Whether given outcomes fit a plan.
pub fn fits_partial(plan: &Plan, kept: &Kept, outcomes: &[Option<Outcome>]) -> bool
    ensures { IsTrue result → FitsPartial plan.now kept.now outcomes.now }
{
    if outcomes.len() != plan.jobs.len() {
        return false;
    }
    for n in 0..plan.jobs.len() {
        if !may_be_given(plan, kept, outcomes, n) {
            return false;
        }
    }
    true
}
