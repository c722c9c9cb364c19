// The exit status of a run that ended.
ghost use Rattle.std.specs.Prelude.{◌≡◌, IfOk};
ghost use Rattle.std.specs.List.{list_any};
ghost use Rattle.bulk_model.specs.DryLists.{dry_statuses};
ghost use Rattle.bulk_model.specs.Lists.{exit_status, is_setback};
ghost use Rattle.status_lists.specs.Fates.{exit_of, is_set_back};

use crate::fate::Fate;
use crate::fates::dry_fates;
use bulk_base::NoMemory;
use bulk_model::{Kept, Plan, Results, Status};
use std::alloc::Global;

fn is_setback(status: &Status) -> bool
    ensures { result ≡ is_setback status.now }
{
    matches!(status, Status::Failed { .. } | Status::Skipped)
}

fn has_setback(statuses: &[Status]) -> bool
    ensures { result ≡ list_any is_setback statuses.now }
{
    statuses.iter().any(|status| is_setback(status))
}

/// The exit status of a run that ended with these results: 1 where a port failed or was skipped,
/// else 0 (docs/FORMATS.md, "Exit status"). Takes no memory. Looks at each result once.
pub fn run_status(results: &Results) -> u8
    ensures { result ≡ exit_status results.now.statuses }
{
    u8::from(has_setback(results.statuses.as_slice()))
}

fn has_set_back(fates: &[Fate]) -> bool
    ensures { result ≡ list_any is_set_back fates.now }
{
    fates.iter().any(|fate| fate.is_set_back())
}

/// The exit status by what is told of each node.
fn fates_status(fates: &[Fate]) -> u8
    ensures { result ≡ exit_of fates.now }
{
    u8::from(has_set_back(fates))
}

/// The exit status of a dry run, in which every build is taken to succeed: 1 where a node of the
/// plan would be skipped, else 0 (docs/FORMATS.md, "Exit status"). NoMemory for want of memory
/// alone. Costs what the lists of `dry_lists` cost.
pub fn dry_status(alloc: Global, plan: &Plan, kept: &Kept) -> Result<u8, NoMemory>
    ensures { IfOk result (λ status. status ≡ exit_status (dry_statuses plan.now kept.now)) }
{
    let fates = dry_fates(alloc, plan, kept)?;
    Ok(fates_status(fates.as_slice()))
}
