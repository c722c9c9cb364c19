// What a run and a dry run print.
ghost use Rattle.std.specs.Prelude.{◌≡◌, IfOk};
ghost use Rattle.std.specs.String.{string_bytes};
ghost use Rattle.bulk_model.specs.DryLists.{dry_lists};
ghost use Rattle.bulk_model.specs.Fit.{FitsResults};
ghost use Rattle.bulk_model.specs.Lists.{lists};

use crate::fate::Part;
use crate::fates::{dry_fates, fates};
use crate::text::{push_named, push_notices, push_part, push_stale, push_total};
use bucket_queue::dry_order;
use bulk_base::NoMemory;
use bulk_model::{Kept, Notices, Plan, Results, Stales};
use std::alloc::Global;

/// The text of a run.
fn run_text(
    alloc: Global,
    plan: &Plan,
    results: &Results,
    deleted: &Stales,
    notices: &Notices,
) -> Result<String, NoMemory>
    requires { FitsResults plan.now results.now.statuses }
    ensures { IfOk result (λ text. string_bytes text
        ≡ lists plan.now results.now.statuses deleted.now notices.now) }
{
    let told = fates(alloc, plan, results)?;
    let fates = told.as_slice();
    let mut text = String::new(alloc);
    push_notices(alloc, &mut text, notices.as_slice())?;
    push_stale(alloc, &mut text, "deleted", deleted.as_slice())?;
    push_part(alloc, &mut text, "kept", Part::Kept, plan, fates)?;
    push_part(alloc, &mut text, "built", Part::Built, plan, fates)?;
    push_part(alloc, &mut text, "failed", Part::Failed, plan, fates)?;
    push_part(alloc, &mut text, "ignored", Part::Ignored, plan, fates)?;
    push_part(alloc, &mut text, "skipped", Part::Skipped, plan, fates)?;
    push_total(alloc, &mut text, plan)?;
    Ok(text)
}

/// What a run prints: a line for each word that moved, and the lists of what was deleted from the
/// store and of what came of each node of the plan, each under its heading with its count
/// (docs/FORMATS.md, "What is printed"). NoMemory for want of memory alone.
///
/// Each node and each edge of the plan is looked at a fixed number of times.
pub fn lists(
    alloc: Global,
    plan: &Plan,
    results: &Results,
    deleted: &Stales,
    notices: &Notices,
) -> Result<Vec<u8>, NoMemory>
    requires { FitsResults plan.now results.now.statuses }
    ensures { IfOk result (λ text. text.items
        ≡ lists plan.now results.now.statuses deleted.now notices.now) }
{
    Ok(run_text(alloc, plan, results, deleted, notices)?.into_bytes())
}

/// The text of a dry run.
fn dry_text(
    alloc: Global,
    plan: &Plan,
    kept: &Kept,
    deleted: &Stales,
    notices: &Notices,
) -> Result<String, NoMemory>
    ensures { IfOk result (λ text. string_bytes text
        ≡ dry_lists plan.now kept.now deleted.now notices.now) }
{
    let told = dry_fates(alloc, plan, kept)?;
    let fates = told.as_slice();
    let order = dry_order(alloc, plan, kept)?;
    let mut text = String::new(alloc);
    push_notices(alloc, &mut text, notices.as_slice())?;
    push_stale(alloc, &mut text, "would delete", deleted.as_slice())?;
    push_part(alloc, &mut text, "would keep", Part::Kept, plan, fates)?;
    push_named(alloc, &mut text, "would build", plan, order.as_slice())?;
    push_part(alloc, &mut text, "ignored", Part::Ignored, plan, fates)?;
    push_part(alloc, &mut text, "would skip", Part::Skipped, plan, fates)?;
    push_total(alloc, &mut text, plan)?;
    Ok(text)
}

/// What a dry run prints, in which every build is taken to succeed: the same lists under the
/// headings of what would be (docs/FORMATS.md, "What is printed"). What would be built stands in the
/// order of one builder. NoMemory for want of memory alone.
///
/// Each node costs the logarithm of their number, and each edge that of the number of ready nodes.
pub fn dry_lists(
    alloc: Global,
    plan: &Plan,
    kept: &Kept,
    deleted: &Stales,
    notices: &Notices,
) -> Result<Vec<u8>, NoMemory>
    ensures { IfOk result (λ text. text.items
        ≡ dry_lists plan.now kept.now deleted.now notices.now) }
{
    Ok(dry_text(alloc, plan, kept, deleted, notices)?.into_bytes())
}
