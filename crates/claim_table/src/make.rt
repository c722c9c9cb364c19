// A table for a plan.
ghost use Rattle.std.specs.Prelude.{◌≡◌, IfOk};
ghost use Rattle.bulk_model.specs.Fit.{FitsKept};
ghost use Rattle.bulk_model.specs.PlanView.{is_ignored};
ghost use Rattle.bulk_model.specs.Results.{is_kept};
ghost use Rattle.claim_table.specs.Inside.{first_code, AreFirst};
ghost use Rattle.claim_table.specs.Rule.{first_view};

use crate::table::{Seat, Table};
use crate::view::Key;
use atomic_table::Table as AtomicTable;
use bulk_base::NoMemory;
use bulk_model::{Kept, Plan, Shared};
use outside::Ways;
use std::alloc::Global;
use std::snapshot::Snapshot;

fn is_kept(kept: &Kept, n: usize) -> bool
    ensures { result ≡ is_kept kept.now n }
{
    let packages = kept.packages.as_slice();
    n < packages.len() && packages[n].is_some()
}

fn is_ignored(plan: &Plan, n: usize) -> bool
    ensures { result ≡ is_ignored plan.now n }
{
    let reasons = plan.ignored.as_slice();
    n < reasons.len() && reasons[n].is_some()
}

/// The number of a node's first word.
fn first_word(plan: &Plan, kept: &Kept, n: usize) -> u64
    ensures { result ≡ first_code plan.now kept.now n }
{
    if is_kept(kept, n) {
        6
    } else if is_ignored(plan, n) {
        7
    } else {
        0
    }
}

/// The words of a table as it is made, the spare word first.
fn first_words(alloc: Global, plan: &Plan, kept: &Kept) -> Result<Vec<u64>, NoMemory>
    ensures { IfOk result (λ words. AreFirst plan.now kept.now words.items) }
{
    let mut words = Vec::new(alloc);
    words.push(0)?;
    for n in 0..plan.jobs.len() {
        words.push(first_word(plan, kept, n))?;
    }
    Ok(words)
}

impl<M: Ways> Table<M> {
    /// A table for a plan and the packages that are kept, and its first seat, which has all shares
    /// and knows nothing. Kept nodes are Kept from then on, ignored ones Ignored, and all others
    /// Free.
    ///
    /// NoMemory for want of memory alone. All that the table ever needs is reserved here: no other
    /// call of it takes memory, but for the holder that `fetch` hands out. A node costs a word, a
    /// slot and a place among the outcomes.
    pub fn make(
        alloc: Global,
        plan: Shared<Plan>,
        kept: Shared<Kept>,
    ) -> Result<(Table<M>, Seat), NoMemory>
        requires { FitsKept plan kept }
        ensures about { IfOk result (λ made. made.0.task ≡ record { plan = plan; kept = kept }) }
        ensures seat { IfOk result (λ made.
            (made.1.id ≡ made.0.id) × (made.1.view ≡ first_view made.0.task)) }
    {
        let count = plan.get().jobs.len();
        let words = first_words(alloc, plan.get(), kept.get())?;
        let room = Vec::with_capacity(alloc, count)?;
        let key = Key {
            plan: Snapshot::of(plan.get()),
            kept: Snapshot::of(kept.get()),
        };
        let (table, inner) = AtomicTable::vacant(alloc, words.as_slice(), count, &key)?;
        Ok((
            Table {
                table,
                plan,
                kept,
                room,
            },
            Seat { inner },
        ))
    }
}
