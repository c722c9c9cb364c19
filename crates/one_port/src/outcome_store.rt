// What was built, put into the store.
ghost use Rattle.std.specs.Prelude.{◌≡◌, ◌⊎◌, IsTrue, OnOk, OnErr};
ghost use Rattle.outside.specs.Faults.{HasCause};
ghost use Rattle.one_port.specs.Report.{stored, stored_all};
ghost use Rattle.one_port.specs.PortsRun.{KeepsFirst};

use crate::port_store::save;
use bulk_model::Outcome;
use outside::{Outer, Store};
use std::alloc::Global;

// Puts the package of a build into the store, where there is one.
fn store_outcome<S: Store>(alloc: Global, store: &mut S, outcome: &Outcome) -> Result<(), Outer>
    ensures told { IsTrue S.tells → OnOk result (S.content store.new ≡ stored outcome.now (S.content store.old)) }
    ensures left { IsTrue S.tells → OnErr result ((S.content store.new ≡ S.content store.old) ⊎ (S.content store.new ≡ stored outcome.now (S.content store.old))) }
    ensures cause { HasCause (S.faults store.old) (S.faults store.new) result }
{
    match outcome {
        Outcome::Failed { .. } => Ok(()),
        Outcome::Built(built) => save(alloc, store, built.get()),
    }
}

/// Puts the packages of some builds into the store, one after another, up to the first error.
pub(crate) fn store_outcomes<S: Store>(
    alloc: Global,
    store: &mut S,
    outcomes: &[Outcome],
) -> Result<(), Outer>
    ensures told { IsTrue S.tells → OnOk result (S.content store.new ≡ stored_all outcomes.now (S.content store.old)) }
    ensures left { IsTrue S.tells → KeepsFirst outcomes.now (S.content store.old) (S.content store.new) }
    ensures cause { HasCause (S.faults store.old) (S.faults store.new) result }
{
    for outcome in outcomes {
        store_outcome(alloc, store, outcome)?;
    }
    Ok(())
}
