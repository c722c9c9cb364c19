// What is done with the store in one turn.
ghost use Rattle.std.specs.Prelude.{◌≡◌, ◌<◌, ℕ, false, true, not, length, map, slice_set, IsTrue, IfOk, OnOk, OnErr};
ghost use Rattle.outside.specs.Changes.{Made};
ghost use Rattle.outside.specs.Faults.{HasCause};
ghost use Rattle.outside.specs.declared.change.Change.TheVariants.{Put as ToPut};
ghost use Rattle.bulk_base.specs.Least.{least_passing};
ghost use Rattle.bulk_model.specs.PlanView.{is_ignored};
ghost use Rattle.bulk_model.specs.Results.{is_kept};
ghost use Rattle.store_desk.specs.Attempts as attempts;
ghost use Rattle.store_desk.specs.Told.{lore, is_done, least_open, file_of, IsRight};
ghost use Rattle.store_desk.specs.Written.{IsSound};
ghost use Rattle.store_desk.specs.declared.view.Origin.{Origin};

use crate::view::Held;
use bulk_base::{NoMemory, Text, lower};
use bulk_model::{Edge, Flags, Kept, Plan};
use outside::{Outer, Store, Ways};
use std::alloc::Global;

/// What came of a package that was brought to the desk.
#[derive(Clone, Copy, Debug, PartialEq, Eq)]
pub enum Keep {
    /// The package is in the store.
    Saved,
    /// A dependency is not yet in the store: the least such.
    Later {
        /// The dependency.
        node: u32,
    },
    /// The store failed.
    Fault,
    /// Want of memory.
    NoMemory,
}

fn is_kept(kept: &Kept, d: u32) -> bool
    ensures { result ≡ is_kept kept.now d }
{
    let packages = kept.packages.as_slice();
    let at = d as usize;
    at < packages.len() && packages[at].is_some()
}

/// Whether a node is kept or saved.
fn is_done(kept: &Kept, saved: &Flags, d: u32) -> bool
    ensures { result ≡ is_done kept.now saved.now d }
{
    is_kept(kept, d) || saved.get(d as usize)
}

/// The least target of edges that is neither kept nor saved.
fn least_open_of(kept: &Kept, saved: &Flags, edges: &[Edge]) -> Option<u32>
    ensures { result ≡ least_passing (λ d. not (is_done kept.now saved.now d))
        (map (λ edge. edge.to) edges.now) }
{
    let mut least = None;
    for edge in edges {
        if !is_done(kept, saved, edge.to) {
            least = Some(lower(least, edge.to));
        }
    }
    least
}

/// The least dependency that is neither kept nor saved.
fn least_open(plan: &Plan, kept: &Kept, saved: &Flags, n: u32) -> Option<u32>
    requires { n < length plan.now.jobs }
    ensures { result ≡ least_open plan.now kept.now saved.now n }
{
    least_open_of(kept, saved, plan.edges.as_slice()[n as usize].as_slice())
}

/// Puts a node's package, and marks it as tried, and as saved where the store took it.
fn put_in<S: Store>(
    alloc: Global,
    held: &mut Held<S>,
    n: u32,
    name: &Text,
    file: &[u8],
) -> Result<(), Outer>
    requires room { (n < length held.old.saved) × (n < length held.old.tried) }
    ensures told { IsTrue S.tells → Made (ToPut name.now file.now)
        (S.content held.old.store) (S.content held.new.store)
        (S.journal held.old.store) (S.journal held.new.store) result }
    ensures cause { HasCause (S.faults held.old.store) (S.faults held.new.store) result }
    ensures tried { held.new.tried ≡ slice_set held.old.tried n true }
    ensures ok { OnOk result (held.new.saved ≡ slice_set held.old.saved n true) }
    ensures err { OnErr result (held.new.saved ≡ held.old.saved) }
{
    held.tried.set(n as usize);
    let done = held.store.put(alloc, name, file);
    if done.is_ok() {
        held.saved.set(n as usize);
    }
    done
}

fn answer_of(done: Result<(), Outer>) -> Keep
    ensures { result ≡ attempts.answer_of done }
{
    match done {
        Ok(()) => Keep::Saved,
        Err(Outer::Fault) => Keep::Fault,
        Err(Outer::NoMemory) => Keep::NoMemory,
    }
}

/// Puts a node's package into the store on the desk under a name, where its dependencies are in it
/// or kept.
pub(crate) fn attempt<S: Store, M: Ways>(
    alloc: Global,
    plan: &Plan,
    kept: &Kept,
    held: &mut Held<S>,
    n: u32,
    name: &Result<Text, NoMemory>,
    file: &[u8],
) -> Keep
    requires node { n < length plan.now.jobs }
    requires room { (length held.old.saved ≡ length plan.now.jobs)
        × (length held.old.tried ≡ length plan.now.jobs) }
    requires wanted { (is_kept kept.now n ≡ false) × (is_ignored plan.now n ≡ false) }
    requires name { IfOk name.now (λ text. text ≡ file_of plan.now n) }
    requires right { IsRight M.tells M.runs plan.now kept.now n file.now }
    ensures { (o : Origin) → o.plan ≡ plan.now → o.kept ≡ kept.now
        → IsSound (lore S.tells S.content S.journal S.faults M.tells M.runs) o held.old
        → attempts.Attempted (lore S.tells S.content S.journal S.faults M.tells M.runs) o n
        held.old held.new result }
{
    if let Some(node) = least_open(plan, kept, &held.saved, n) {
        return Keep::Later { node };
    }
    let Ok(name) = name else {
        return Keep::NoMemory;
    };
    answer_of(put_in(alloc, held, n, name, file))
}
