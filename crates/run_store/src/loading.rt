// The reading of a store and of the recipes that its packages are held against.
ghost use Rattle.std.specs.Prelude.{◌≡◌, false, length, IsTrue, IfOk};
ghost use Rattle.outside.specs.Changes.{IsUnchanged};
ghost use Rattle.outside.specs.Faults.{IsCaused, err_is};
ghost use Rattle.pkg_store.specs.Loading.{loaded_in, names_in};
ghost use Rattle.run_answer.specs.Kind.{blames_store, blames_tree};
ghost use Rattle.run_answer.specs.Steps.{Tells};
ghost use Rattle.run_store.specs.Sifting as sifting;
ghost use Rattle.run_store.specs.Told as told;
ghost use Rattle.tree_index.specs.Faults.{refused_as};

use bulk_base::Texts;
use bulk_model::{Plan, Recipes};
use outside::{Store, Tree};
use pkg_store::{Loaded, StoreError, load_all, package_names};
use plan_maker::recipes;
use run_answer::{Answer, tree_answer};
use stale_check::held;
use std::alloc::Global;
use tree_index::Index;

/// How a refusal of a store's reading is told.
fn load_answer(fault: StoreError) -> Answer
    ensures { result ≡ told.load_answer fault }
{
    match fault {
        StoreError::Fault => Answer::StoreFault,
        StoreError::Limit { which, count } => Answer::Limit { which, count },
        StoreError::NoMemory => Answer::NoMemory,
    }
}

/// A store read as packages.
pub(crate) fn load_packages<S: Store>(alloc: Global, store: &mut S) -> Result<Loaded, Answer>
    ensures told { IsTrue S.tells → Tells
        (refused_as told.load_answer (loaded_in (S.content store.old))) result }
    ensures answers { told.IsOfLoading result }
    ensures same { IsUnchanged (S.content store.old) (S.content store.new)
        (S.journal store.old) (S.journal store.new) }
    ensures cause { IsCaused (S.faults store.old) (S.faults store.new) (err_is blames_store result) }
{
    match load_all(alloc, store) {
        Ok(loaded) => Ok(loaded),
        Err(fault) => Err(load_answer(fault)),
    }
}

/// The names of a store's package files.
pub(crate) fn load_names<S: Store>(alloc: Global, store: &mut S) -> Result<Texts, Answer>
    ensures told { IsTrue S.tells → Tells
        (refused_as told.load_answer (names_in (S.content store.old))) result }
    ensures answers { told.IsOfLoading result }
    ensures same { IsUnchanged (S.content store.old) (S.content store.new)
        (S.journal store.old) (S.journal store.new) }
    ensures cause { IsCaused (S.faults store.old) (S.faults store.new) (err_is blames_store result) }
{
    match package_names(alloc, store) {
        Ok(names) => Ok(names),
        Err(fault) => Err(load_answer(fault)),
    }
}

/// The recipes of the nodes of the tree that a store holds packages of, over the plan's base root.
pub(crate) fn read_recipes<T: Tree>(
    alloc: Global,
    tree: &mut T,
    index: &Index,
    plan: &Plan,
    loaded: &Loaded,
) -> Result<Recipes, Answer>
    ensures recipes { IsTrue T.tells → IfOk result (λ found. found
        ≡ sifting.held_recipes (T.content tree.old) index.now plan.now.base loaded.now) }
    ensures places { IfOk result (λ found. length found.digests ≡ length index.now.nodes) }
    ensures answers { told.IsOfRecipes result }
    ensures same { T.content tree.new ≡ T.content tree.old }
    ensures cause { IsCaused (T.faults tree.old) (T.faults tree.new) (err_is blames_tree result) }
{
    let nodes = held(alloc, index, loaded)?;
    match recipes(alloc, tree, index, plan, &nodes) {
        Ok(found) => Ok(found),
        Err(outer) => Err(tree_answer(outer)),
    }
}
