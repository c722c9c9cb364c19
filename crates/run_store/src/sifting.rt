// What of a store goes, and what stays for a plan.
ghost use Rattle.std.specs.Prelude.{◌≡◌, false, length, IsTrue, IfOk};
ghost use Rattle.bulk_model.specs.Fit.{FitsKept};
ghost use Rattle.bulk_model.specs.Trees.{IsOrderly};
ghost use Rattle.outside.specs.Changes.{IsUnchanged};
ghost use Rattle.outside.specs.Faults.{IsCaused, err_is};
ghost use Rattle.pkg_store.specs.Loading.{loaded_in};
ghost use Rattle.run_answer.specs.Kind.{blames_store, blames_tree};
ghost use Rattle.run_answer.specs.Steps.{Tells};
ghost use Rattle.run_store.specs.Sifting as steps;
ghost use Rattle.run_store.specs.Told as told;
ghost use Rattle.stale_check.specs.Kept.{kept_among};
ghost use Rattle.tree_index.specs.Faults.{refused_as};

use crate::keeping::keep_among;
use crate::leaving::leave;
use crate::loading::{load_names, load_packages, read_recipes};
use bulk_base::{NoMemory, Sequence};
use bulk_model::{Kept, Packages, Plan, Recipes, Stales};
use outside::{Store, Tree};
use pkg_store::Loaded;
use run_answer::Answer;
use stale_check::{ask_for_all, find_gone};
use std::alloc::Global;
use tree_index::Index;

/// What of a store goes, and what stays.
#[derive(Debug, Drop)]
pub struct Sifted {
    /// The files that go, by name, each with its reason.
    pub deleted: Stales,
    /// The packages that stay at the plan's nodes.
    pub kept: Kept,
    /// All packages that stay, in the order of their files' names.
    pub left: Packages,
}

/// What goes and what stays of a store that was read, by the recipes of the nodes that it holds.
fn sift_loaded(
    alloc: Global,
    index: &Index,
    plan: &Plan,
    asked: &[u32],
    loaded: &Loaded,
    recipes: &Recipes,
) -> Result<Sifted, NoMemory>
    requires places { length recipes.now.digests ≡ length index.now.nodes }
    requires over { steps.IsOverSome index.now plan.now }
    requires orderly { IsOrderly plan.now }
    ensures sifted { IfOk result (λ sifted. sifted
        ≡ steps.sifted index.now plan.now asked.now loaded.now recipes.now) }
    ensures fits { IfOk result (λ sifted. FitsKept plan.now sifted.kept) }
{
    // kept packages fit the plan by what holds of every index and of every plan
    let _ = &index.nodes;
    let _ = &plan.jobs;
    let gone = find_gone(alloc, index, loaded, asked, recipes)?;
    let left = leave(alloc, loaded.packages.as_slice(), &gone.lost)?;
    let kept = keep_among(alloc, plan, &left)?;
    Ok(Sifted {
        deleted: gone.files,
        kept,
        left,
    })
}

/// What of a store goes, and what stays for a plan (docs/FORMATS.md, "Stale packages"): the store is
/// read, the recipes of the nodes that it has packages of are taken of the tree, and each package is
/// held against its node of the index. `asked` are the numbers of nodes whose packages go because
/// they were asked for. All packages of the store are looked at, needed or not; what stays fits
/// the plan, of which the index has to be the index.
///
/// Limit of StoreNames, then Limit of StoreBytes, as `load_all` of pkg_store has them; StoreFault
/// where the store failed, and after the store was read TreeFault where the tree failed; NoMemory for
/// want of memory alone. Nothing of tree and store is changed.
///
/// Costs what `load_all`, `recipes` of plan_maker for these nodes and `find_gone` of stale_check
/// cost, and O(log m) comparisons for each of m packages that stay and for each node of the plan.
#[tactic(auto, unfolding(crate::specs::Sifting::sift_step))]
pub fn sift_store<T: Tree, S: Store>(
    alloc: Global,
    tree: &mut T,
    store: &mut S,
    index: &Index,
    plan: &Plan,
    asked: &[u32],
) -> Result<Sifted, Answer>
    requires over { steps.IsOverSome index.now plan.now }
    requires orderly { IsOrderly plan.now }
    // what goes and what stays, over a tree and a store that tell
    ensures told { IsTrue T.tells → IsTrue S.tells → Tells
        (steps.sift_step (T.content tree.old) (S.content store.old) index.now plan.now asked.now) result }
    // over a store that tells: a limit just where it has to be refused
    ensures refuses { IsTrue S.tells → told.Refuses
        (refused_as told.load_answer (loaded_in (S.content store.old))) result }
    // over every tree and store
    ensures kept { IfOk result (λ sifted. sifted.kept ≡ kept_among plan.now sifted.left) }
    ensures fits { IfOk result (λ sifted. FitsKept plan.now sifted.kept) }
    ensures answers { told.IsOfStore result }
    // tree and store
    ensures tree { T.content tree.new ≡ T.content tree.old }
    ensures same { IsUnchanged (S.content store.old) (S.content store.new)
        (S.journal store.old) (S.journal store.new) }
    ensures tree_cause { IsCaused (T.faults tree.old) (T.faults tree.new) (err_is blames_tree result) }
    ensures store_cause { IsCaused (S.faults store.old) (S.faults store.new) (err_is blames_store result) }
{
    let loaded = load_packages(alloc, store)?;
    let recipes = read_recipes(alloc, tree, index, plan, &loaded)?;
    Ok(sift_loaded(alloc, index, plan, asked, &loaded, &recipes)?)
}

/// The same where all packages go because all were asked for: each package file goes, none is read,
/// and none stays.
///
/// Limit of StoreNames as `package_names` of pkg_store has it; StoreFault where the store failed;
/// NoMemory for want of memory alone. The store is not changed. One listing and copies of the names.
#[tactic(auto, unfolding(crate::specs::Sifting::sift_all_step))]
pub fn sift_all<S: Store>(alloc: Global, store: &mut S, plan: &Plan) -> Result<Sifted, Answer>
    // what goes, over a store that tells
    ensures told { IsTrue S.tells → Tells
        (steps.sift_all_step (S.content store.old) plan.now) result }
    // over every store
    ensures kept { IfOk result (λ sifted. sifted.kept ≡ kept_among plan.now sifted.left) }
    ensures fits { IfOk result (λ sifted. FitsKept plan.now sifted.kept) }
    ensures answers { told.IsOfLoading result }
    // the store
    ensures same { IsUnchanged (S.content store.old) (S.content store.new)
        (S.journal store.old) (S.journal store.new) }
    ensures cause { IsCaused (S.faults store.old) (S.faults store.new) (err_is blames_store result) }
{
    let names = load_names(alloc, store)?;
    let left = Sequence::new(alloc);
    Ok(Sifted {
        deleted: ask_for_all(alloc, names.as_slice())?,
        kept: keep_among(alloc, plan, &left)?,
        left,
    })
}
