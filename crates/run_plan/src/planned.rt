// What a run plans.
ghost use Rattle.std.specs.Prelude.{◌≡◌, false, Ok, IsTrue, IfOk};
ghost use Rattle.bulk_model.specs.Trees.{IsOrderly};
ghost use Rattle.outside.specs.Faults.{IsCaused, err_is};
ghost use Rattle.plan_maker.specs.Over.{IsOver};
ghost use Rattle.run_answer.specs.Kind.{blames_tree};
ghost use Rattle.run_answer.specs.Steps.{IsOfReading, Tells};
ghost use Rattle.run_plan.specs.Answering.{AnswersWords, IsAskedBy, counts_rooms, may_lack, is_of_command, is_usage, lacks_rooms};
ghost use Rattle.run_plan.specs.Planned as specs;
ghost use Rattle.run_plan.specs.Settings.{builders_step};
ghost use Rattle.run_plan.specs.Words.{words_step};

use crate::builders::{asked_builders, check_builders};
use crate::plan_step::make_plan;
use crate::settings::{Settings, read_settings};
use crate::tree_step::index_tree;
use crate::wanted_step::find_wanted;
use crate::words::read_bulk;
use bulk_base::Text;
use bulk_model::{Notices, Numbers, Plan};
use command_words::{BulkWords, Clean};
use outside::Tree;
use run_answer::Answer;
use std::alloc::Global;
use tree_index::Index;

/// What a run plans: all that its later steps need of words and tree.
#[derive(Drop)]
pub struct Planned {
    /// Which packages of the store are to be built anew.
    pub clean: Clean,
    /// Whether nothing is to be changed.
    pub dry_run: bool,
    /// How many builders are asked for.
    pub builders: u64,
    /// The index of the tree.
    pub index: Index,
    /// The wanted nodes, by their numbers in the index, ascending.
    pub wanted: Numbers,
    /// What is told of the words that moved.
    pub notices: Notices,
    /// The plan of the wanted nodes and all that they lead to.
    pub plan: Plan,
}

// The steps behind the settings.
#[tactic(auto, unfolding(crate::specs::Planned::planned_by))]
fn plan_settled<T: Tree>(
    alloc: Global,
    tree: &mut T,
    words: &BulkWords,
    settings: &Settings,
    builders: u64,
) -> Result<Planned, Answer>
    ensures told { IsTrue T.tells → Tells
        (specs.planned_by words.now settings.now builders (T.content tree.old)) result }
    ensures over { IfOk result (λ planned. IsOver planned.index planned.wanted planned.plan) }
    ensures orderly { IfOk result (λ planned. IsOrderly planned.plan) }
    ensures asked { IfOk result (λ planned. (planned.clean ≡ words.now.clean)
        × (planned.dry_run ≡ words.now.dry_run) × (planned.builders ≡ builders)) }
    ensures reading { IsOfReading result }
    ensures files { err_is is_of_command result ≡ false }
    ensures same { T.content tree.new ≡ T.content tree.old }
    ensures cause { IsCaused (T.faults tree.old) (T.faults tree.new) (err_is blames_tree result) }
{
    let conf = &settings.conf;
    let index = index_tree(alloc, tree, &settings.make, words.try_broken)?;
    let found = find_wanted(alloc, tree, &index, &words.ports, conf.flavor_all)?;
    let plan = make_plan(alloc, tree, &index, &found.nodes, &conf.boost)?;
    Ok(Planned {
        clean: words.clean,
        dry_run: words.dry_run,
        builders,
        index,
        wanted: found.nodes,
        notices: found.notices,
        plan,
    })
}

// The steps behind the words.
#[tactic(auto, unfolding(crate::specs::Planned::planned_of))]
fn plan_words<T: Tree>(
    alloc: Global,
    tree: &mut T,
    words: &BulkWords,
    rooms: Option<u64>,
) -> Result<Planned, Answer>
    ensures told { IsTrue T.tells → Tells
        (specs.planned_of words.now (T.content tree.old) rooms) result }
    ensures over { IfOk result (λ planned. IsOver planned.index planned.wanted planned.plan) }
    ensures orderly { IfOk result (λ planned. IsOrderly planned.plan) }
    ensures asked { IfOk result (λ planned. (planned.clean ≡ words.now.clean)
        × (planned.dry_run ≡ words.now.dry_run)
        × (builders_step rooms planned.dry_run planned.builders ≡ Ok planned.builders)) }
    ensures reading { IsOfReading result }
    ensures usage { err_is is_usage result ≡ false }
    ensures rooms { may_lack rooms words.now.dry_run ≡ false
        → err_is lacks_rooms result ≡ false }
    ensures same { T.content tree.new ≡ T.content tree.old }
    ensures cause { IsCaused (T.faults tree.old) (T.faults tree.new) (err_is blames_tree result) }
{
    let settings = read_settings(alloc, tree)?;
    let asked = asked_builders(words.builders, settings.conf.jobs);
    let builders = check_builders(rooms, words.dry_run, asked)?;
    plan_settled(alloc, tree, words, &settings, builders)
}

/// What the words of `bulk` plan over a tree (poudriere-bulk(8)): words, settings, tree, wanted
/// nodes and plan, one after another, each as the call of this crate for it says, and the first
/// refusal of them:
///
/// 1. `read_bulk`: Usage
/// 2. `read_settings`: BadConf of `etc/poudriere.conf`, then of `etc/make.conf`; then
/// `check_builders`: Builders
/// 3. `index_tree`: BadPort, Limit, DupName
/// 4. `find_wanted`, by FLAVOR_DEFAULT_ALL: NoList, Limit of FileBytes, BadList, then NoOrigin,
/// NoFlavor, Gone, MovedLoop
/// 5. `make_plan`, by PRIORITY_BOOST: NoDepend, MovedDepend, Limit, Loop, BadPort, BadDist
///
/// `rooms` is the number of rooms where builders are to be checked against it, which a dry run does
/// not. TreeFault only where the tree's count of faults rose, at the step whose call failed;
/// NoMemory for want of memory alone. The tree stays as it is.
#[tactic(auto, unfolding(crate::specs::Planned::planned))]
pub fn plan_run<T: Tree>(
    alloc: Global,
    tree: &mut T,
    words: &[Text],
    rooms: Option<u64>,
) -> Result<Planned, Answer>
    // the answer, over a tree that tells
    ensures told { IsTrue T.tells → Tells
        (specs.planned words.now (T.content tree.old) rooms) result }
    // over every tree: the plan is over the index, in order, and it is for what the words ask
    ensures over { IfOk result (λ planned. IsOver planned.index planned.wanted planned.plan) }
    ensures orderly { IfOk result (λ planned. IsOrderly planned.plan) }
    ensures asked { IfOk result (IsAskedBy words.now rooms) }
    // over every tree: what words and rooms alone decide, and no answer of another command
    ensures words { AnswersWords (words_step words.now) result }
    ensures rooms { counts_rooms rooms (words_step words.now) ≡ false
        → err_is lacks_rooms result ≡ false }
    ensures reading { IsOfReading result }
    // the tree
    ensures same { T.content tree.new ≡ T.content tree.old }
    ensures cause { IsCaused (T.faults tree.old) (T.faults tree.new) (err_is blames_tree result) }
{
    let asked = read_bulk(alloc, words)?;
    plan_words(alloc, tree, &asked, rooms)
}
