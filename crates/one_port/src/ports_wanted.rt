// What words ask for over a tree.
ghost use Rattle.std.specs.Prelude.{◌≡◌, true, false, IsTrue, IfOk};
ghost use Rattle.std.specs.List.Sorted.{IsStrictlySortedBy};
ghost use Rattle.std.specs.Ordering.{nat_cmp};
ghost use Rattle.tree_index.specs.Facts.{IsNodeInfo};
ghost use Rattle.outside.specs.Faults.{IsCaused, err_is};
ghost use Rattle.one_port.specs.Causes.{blames_tree, is_refusal};
ghost use Rattle.one_port.specs.Decided.{IsOfReading, Tells, is_of_reading};
ghost use Rattle.one_port.specs.NodeJobs.{nodes_at};
ghost use Rattle.one_port.specs.PortsWanted as specs;

use crate::answer::Answer;
use crate::make_file::read_make_at;
use crate::node_job::read_jobs;
use crate::tree_answer::{index_answer, not_yet, wanted_answer};
use crate::unserved::{first_unserved, refuse_unserved_file};
use bulk_base::Text;
use bulk_model::{Jobs, Notices};
use conf_file::MakeConf;
use origin_flavor::{Wanted, wanted};
use outside::Tree;
use std::alloc::Global;
use std::marker::Model;
use tree_index::{Index, NodeInfo, index, port_file};

/// What words ask for over a tree.
///
/// Contracts see the record of its fields. No two of the jobs have packages of one name.
#[derive(Debug, Drop)]
pub(crate) struct Decision {
    /// The ports that are built, in this order.
    pub(crate) jobs: Jobs,
    /// What is said of the words.
    pub(crate) notices: Notices,
}

impl Model for Decision {
    ghost use Rattle.std.specs.Prelude.{bytes_eq};
    ghost use Rattle.std.specs.List.{IsDistinct};
    ghost use Rattle.one_port.specs.PortsWanted.{PortsWanted, names_of};

    ghost Value = { PortsWanted };

    ghost view = { λ d. record { jobs = d.jobs; notices = d.notices } };

    ghost invariant = { λ d. IsDistinct bytes_eq (names_of d.jobs) };
}

// The index of the tree.
fn index_at<T: Tree>(alloc: Global, tree: &mut T, make: &MakeConf) -> Result<Index, Answer>
    ensures told { IsTrue T.tells → Tells (specs.index_at make.now (T.content tree.old)) result }
    ensures reading { IsOfReading result }
    ensures same { T.content tree.new ≡ T.content tree.old }
    ensures cause { IsCaused (T.faults tree.old) (T.faults tree.new) (err_is blames_tree result) }
{
    match index(alloc, tree, make, false) {
        Ok(index) => Ok(index),
        Err(fault) => Err(index_answer(alloc, fault)),
    }
}

// The nodes that the words want.
fn wanted_in(alloc: Global, index: &Index, words: &[Text]) -> Result<Wanted, Answer>
    ensures told { Tells (specs.wanted_in index.now words.now) result }
    ensures order { IfOk result (λ wanted. IsStrictlySortedBy nat_cmp wanted.nodes) }
    ensures reading { IsOfReading result }
    ensures quiet { err_is blames_tree result ≡ false }
{
    match wanted(alloc, index, None, words, false, false) {
        Ok(wanted) => Ok(wanted),
        Err(fault) => Err(wanted_answer(fault)),
    }
}

// Where a node that is not served yet is refused.
fn refusal_of_node(alloc: Global, node: &NodeInfo) -> Answer
    requires { IsNodeInfo node.now }
    ensures told { is_refusal result ≡ true → result ≡ specs.refusal_of_node node.now }
    ensures reading { is_of_reading result ≡ true }
    ensures quiet { blames_tree result ≡ false }
{
    match port_file(alloc, &node.origin) {
        Ok(path) => not_yet(alloc, path.text()),
        Err(_) => Answer::NoMemory,
    }
}

// The wanted ports, unless one of their nodes is not served yet.
fn ports_of<T: Tree>(
    alloc: Global,
    tree: &mut T,
    index: &Index,
    wanted: Wanted,
) -> Result<Decision, Answer>
    requires { IsStrictlySortedBy nat_cmp wanted.nodes }
    ensures told { IsTrue T.tells → Tells (specs.ports_of (T.content tree.old) (nodes_at index.now.nodes wanted.nodes) wanted.notices) result }
    ensures reading { IsOfReading result }
    ensures same { T.content tree.new ≡ T.content tree.old }
    ensures cause { IsCaused (T.faults tree.old) (T.faults tree.new) (err_is blames_tree result) }
{
    let nodes = index.nodes.as_slice();
    let numbers = wanted.nodes.as_slice();
    if let Some(node) = first_unserved(nodes, numbers) {
        return Err(refusal_of_node(alloc, node));
    }
    let jobs = read_jobs(alloc, tree, nodes, numbers)?;
    Ok(Decision {
        jobs,
        notices: wanted.notices,
    })
}

// The ports that words want of an indexed tree.
fn ports_by<T: Tree>(
    alloc: Global,
    tree: &mut T,
    words: &[Text],
    index: &Index,
) -> Result<Decision, Answer>
    ensures told { IsTrue T.tells → Tells (specs.ports_by (T.content tree.old) words.now index.now) result }
    ensures reading { IsOfReading result }
    ensures same { T.content tree.new ≡ T.content tree.old }
    ensures cause { IsCaused (T.faults tree.old) (T.faults tree.new) (err_is blames_tree result) }
{
    match wanted_in(alloc, index, words) {
        Ok(wanted) => ports_of(alloc, tree, index, wanted),
        Err(answer) => Err(answer),
    }
}

// The ports that words want of a tree whose make.conf says this.
fn ports_with<T: Tree>(
    alloc: Global,
    tree: &mut T,
    words: &[Text],
    make: &MakeConf,
) -> Result<Decision, Answer>
    ensures told { IsTrue T.tells → Tells (specs.ports_with (T.content tree.old) words.now make.now) result }
    ensures reading { IsOfReading result }
    ensures same { T.content tree.new ≡ T.content tree.old }
    ensures cause { IsCaused (T.faults tree.old) (T.faults tree.new) (err_is blames_tree result) }
{
    if let Err(answer) = refuse_unserved_file(alloc, tree) {
        return Err(answer);
    }
    match index_at(alloc, tree, make) {
        Ok(index) => ports_by(alloc, tree, words, &index),
        Err(answer) => Err(answer),
    }
}

/// The ports that words want of a tree, or the first refusal: of make.conf, of a file that is not served yet, of the tree,
/// of the words, of a node that is not served yet, of a file that is too large.
#[tactic(auto, unfolding(crate::specs::PortsWanted::ports_in))]
pub(crate) fn ports_in<T: Tree>(
    alloc: Global,
    tree: &mut T,
    words: &[Text],
) -> Result<Decision, Answer>
    ensures told { IsTrue T.tells → Tells (specs.ports_in (T.content tree.old) words.now) result }
    ensures reading { IsOfReading result }
    ensures same { T.content tree.new ≡ T.content tree.old }
    ensures cause { IsCaused (T.faults tree.old) (T.faults tree.new) (err_is blames_tree result) }
{
    match read_make_at(alloc, tree) {
        Ok(make) => ports_with(alloc, tree, words, &make),
        Err(answer) => Err(answer),
    }
}
