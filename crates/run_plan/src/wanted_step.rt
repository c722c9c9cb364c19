// The nodes that a run wants.
ghost use Rattle.std.specs.Prelude.{◌≡◌, ◌<◌, ◌≤◌, true, false, IsTrue, IfOk, IfSome, [], length, unwrap_or};
ghost use Rattle.std.specs.Option.{option_copied};
ghost use Rattle.std.specs.List.{AllByRecursion};
ghost use Rattle.std.specs.List.Sorted.{IsStrictlySortedBy};
ghost use Rattle.std.specs.Ordering.{nat_cmp};
ghost use Rattle.bulk_base.specs.Path.{is_path};
ghost use Rattle.bulk_model.specs.Limits.{most};
ghost use Rattle.bulk_model.specs.declared.which.Which.TheVariants.{FileBytes};
ghost use Rattle.outside.specs.Faults.{IsCaused, err_is};
ghost use Rattle.port_vars.specs.Assignment.{mapped};
ghost use Rattle.run_answer.specs.Kind.{blames_tree, is_of_reading, is_refusal};
ghost use Rattle.run_answer.specs.Steps.{IsOfReading, Tells};
ghost use Rattle.run_plan.specs.Answering.{is_of_command};
ghost use Rattle.run_plan.specs.Steps as steps;

use crate::told::wanted_answer;
use bulk_base::{Path, PathError, Text};
use bulk_model::Which;
use command_words::PortWords;
use origin_flavor::{Wanted, wanted};
use outside::Tree;
use run_answer::{Answer, tree_answer};
use std::alloc::Global;
use tree_index::Index;

// There is no such list; NoMemory where the word cannot be copied.
fn no_list(alloc: Global, word: &Text) -> Answer
    ensures told { is_refusal result ≡ true → result ≡ Answer.NoList word.now }
    ensures reading { is_of_reading result ≡ true }
    ensures files { is_of_command result ≡ false }
    ensures quiet { blames_tree result ≡ false }
{
    match word.copy(alloc) {
        Ok(path) => Answer::NoList { path },
        Err(_) => Answer::NoMemory,
    }
}

// A list with these bytes, of which no more than one is read beyond the most.
fn list_with(bytes: Vec<u8>) -> Result<Vec<u8>, Answer>
    ensures told { Tells (steps.list_with bytes.items) (mapped (λ list. list.items) result) }
    ensures few { IfOk result (λ list. length list.items ≤ most FileBytes) }
    ensures reading { IsOfReading result }
    ensures files { err_is is_of_command result ≡ false }
    ensures quiet { err_is blames_tree result ≡ false }
{
    if bytes.len() as u64 > Which::FileBytes.most() {
        return Err(Answer::Limit {
            which: Which::FileBytes,
            count: Which::FileBytes.most() + 1,
        });
    }
    Ok(bytes)
}

// The list of a word that is that path.
fn list_in<T: Tree>(
    alloc: Global,
    tree: &mut T,
    word: &Text,
    path: &Path,
) -> Result<Vec<u8>, Answer>
    requires same { path.now ≡ word.now }
    requires form { is_path word.now ≡ true }
    ensures told { IsTrue T.tells → Tells (steps.list_at (T.content tree.old) word.now) (mapped
        (λ list. list.items) result) }
    ensures few { IfOk result (λ list. length list.items ≤ most FileBytes) }
    ensures reading { IsOfReading result }
    ensures files { err_is is_of_command result ≡ false }
    ensures same { T.content tree.new ≡ T.content tree.old }
    ensures cause { IsCaused (T.faults tree.old) (T.faults tree.new) (err_is blames_tree result) }
{
    match tree.bytes(alloc, path, Which::FileBytes.most() + 1) {
        Ok(Some(bytes)) => list_with(bytes),
        Ok(None) => Err(no_list(alloc, word)),
        Err(outer) => Err(tree_answer(outer)),
    }
}

// The list of the word behind `-f`.
fn list_at<T: Tree>(alloc: Global, tree: &mut T, word: &Text) -> Result<Vec<u8>, Answer>
    ensures told { IsTrue T.tells → Tells (steps.list_at (T.content tree.old) word.now) (mapped
        (λ list. list.items) result) }
    ensures few { IfOk result (λ list. length list.items ≤ most FileBytes) }
    ensures reading { IsOfReading result }
    ensures files { err_is is_of_command result ≡ false }
    ensures same { T.content tree.new ≡ T.content tree.old }
    ensures cause { IsCaused (T.faults tree.old) (T.faults tree.new) (err_is blames_tree result) }
{
    match Path::from_text(alloc, word) {
        Ok(path) => list_in(alloc, tree, word, &path),
        Err(PathError::BadPath) => Err(no_list(alloc, word)),
        Err(PathError::NoMemory) => Err(Answer::NoMemory),
    }
}

// The nodes that a list, then the words want.
fn wanted_with(
    alloc: Global,
    index: &Index,
    ports: &PortWords,
    every_flavor: bool,
    path: &Text,
    list: Option<&[u8]>,
) -> Result<Wanted, Answer>
    requires path { path.now ≡ unwrap_or ports.now.list [] }
    requires few { IfSome list (λ bytes. length bytes.now ≤ most FileBytes) }
    ensures told { Tells
        (steps.wanted_with index.now ports.now every_flavor (option_copied list.entry)) result }
    ensures within { IfOk result (λ wanted. AllByRecursion
        (λ n. n < length index.now.nodes) wanted.nodes) }
    ensures order { IfOk result (λ wanted. IsStrictlySortedBy nat_cmp wanted.nodes) }
    ensures reading { IsOfReading result }
    ensures files { err_is is_of_command result ≡ false }
    ensures quiet { err_is blames_tree result ≡ false }
{
    let words = ports.origins.as_slice();
    match wanted(alloc, index, list, words, ports.all, every_flavor) {
        Ok(wanted) => Ok(wanted),
        Err(fault) => Err(wanted_answer(alloc, path, fault)),
    }
}

/// The nodes that a command's list and then its words want, or all nodes: the fourth step of a run
/// (poudriere-bulk(8), "-a" and "-f"; docs/FORMATS.md, "Wanted ports"). Under `every_flavor` an
/// origin means all its nodes.
///
/// NoList exactly where the word behind `-f` is no path, or the tree has no such file; Limit of
/// FileBytes where that has more than 4,194,304 bytes; BadList at its first line that is no text;
/// then NoOrigin, NoFlavor, Gone or MovedLoop of the first refused word, the list's before the
/// command's. TreeFault where the tree failed; NoMemory for want of memory alone. The cost is that
/// of `wanted` of origin_flavor. The tree stays as it is.
#[tactic(auto, unfolding(crate::specs::Steps::wanted_step))]
pub fn find_wanted<T: Tree>(
    alloc: Global,
    tree: &mut T,
    index: &Index,
    ports: &PortWords,
    every_flavor: bool,
) -> Result<Wanted, Answer>
    ensures told { IsTrue T.tells → Tells
        (steps.wanted_step index.now ports.now every_flavor (T.content tree.old)) result }
    ensures within { IfOk result (λ wanted. AllByRecursion
        (λ n. n < length index.now.nodes) wanted.nodes) }
    ensures order { IfOk result (λ wanted. IsStrictlySortedBy nat_cmp wanted.nodes) }
    ensures reading { IsOfReading result }
    ensures files { err_is is_of_command result ≡ false }
    ensures same { T.content tree.new ≡ T.content tree.old }
    ensures cause { IsCaused (T.faults tree.old) (T.faults tree.new) (err_is blames_tree result) }
{
    let Some(path) = &ports.list else {
        let none = Text::literal(alloc, b"")?;
        return wanted_with(alloc, index, ports, every_flavor, &none, None);
    };
    let list = list_at(alloc, tree, path)?;
    wanted_with(
        alloc,
        index,
        ports,
        every_flavor,
        path,
        Some(list.as_slice()),
    )
}
