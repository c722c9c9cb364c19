// What a command asks for: the first refusal, or the ports to be built.
ghost use Rattle.std.specs.Prelude.{◌≡◌, Some, None, false, is_some, IsTrue, IfOk, OnOk, IfErr};
ghost use Rattle.std.specs.Option.{option_copied};
ghost use Rattle.outside.specs.Changes.{IsUnchanged};
ghost use Rattle.one_port.specs.Refusals.{asked_words as words_of, refusal, refusal_before_store, store_refusal, told_refusal, tree_refusal, value_of, wanted_ports};
ghost use Rattle.one_port.specs.PortsWanted as ports_wanted;
ghost use Rattle.outside.specs.Faults.{IsCaused, err_is};
ghost use Rattle.one_port.specs.Causes.{blames_tree, blames_store, blames_room};
ghost use Rattle.one_port.specs.Decided.{AnswersWords, Decides, IsInner, RunEndsInTree, is_of_tree, is_of_words};

use crate::answer::Answer;
use crate::port_store::first_package_file;
use crate::ports_wanted::{Decision, ports_in};
use bulk_base::Text;
use outside::{Outer, Store, Tree};
use std::alloc::Global;

// The words behind the command's name, where there are any.
fn asked_words(words: &[Text]) -> Option<&[Text]>
    ensures { option_copied result ≡ words_of words.now }
{
    if words.len() >= 2 && words[0].is(b"bulk") {
        Some(&words[1..])
    } else {
        None
    }
}

/// Whether the words are a command.
pub(crate) fn is_command(words: &[Text]) -> bool
    ensures { result ≡ is_some (words_of words.now) }
{
    asked_words(words).is_some()
}

// The tree's part: the first refusal that it gives cause for, or the ports to be built.
fn find_ports<T: Tree>(alloc: Global, tree: &mut T, asked: &[Text]) -> Result<Decision, Answer>
    ensures told { IsTrue T.tells → Decides (tree_refusal (T.content tree.old) asked.now) result }
    ensures before_store { IsTrue T.tells → RunEndsInTree (tree_refusal (T.content tree.old) asked.now) result }
    ensures words { err_is is_of_words result ≡ false }
    ensures ports { IsTrue T.tells → IfOk result (λ ports. value_of (ports_wanted.ports_in (T.content tree.old) asked.now) ≡ Some ports) }
    ensures cause { IsCaused (T.faults tree.old) (T.faults tree.new) (err_is blames_tree result) }
    ensures store { err_is blames_store result ≡ false }
    ensures room { err_is blames_room result ≡ false }
    ensures inner { IsInner result }
    ensures same { T.content tree.new ≡ T.content tree.old }
{
    ports_in(alloc, tree, asked)
}

// The store's part: the first package file is not served yet.
fn check_store<S: Store>(alloc: Global, store: &mut S) -> Result<(), Answer>
    ensures told { IsTrue S.tells → Decides (store_refusal (S.content store.old)) result }
    ensures cause { IsCaused (S.faults store.old) (S.faults store.new) (err_is blames_store result) }
    ensures tree { err_is blames_tree result ≡ false }
    ensures before_store { err_is is_of_tree result ≡ false }
    ensures room { err_is blames_room result ≡ false }
    ensures inner { IsInner result }
    ensures same { IsUnchanged (S.content store.old) (S.content store.new) (S.journal store.old) (S.journal store.new) }
{
    match first_package_file(alloc, store) {
        Ok(None) => Ok(()),
        Ok(Some(path)) => Err(Answer::NotYet { path }),
        Err(Outer::Fault) => Err(Answer::StoreFault),
        Err(Outer::NoMemory) => Err(Answer::NoMemory),
    }
}

/// What a command asks for: the ports to be built, or the first refusal.
pub(crate) fn decide<T: Tree, S: Store>(
    alloc: Global,
    words: &[Text],
    tree: &mut T,
    store: &mut S,
) -> Result<Decision, Answer>
    ensures told { IsTrue T.tells → IsTrue S.tells → Decides (refusal words.now (T.content tree.old) (S.content store.old)) result }
    ensures before_store { IsTrue T.tells → RunEndsInTree (refusal_before_store words.now (T.content tree.old)) result }
    ensures words { IfErr result (AnswersWords (words_of words.now)) }
    ensures unrefused { OnOk result (told_refusal T.tells S.tells words.now (T.content tree.old) (S.content store.old) ≡ None) }
    ensures ports { IsTrue T.tells → IfOk result (λ ports. wanted_ports words.now (T.content tree.old) ≡ Some ports) }
    ensures tree { IsCaused (T.faults tree.old) (T.faults tree.new) (err_is blames_tree result) }
    ensures store { IsCaused (S.faults store.old) (S.faults store.new) (err_is blames_store result) }
    ensures room { err_is blames_room result ≡ false }
    ensures inner { IsInner result }
    ensures same { IsUnchanged (S.content store.old) (S.content store.new) (S.journal store.old) (S.journal store.new) }
{
    let Some(asked) = asked_words(words) else {
        return Err(Answer::Usage);
    };
    match find_ports(alloc, tree, asked) {
        Err(answer) => Err(answer),
        Ok(ports) => match check_store(alloc, store) {
            Err(answer) => Err(answer),
            Ok(()) => Ok(ports),
        },
    }
}
