// The entries of the lists: each a node with its package's name, or a file with a reason.
ghost use Rattle.std.specs.Prelude.{◌≡◌, ◌<◌, ◌++◌, length, map, IfOk, OnOk};
ghost use Rattle.std.specs.List.{All};
ghost use Rattle.std.specs.Option.{option_to_list};
ghost use Rattle.std.specs.String.{string_bytes};
ghost use Rattle.bulk_model.specs.Lists as model;
ghost use Rattle.bulk_model.specs.PlanView.{node_at};
ghost use Rattle.status_lists.specs.Entries.{entry, entry_in, entries_in};
ghost use Rattle.status_lists.specs.Fates.{NamesNode};

use crate::fate::{Fate, Part};
use bulk_base::NoMemory;
use bulk_model::{Phase, Plan, Reason, Stale};
use std::alloc::Global;

fn phase_word(phase: Phase) -> &'static str
    ensures { result.now ≡ model.phase_word phase }
{
    match phase {
        Phase::Depends => "depends",
        Phase::Extract => "extract",
        Phase::Patch => "patch",
        Phase::Configure => "configure",
        Phase::Build => "build",
        Phase::Stage => "stage",
        Phase::Package => "package",
    }
}

fn reason_word(reason: Reason) -> &'static str
    ensures { result.now ≡ model.reason_word reason }
{
    match reason {
        Reason::Damaged => "damaged",
        Reason::OldRecord => "old-record",
        Reason::Asked => "asked",
        Reason::NoPort => "no-port",
        Reason::Ignored => "ignored",
        Reason::NewName => "new-name",
        Reason::NewOptions => "new-options",
        Reason::NewDepends => "new-depends",
        Reason::NewRecipe => "new-recipe",
        Reason::MissingDepend => "missing-depend",
    }
}

/// A node: its port's origin, or the origin, `@` and its flavor.
fn node(alloc: Global, plan: &Plan, n: usize) -> Result<String, NoMemory>
    requires { n < length plan.now.jobs }
    ensures { IfOk result (λ text. string_bytes text ≡ node_at plan.now n) }
{
    let job = &plan.jobs.as_slice()[n];
    match &job.flavor {
        Some(flavor) => Ok(format!(in alloc; "{}@{}", job.origin, flavor)?),
        None => Ok(String::from_str(alloc, job.origin.as_str())?),
    }
}

/// A node with its package's name.
fn node_words(alloc: Global, plan: &Plan, n: usize) -> Result<String, NoMemory>
    requires { n < length plan.now.jobs }
    ensures { IfOk result (λ text. string_bytes text ≡ model.node_words plan.now n) }
{
    let node = node(alloc, plan, n)?;
    let job = &plan.jobs.as_slice()[n];
    Ok(format!(in alloc; "{node} {}", job.name)?)
}

/// Why a node is ignored; nothing where it is not.
fn ignored_words(alloc: Global, plan: &Plan, n: usize) -> Result<String, NoMemory>
    requires { n < length plan.now.jobs }
    ensures { IfOk result (λ text. string_bytes text ≡ model.reason_at plan.now n) }
{
    match &plan.ignored.as_slice()[n] {
        Some(reason) => Ok(String::from_str(alloc, reason.as_str())?),
        None => Ok(String::new(alloc)),
    }
}

/// A node with its package's name, and what its list tells beside.
fn entry(alloc: Global, plan: &Plan, n: usize, fate: Fate) -> Result<String, NoMemory>
    requires node { n < length plan.now.jobs }
    requires cause { NamesNode (length plan.now.jobs) fate }
    ensures { IfOk result (λ text. string_bytes text ≡ entry plan.now n fate) }
{
    let words = node_words(alloc, plan, n)?;
    match fate {
        Fate::Kept | Fate::Built => Ok(words),
        Fate::Failed { phase, code } => {
            let phase = phase_word(phase);
            Ok(format!(in alloc; "{words} {phase} {code}")?)
        }
        Fate::Ignored => {
            let reason = ignored_words(alloc, plan, n)?;
            Ok(format!(in alloc; "{words} {reason}")?)
        }
        Fate::Skipped { cause } => {
            let cause = node(alloc, plan, cause as usize)?;
            Ok(format!(in alloc; "{words} because {cause}")?)
        }
    }
}

/// Puts a node's entry at the end of a list, where it stands in this list.
fn push_entry(
    alloc: Global,
    entries: &mut Vec<String>,
    part: Part,
    plan: &Plan,
    n: usize,
    fate: Fate,
) -> Result<(), NoMemory>
    requires node { n < length plan.now.jobs }
    requires cause { NamesNode (length plan.now.jobs) fate }
    ensures { OnOk result (map string_bytes entries.new.items
        ≡ map string_bytes entries.old.items ++ option_to_list (entry_in part plan.now n fate)) }
{
    if fate.is_in(part) {
        entries.push(entry(alloc, plan, n, fate)?)?;
    }
    Ok(())
}

/// The entries of a list of nodes, in node order.
pub(crate) fn entries(
    alloc: Global,
    part: Part,
    plan: &Plan,
    fates: &[Fate],
) -> Result<Vec<String>, NoMemory>
    requires size { length fates.now ≡ length plan.now.jobs }
    requires causes { All (NamesNode (length plan.now.jobs)) fates.now }
    ensures { IfOk result (λ entries.
        map string_bytes entries.items ≡ entries_in part plan.now fates.now) }
{
    let mut entries = Vec::new(alloc);
    for n in 0..plan.jobs.len() {
        push_entry(alloc, &mut entries, part, plan, n, fates[n])?;
    }
    Ok(entries)
}

/// Nodes with their packages' names, in the order given.
pub(crate) fn named(alloc: Global, plan: &Plan, numbers: &[u32]) -> Result<Vec<String>, NoMemory>
    requires { All (λ n. n < length plan.now.jobs) numbers.now }
    ensures { IfOk result (λ entries.
        map string_bytes entries.items ≡ map (model.node_words plan.now) numbers.now) }
{
    let mut entries = Vec::new(alloc);
    for n in numbers {
        entries.push(node_words(alloc, plan, *n as usize)?)?;
    }
    Ok(entries)
}

/// A file of the store with the reason why it goes.
fn stale_entry(alloc: Global, stale: &Stale) -> Result<String, NoMemory>
    ensures { IfOk result (λ text. string_bytes text ≡ model.stale_entry stale.now) }
{
    let reason = reason_word(stale.reason);
    let file = &stale.file;
    Ok(format!(in alloc; "{file} {reason}")?)
}

/// Files of the store, each with its reason, in the order given.
pub(crate) fn stale_entries(alloc: Global, stales: &[Stale]) -> Result<Vec<String>, NoMemory>
    ensures { IfOk result (λ entries.
        map string_bytes entries.items ≡ map model.stale_entry stales.now) }
{
    let mut entries = Vec::new(alloc);
    for stale in stales {
        entries.push(stale_entry(alloc, stale)?)?;
    }
    Ok(entries)
}
