// The numbers of the nodes that words mean.
ghost use Rattle.std.specs.Prelude.{◌≡◌, ◌||◌, ◌&&◌, ◌<◌, ◌^◌, ℕ, List, length, map, filter, IfOk};
ghost use Rattle.port_name.specs.Sets.{is_among};
ghost use Rattle.tree_index.specs.Places as places;
ghost use Rattle.origin_flavor.specs.Nodes as nodes;
ghost use Rattle.origin_flavor.specs.Nodes.{wanted_numbers};

use crate::answer::Answer;
use crate::word::asks_all;
use bulk_base::{NoMemory, Sequence, Texts};
use bulk_model::Numbers;
use port_name::Names;
use std::alloc::Global;
use tree_index::{NodeInfo, origin_name};

/// What is wanted, by the names that words mean.
#[derive(Drop)]
struct Meant {
    /// Whether all nodes are wanted, whatever the words mean.
    all: bool,
    /// Those of all words.
    names: Names,
    /// Those of the words that ask for all flavors.
    with_flavors: Names,
}

/// The names that words mean.
fn list_names(alloc: Global, answers: &[Answer]) -> Result<Texts, NoMemory>
    ensures { IfOk result (λ found. found ≡ map (λ answer. answer.name) answers.now) }
{
    let mut found = Sequence::new(alloc);
    for answer in answers {
        found.push(answer.name.copy(alloc)?)?;
    }
    Ok(found)
}

/// The names that the words mean that ask for all flavors.
fn list_flavored_names(
    alloc: Global,
    every_flavor: bool,
    answers: &[Answer],
) -> Result<Texts, NoMemory>
    ensures { IfOk result (λ found. found ≡ map (λ answer. answer.name) (filter (nodes.asks_every every_flavor) answers.now)) }
{
    let mut found = Sequence::new(alloc);
    for answer in answers {
        if every_flavor || asks_all(&answer.word) {
            found.push(answer.name.copy(alloc)?)?;
        }
    }
    Ok(found)
}

/// The names that words mean, as sets.
fn gather_names(
    alloc: Global,
    answers: &[Answer],
    all: bool,
    every_flavor: bool,
) -> Result<Meant, NoMemory>
    ensures all { IfOk result (λ meant. meant.all ≡ all) }
    ensures names { IfOk result (λ meant. (name : List ℕ) → is_among meant.names name ≡ is_among (map (λ answer. answer.name) answers.now) name) }
    ensures flavors { IfOk result (λ meant. (name : List ℕ) → is_among meant.with_flavors name ≡ is_among (map (λ answer. answer.name) (filter (nodes.asks_every every_flavor) answers.now)) name) }
{
    Ok(Meant {
        all,
        names: Names::new(alloc, list_names(alloc, answers)?)?,
        with_flavors: Names::new(alloc, list_flavored_names(alloc, every_flavor, answers)?)?,
    })
}

/// Whether a node is wanted.
fn is_wanted(alloc: Global, meant: &Meant, node: &NodeInfo) -> Result<bool, NoMemory>
    ensures { IfOk result (λ found. found ≡ (meant.now.all || (is_among meant.now.names node.now.node
        || ((node.now.is_default && is_among meant.now.names (places.origin_name node.now.origin)) || is_among meant.now.with_flavors (places.origin_name node.now.origin))))) }
{
    if meant.all || meant.names.holds(&node.node) {
        return Ok(true);
    }
    let origin = origin_name(alloc, &node.origin)?;
    Ok((node.is_default && meant.names.holds(&origin)) || meant.with_flavors.holds(&origin))
}

/// The numbers of the nodes that are wanted. Each node costs at most three look-ups among the
/// names that the words mean.
pub(crate) fn wanted_numbers(
    alloc: Global,
    nodes: &[NodeInfo],
    answers: &[Answer],
    all: bool,
    every_flavor: bool,
) -> Result<Numbers, NoMemory>
    requires { length nodes.now < 2 ^ 32 }
    ensures { IfOk result (λ found. found ≡ wanted_numbers all every_flavor answers.now nodes.now) }
{
    let meant = gather_names(alloc, answers, all, every_flavor)?;
    let mut found = Sequence::new(alloc);
    for at in 0..nodes.len() {
        if is_wanted(alloc, &meant, &nodes[at])? {
            found.push(at as u32)?;
        }
    }
    Ok(found)
}
