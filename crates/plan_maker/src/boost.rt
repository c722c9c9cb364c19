// Which nodes are built before others.
ghost use Rattle.std.specs.Prelude.{◌≡◌, ◌≤◌, ◌<◌, length, map, take, true, slice_index, slice_set, IfOk, if◌then◌else◌};
ghost use Rattle.std.specs.List.{list_any};
ghost use Rattle.plan_maker.specs.Boosts as boosts;
ghost use Rattle.plan_maker.specs.Jobs as jobs;
ghost use Rattle.plan_maker.specs.Nodes.{AreNodes};

use crate::finding::node_at;
use bulk_base::{NoMemory, Text, words};
use bulk_model::Flags;
use conf_file::matches;
use std::alloc::Global;
use tree_index::Index;

/// Where the last `-` of a name stands, or 0.
fn last_dash(name: &[u8]) -> usize
    ensures within { result ≤ length name.now }
    ensures dash { 0 < result → (result < length name.now) × (slice_index name.now result ≡ 45) }
    ensures base { take result name.now ≡ boosts.base_name name.now }
{
    let mut at = name.len();
    while at > 0 {
        at -= 1;
        if name[at] == b'-' {
            return at;
        }
    }
    0
}

/// A package's name without its version: what stands before the last `-`.
fn base_name(alloc: Global, name: &Text) -> Result<Text, NoMemory>
    ensures { IfOk result (λ base. base ≡ boosts.base_name name.now) }
{
    let bytes = name.bytes();
    Text::of(alloc, &bytes[..last_dash(bytes)])
}

/// Whether a pattern matches a name.
fn is_match(pattern: &Text, name: &Text) -> bool
    ensures { result ≡ boosts.is_match pattern.now name.now }
{
    matches(pattern, name)
}

/// Whether one of some patterns matches a name.
fn is_matched(patterns: &[Text], name: &Text) -> bool
    ensures { result ≡ list_any (λ pattern. boosts.is_match pattern name.now) patterns.now }
{
    patterns.iter().any(|pattern| is_match(pattern, name))
}

/// Marks a node where a test holds.
fn mark_where(marks: &mut Flags, at: usize, holds: bool)
    requires { at < length marks.old }
    ensures { marks.new ≡ (if holds then slice_set marks.old at true else marks.old) }
{
    if holds {
        marks.set(at);
    }
}

/// A mark at each of some nodes whose package's name, without its version, a word of PRIORITY_BOOST matches. Each word is tried
/// at each node.
pub(crate) fn boosted(
    alloc: Global,
    index: &Index,
    nodes: &[u32],
    boost: &Text,
) -> Result<Flags, NoMemory>
    requires { AreNodes index.now nodes.now }
    ensures { IfOk result (λ marks. marks ≡ map (λ n. boosts.is_boosted boost.now (jobs.node_at index.now n).desc.name) nodes.now) }
{
    let patterns = words(alloc, boost)?;
    let mut marks = Flags::none(alloc, nodes.len())?;
    for at in 0..nodes.len() {
        let base = base_name(alloc, &node_at(index, nodes[at]).desc.name)?;
        mark_where(&mut marks, at, is_matched(patterns.as_slice(), &base));
    }
    Ok(marks)
}
