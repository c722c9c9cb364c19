// Where a name leads by MOVED.
ghost use Rattle.std.specs.Prelude.{◌≡◌, IfOk};
ghost use Rattle.moved_list.specs.Walk as walk_of;
ghost use Rattle.moved_list.specs.Walk.{by_line, leads_to, Leads};
ghost use Rattle.moved_list.specs.Moved.{last_line};

use crate::chain::{Chain, Follow, Step};
use crate::moved::Moved;
use bulk_base::{NoMemory, Text};
use port_name::Names;
use std::alloc::Global;

/// What the last line of a name says of it.
fn by_last_line(alloc: Global, moved: &Moved, name: &Text) -> Result<Step, NoMemory>
    ensures { IfOk result (λ step. step ≡ by_line (last_line moved.now name.now)) }
{
    match moved.last_line(name) {
        None => Ok(Step::End(Follow::Absent)),
        Some(line) => match &line.to {
            None => Ok(Step::End(Follow::Gone {
                reason: line.reason.copy(alloc)?,
            })),
            Some(next) => Ok(Step::Next(next.copy(alloc)?)),
        },
    }
}

fn step(
    alloc: Global,
    names: &Names,
    moved: &Moved,
    chain: &Chain,
    name: &Text,
) -> Result<Step, NoMemory>
    ensures { IfOk result (λ step. step ≡ walk_of.step names.now moved.now chain.now name.now) }
{
    if chain.has(name) {
        return Ok(Step::End(Follow::Circle {
            origins: chain.from_first(alloc, name)?,
        }));
    }
    if !names.holds(name) {
        return by_last_line(alloc, moved, name);
    }
    if chain.is_empty() {
        return Ok(Step::End(Follow::Here));
    }
    Ok(Step::End(Follow::At(name.copy(alloc)?)))
}

/// Follows a name by MOVED until a name that is there, one that was removed, one that no line has, or one that comes a
/// second time. Of several lines with one old name the last counts (Porter's Handbook, "MOVED"; docs/FORMATS.md).
///
/// NoMemory for want of memory alone. The chain's length times O(log n) comparisons.
pub fn follow(alloc: Global, moved: &Moved, name: &Text, names: &Names) -> Result<Follow, NoMemory>
    ensures answer { IfOk result (λ found. found ≡ leads_to names.now moved.now name.now) }
    ensures leads { IfOk result (Leads names.now moved.now name.now) }
{
    let mut chain = Chain::new(alloc);
    let mut current = name.copy(alloc)?;
    for _ in 0..moved.lines().len() + 1 {
        match step(alloc, names, moved, &chain, &current)? {
            Step::End(answer) => return Ok(answer),
            Step::Next(next) => {
                chain = chain.with(alloc, current)?;
                current = next;
            }
        }
    }
    unreachable!()
}
