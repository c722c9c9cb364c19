// The text of lists: each part is put behind those before it.
ghost use Rattle.std.specs.Prelude.{◌≡◌, ◌<◌, ◌++◌, length, map, OnOk};
ghost use Rattle.std.specs.List.{All, flat_map};
ghost use Rattle.std.specs.String.{string_bytes};
ghost use Rattle.bulk_model.specs.Lists as model;
ghost use Rattle.status_lists.specs.Entries.{entries_in};
ghost use Rattle.status_lists.specs.Fates.{NamesNode};

use crate::entries::{entries, named, stale_entries};
use crate::fate::{Fate, Part};
use bulk_base::NoMemory;
use bulk_model::{Notice, Plan, Stale};
use std::alloc::Global;

/// A line for each notice: the word, and the name that it led to.
pub(crate) fn push_notices(
    alloc: Global,
    text: &mut String,
    notices: &[Notice],
) -> Result<(), NoMemory>
    ensures { OnOk result (string_bytes text.new
        ≡ string_bytes text.old ++ flat_map model.notice_line notices.now) }
{
    for notice in notices {
        let line = format!(in alloc; "moved {} {}\n", notice.word, notice.name)?;
        text.push_str(line.as_str())?;
    }
    Ok(())
}

/// A heading with the number of its entries, and a line for each of them.
fn push_list(
    alloc: Global,
    text: &mut String,
    heading: &str,
    entries: &[String],
) -> Result<(), NoMemory>
    ensures { OnOk result (string_bytes text.new
        ≡ string_bytes text.old ++ model.listed heading.now (map string_bytes entries.now)) }
{
    let count = entries.len();
    let first = format!(in alloc; "{heading} {count}\n")?;
    text.push_str(first.as_str())?;
    for entry in entries {
        let line = format!(in alloc; "  {entry}\n")?;
        text.push_str(line.as_str())?;
    }
    Ok(())
}

/// The list of files that go.
pub(crate) fn push_stale(
    alloc: Global,
    text: &mut String,
    heading: &str,
    stales: &[Stale],
) -> Result<(), NoMemory>
    ensures { OnOk result (string_bytes text.new
        ≡ string_bytes text.old ++ model.listed heading.now (map model.stale_entry stales.now)) }
{
    let entries = stale_entries(alloc, stales)?;
    push_list(alloc, text, heading, entries.as_slice())
}

/// A list of nodes in node order.
pub(crate) fn push_part(
    alloc: Global,
    text: &mut String,
    heading: &str,
    part: Part,
    plan: &Plan,
    fates: &[Fate],
) -> Result<(), NoMemory>
    requires size { length fates.now ≡ length plan.now.jobs }
    requires causes { All (NamesNode (length plan.now.jobs)) fates.now }
    ensures { OnOk result (string_bytes text.new
        ≡ string_bytes text.old ++ model.listed heading.now (entries_in part plan.now fates.now)) }
{
    let entries = entries(alloc, part, plan, fates)?;
    push_list(alloc, text, heading, entries.as_slice())
}

/// A list of nodes in the order given.
pub(crate) fn push_named(
    alloc: Global,
    text: &mut String,
    heading: &str,
    plan: &Plan,
    numbers: &[u32],
) -> Result<(), NoMemory>
    requires { All (λ n. n < length plan.now.jobs) numbers.now }
    ensures { OnOk result (string_bytes text.new ≡ string_bytes text.old
        ++ model.listed heading.now (map (model.node_words plan.now) numbers.now)) }
{
    let entries = named(alloc, plan, numbers)?;
    push_list(alloc, text, heading, entries.as_slice())
}

/// The number of the plan's nodes.
pub(crate) fn push_total(alloc: Global, text: &mut String, plan: &Plan) -> Result<(), NoMemory>
    ensures { OnOk result (string_bytes text.new
        ≡ string_bytes text.old ++ model.total_line plan.now) }
{
    let total = plan.jobs.len();
    let line = format!(in alloc; "total {total}\n")?;
    text.push_str(line.as_str())?;
    Ok(())
}
