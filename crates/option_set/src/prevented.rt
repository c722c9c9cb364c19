// Options that are on and prevent one another.
ghost use Rattle.std.specs.Prelude.{◌≡◌, IfOk};
ghost use Rattle.port_name.specs.Sets.{is_among};
ghost use Rattle.option_set.specs.Refused as refused;

use crate::fault::OptionError;
use crate::group::among_in_order;
use crate::listed::Listed;
use crate::read::words_behind;
use bulk_base::{NoMemory, Text};
use port_vars::Vars;
use std::alloc::Global;

/// The refusal of an option that prevents another one, if there is one.
fn prevents(
    alloc: Global,
    vars: &Vars,
    on: &Listed,
    a: &Text,
) -> Result<Option<OptionError>, NoMemory>
    ensures { IfOk result (λ refusal. refusal ≡ refused.prevents vars.now (is_among on.now) a.now) }
{
    let words = words_behind(alloc, vars, a.bytes(), b"_PREVENTS")?;
    let prevented = among_in_order(alloc, words.as_slice(), on)?;
    match prevented.get(0) {
        None => Ok(None),
        Some(b) => Ok(Some(OptionError::Prevented {
            a: a.copy(alloc)?,
            b: b.copy(alloc)?,
        })),
    }
}

/// The refusal of the first option that is on and prevents another one that is. Each word is looked up once.
pub(crate) fn first_prevented(
    alloc: Global,
    vars: &Vars,
    on: &Listed,
) -> Result<Option<OptionError>, NoMemory>
    ensures { IfOk result (λ refusal. refusal ≡ refused.first_some (refused.prevents vars.now (is_among on.now)) on.now) }
{
    for a in on.as_slice() {
        if let Some(refusal) = prevents(alloc, vars, on, a)? {
            return Ok(Some(refusal));
        }
    }
    Ok(None)
}
