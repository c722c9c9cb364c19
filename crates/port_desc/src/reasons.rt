// Why a port is not built.
ghost use Rattle.std.specs.Prelude.{◌≡◌, [], codes, IfOk, IsTrue};
ghost use Rattle.std.specs.Option.{option_copied};
ghost use Rattle.std.specs.FinMap as map;
ghost use Rattle.bulk_base.specs.Text.{is_plain_text};
ghost use Rattle.port_desc.specs.Reasons as reasons;

use crate::values::{joined, value_for};
use bulk_base::{NoMemory, Text};
use port_vars::Vars;
use std::alloc::Global;

/// Why a port is not built, by each of the variables that may say so.
#[derive(Drop)]
pub(crate) struct Reasons {
    pub(crate) ignore: Option<Text>,
    pub(crate) forbidden: Option<Text>,
    pub(crate) broken: Option<Text>,
}

/// The text of a reason: some words, then the variable's value.
fn reason_for(
    alloc: Global,
    vars: &Vars,
    flavor: Option<&Text>,
    words: &[u8],
    name: &[u8],
) -> Result<Option<Text>, NoMemory>
    requires words { IsTrue (is_plain_text words.now) }
    requires name { IsTrue (is_plain_text name.now) }
    ensures { IfOk result (λ text. text ≡ reasons.reason_for (map.get vars.now) (option_copied flavor.entry) words.now name.now) }
{
    match value_for(alloc, vars, flavor, name)? {
        Some(value) => Ok(Some(joined(alloc, words, value.bytes())?)),
        None => Ok(None),
    }
}

/// The texts of all reasons.
pub(crate) fn reasons_for(
    alloc: Global,
    vars: &Vars,
    flavor: Option<&Text>,
) -> Result<Reasons, NoMemory>
    ensures ignore { IfOk result (λ r. r.ignore ≡ reasons.reason_for (map.get vars.now) (option_copied flavor.entry) [] (codes "IGNORE")) }
    ensures forbidden { IfOk result (λ r.
        r.forbidden ≡ reasons.reason_for (map.get vars.now) (option_copied flavor.entry) (codes "is forbidden: ") (codes "FORBIDDEN")) }
    ensures broken { IfOk result (λ r.
        r.broken ≡ reasons.reason_for (map.get vars.now) (option_copied flavor.entry) (codes "is marked as broken: ") (codes "BROKEN")) }
{
    Ok(Reasons {
        ignore: reason_for(alloc, vars, flavor, b"", b"IGNORE")?,
        forbidden: reason_for(alloc, vars, flavor, b"is forbidden: ", b"FORBIDDEN")?,
        broken: reason_for(alloc, vars, flavor, b"is marked as broken: ", b"BROKEN")?,
    })
}
