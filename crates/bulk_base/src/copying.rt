// Copies of texts and of switches.
ghost use Rattle.std.specs.Prelude.{◌≡◌, ◌++◌, IfOk, OnOk};
ghost use Rattle.std.specs.Option.{option_copied};

use crate::file::{Switch, Switches};
use crate::sequence::{NoMemory, Sequence};
use crate::text::{Text, Texts};
use std::alloc::Global;

/// A copy of a text, if there is one. Costs its bytes.
pub fn copy_of(alloc: Global, text: Option<&Text>) -> Result<Option<Text>, NoMemory>
    ensures { IfOk result (λ copied. copied ≡ option_copied text.entry) }
{
    match text {
        Some(text) => Ok(Some(text.copy(alloc)?)),
        None => Ok(None),
    }
}

/// Puts copies of texts at the end of a list, in their order. Costs their bytes.
pub fn add_copies(alloc: Global, texts: &[Text], found: &mut Texts) -> Result<(), NoMemory>
    ensures { OnOk result (found.new ≡ found.old ++ texts.now) }
{
    for text in texts {
        found.push(text.copy(alloc)?)?;
    }
    Ok(())
}

/// Copies of texts, in their order. Costs their bytes.
pub fn copies(alloc: Global, texts: &[Text]) -> Result<Texts, NoMemory>
    ensures { IfOk result (λ copies. copies ≡ texts.now) }
{
    let mut found = Sequence::new(alloc);
    add_copies(alloc, texts, &mut found)?;
    Ok(found)
}

/// Copies of switches, in their order. Costs the bytes of their names.
pub fn switch_copies(alloc: Global, switches: &[Switch]) -> Result<Switches, NoMemory>
    ensures { IfOk result (λ copies. copies ≡ switches.now) }
{
    let mut found = Sequence::new(alloc);
    for switch in switches {
        found.push(Switch {
            name: switch.name.copy(alloc)?,
            on: switch.on,
        })?;
    }
    Ok(found)
}
