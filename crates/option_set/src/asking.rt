// The options that are asked for.
ghost use Rattle.std.specs.Prelude.{◌≡◌, IfOk};
ghost use Rattle.option_set.specs.Layers as layers_of;
ghost use Rattle.option_set.specs.Stack.{layered_switches};

use crate::layers::Layers;
use crate::stack::Stack;
use bulk_base::{NoMemory, Sequence, Switch, Switches, Text, Texts};
use std::alloc::Global;

/// Names with whether each is on after the layers.
fn apply_layers(alloc: Global, names: &[Text], stack: &Stack) -> Result<Switches, NoMemory>
    ensures { IfOk result (λ switches. switches ≡ layered_switches stack.now names.now) }
{
    let mut found = Sequence::new(alloc);
    for name in names {
        found.push(Switch {
            name: name.copy(alloc)?,
            on: stack.turns_on(name),
        })?;
    }
    Ok(found)
}

/// Each option of a list with whether it is on after the port's default and the layers above it, in the list's order: on by
/// the last layer that names it, and off where that layer names it both on and off (bsd.options.mk). Names that are not in
/// the list are ignored.
///
/// NoMemory for want of memory alone. O(log n) comparisons for each of the n words.
pub fn asked(
    alloc: Global,
    options: &Texts,
    default: &Texts,
    layers: &Layers,
) -> Result<Switches, NoMemory>
    ensures { IfOk result (λ switches. switches ≡ layers_of.asked options.now default.now layers.now) }
{
    let stack = Stack::new(alloc, default, layers)?;
    apply_layers(alloc, options.as_slice(), &stack)
}
