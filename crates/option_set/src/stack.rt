// The layers as sets of names.
ghost use Rattle.std.specs.Prelude.{◌≡◌, ℕ, List, Bool, IfOk};
ghost use Rattle.option_set.specs.Layers.{layered, on_by_layers};
ghost use Rattle.option_set.specs.Stack.{on_in};

use crate::layers::Layers;
use bulk_base::{NoMemory, Text, Texts, copies};
use port_name::Names;
use std::alloc::Global;

/// One layer.
#[derive(Drop)]
pub(crate) struct Layer {
    set: Names,
    unset: Names,
}

/// A port's default and the layers above it.
#[derive(Drop)]
pub(crate) struct Stack {
    default: Names,
    global: Layer,
    port: Layer,
    file: Layer,
}

fn layer_of(alloc: Global, set: &Texts, unset: &Texts) -> Result<Layer, NoMemory>
    ensures { IfOk result (λ l. (below : Bool) (name : List ℕ) → layered l.set l.unset below name ≡ layered set.now unset.now below name) }
{
    Ok(Layer {
        set: Names::new(alloc, copies(alloc, set.as_slice())?)?,
        unset: Names::new(alloc, copies(alloc, unset.as_slice())?)?,
    })
}

impl Layer {
    fn over(&self, below: bool, name: &Text) -> bool
        ensures { result ≡ layered self.now.set self.now.unset below name.now }
    {
        !self.unset.holds(name) && (self.set.holds(name) || below)
    }
}

impl Stack {
    pub(crate) fn new(alloc: Global, default: &Texts, layers: &Layers) -> Result<Stack, NoMemory>
        ensures { IfOk result (λ s. (name : List ℕ) → on_in s name ≡ on_by_layers default.now layers.now name) }
    {
        Ok(Stack {
            default: Names::new(alloc, copies(alloc, default.as_slice())?)?,
            global: layer_of(alloc, &layers.global_set, &layers.global_unset)?,
            port: layer_of(alloc, &layers.port_set, &layers.port_unset)?,
            file: layer_of(alloc, &layers.file_set, &layers.file_unset)?,
        })
    }

    /// Whether a name is on after the last layer. O(log n) comparisons.
    pub(crate) fn turns_on(&self, name: &Text) -> bool
        ensures { result ≡ on_in self.now name.now }
    {
        let below = self.global.over(self.default.holds(name), name);
        self.file.over(self.port.over(below, name), name)
    }
}
