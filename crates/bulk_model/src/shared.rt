// A value with several holders, seen as the value.
ghost use Rattle.std.specs.Prelude.{◌≡◌, IfOk};

use bulk_base::NoMemory;
use std::alloc::Global;
use std::marker::Model;
use std::sync::Arc;

/// An `Arc` that contracts see as the value that it holds, so that two holders of one value are equal.
#[derive(Debug, Drop)]
pub struct Shared<T> {
    inner: Arc<T>,
}

impl<T> Model for Shared<T> {
    ghost use Rattle.std.specs.Arc.{arc_value};

    ghost Value = { T };

    ghost coded = { T.code };

    ghost view = { λ s. arc_value s.inner };
}

impl<T> Shared<T> {
    /// The value that is held.
    pub fn get(&self) -> &T
        ensures { result.now ≡ self.now }
    {
        &self.inner
    }
}

impl<T: Drop> Shared<T> {
    /// A first holder of a value.
    pub fn new(alloc: Global, value: T) -> Result<Shared<T>, NoMemory>
        ensures { IfOk result (λ s. s ≡ value) }
    {
        Ok(Shared {
            inner: Arc::new(alloc, value)?,
        })
    }

    /// One more holder of the same value.
    pub fn share(&self) -> Result<Shared<T>, NoMemory>
        ensures { IfOk result (λ s. s ≡ self.now) }
    {
        Ok(Shared {
            inner: Arc::try_clone(&self.inner)?,
        })
    }
}
