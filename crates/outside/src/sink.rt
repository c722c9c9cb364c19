// Where printed text goes.
ghost use Rattle.std.specs.Prelude.{ℕ, Bool, List, IsTrue};
ghost use Rattle.outside.specs.Outcomes.{Wrote};
ghost use Rattle.outside.specs.Faults.{HasCause};

use crate::outer::Outer;
use std::alloc::Global;

/// Where printed text goes.
pub trait Sink {
    /// Whether `written` is what was written.
    ghost tells: { Bool };

    /// The bytes that were written, where its type tells them.
    ghost written: { Self → List ℕ };

    /// How often the sink has failed.
    ghost faults: { Self → ℕ };

    /// Writes a piece whole. After an error a prefix of it was written.
    fn write(&mut self, alloc: Global, bytes: &[u8]) -> Result<(), Outer>
        ensures told { IsTrue tells → Wrote bytes.now (written self.old) (written self.new) result }
        ensures cause { HasCause (faults self.old) (faults self.new) result };
}
