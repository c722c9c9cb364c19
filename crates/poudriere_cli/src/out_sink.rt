// Printed text that goes to a writer, as standard output.
ghost use Rattle.std.specs.Prelude.{◌≡◌};

use crate::fault::{noted, outer};
use outside::{Outer, Sink};
use std::alloc::Global;
use std::io::Write;

/// A sink over a writer.
#[derive(Drop)]
pub struct OutSink<W: Write + Drop> {
    writer: W,
    faults: u64,
}

impl<W: Write + Drop> OutSink<W> {
    /// The sink that writes there.
    pub fn new(writer: W) -> OutSink<W>
        ensures { result.faults ≡ 0 }
    {
        OutSink { writer, faults: 0 }
    }
}

impl<W: Write + Drop> Sink for OutSink<W> {
    ghost use Rattle.std.specs.Prelude.{false, []};

    ghost tells = { false };

    ghost written = { λ _. [] };

    ghost faults = { λ s. s.faults };

    fn write(&mut self, _alloc: Global, bytes: &[u8]) -> Result<(), Outer> {
        let written = self.writer.write_all(bytes).map_err(outer);
        noted(&mut self.faults, written)
    }
}
