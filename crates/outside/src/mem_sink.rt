// A sink in memory.
ghost use Rattle.std.specs.Prelude.{◌≡◌, ◌++◌, ◌↔◌, true, IsTrue, IsErrOf, IfOk, OnOk, OnErr, []};
ghost use Rattle.outside.specs.Outcomes.{Wrote};
ghost use Rattle.outside.specs.Failures.{fresh, fails_next, counted};
ghost use Rattle.outside.specs.Faults.{HasCause};

use crate::failure::{CallKind, Fails, Failures};
use crate::outer::Outer;
use crate::sink::Sink;
use bulk_base::NoMemory;
use std::alloc::Global;
use std::marker::Model;

/// A sink in memory, which tells what was written and fails where it is planned to.
#[derive(Drop)]
pub struct MemSink {
    bytes: Vec<u8>,
    failures: Failures,
}

impl Model for MemSink {
    ghost use Rattle.outside.specs.InMemory.{SinkState};

    ghost Value = { SinkState };

    ghost view = { λ s. record { written = s.bytes.items; failing = s.failures } };
}

impl MemSink {
    /// A sink to which nothing was written. The calls in `fails` fail.
    pub fn new(alloc: Global, fails: Fails) -> Result<MemSink, NoMemory>
        ensures { IfOk result (λ sink. sink ≡ record { written = []; failing = fresh fails }) }
    {
        Ok(MemSink {
            bytes: Vec::new(alloc),
            failures: Failures::new(fails),
        })
    }

    /// The bytes written.
    pub fn written(&self) -> &[u8]
        ensures { result.now ≡ self.now.written }
    {
        self.bytes.as_slice()
    }

    /// How many calls failed: none where none was planned to.
    pub fn faults(&self) -> u64
        ensures count { result ≡ self.now.failing.faults }
        ensures none { self.now.failing.planned ≡ [] → result ≡ 0 }
    {
        self.failures.faults()
    }
}

impl Sink for MemSink {
    ghost tells = { true };

    ghost written = { λ sink. sink.written };

    ghost faults = { λ sink. sink.failing.faults };

    fn write(&mut self, _alloc: Global, bytes: &[u8]) -> Result<(), Outer>
        ensures told { Wrote bytes.now self.old.written self.new.written result }
        ensures ok { OnOk result (self.new.written ≡ self.old.written ++ bytes.now) }
        ensures err { OnErr result (self.new.written ≡ self.old.written) }
        ensures fault { IsErrOf result Outer.Fault ↔ IsTrue (fails_next CallKind.Write self.old.failing) }
        ensures counted { self.new.failing ≡ counted CallKind.Write self.old.failing }
        ensures cause { HasCause self.old.failing.faults self.new.failing.faults result }
    {
        if self.failures.fails(CallKind::Write) {
            return Err(Outer::Fault);
        }
        self.bytes.extend_from_slice(bytes)?;
        Ok(())
    }
}
