// Builders at a gate.
use crate::memory::{Gate, MeetGate};
use case_text::{CaseError, number_of, push_str};
use std::alloc::AllocError;
use std::thread::{Threads, join};

fn push_met(out: &mut Vec<u8>, gate: &MeetGate) -> Result<(), AllocError> {
    push_str(out, if gate.met() { "met" } else { "alone" })
}

/// Whether two builders came to a gate which these passed one after another on one thread. The gate holds the first for so
/// many turns.
pub(crate) fn answer_gate(limit: &str, builders: &str, out: &mut Vec<u8>) -> Result<(), CaseError> {
    let gate = MeetGate::new(number_of(limit)?);
    for builder in builders.split(' ') {
        match u32::try_from(number_of(builder)?) {
            Ok(builder) => gate.pass(builder, 0),
            Err(_) => return Err(CaseError::Unfit),
        }
    }
    Ok(push_met(out, &gate)?)
}

/// Two builders pass at once, on a thread each.
fn meet<W: Threads>(rt: &W, gate: &MeetGate) {
    let _ = join(rt, || gate.pass(0, 0), || gate.pass(1, 1));
}

/// The same of two builders that pass at once, on a thread each.
pub(crate) fn answer_meeting<W: Threads>(
    rt: &W,
    limit: &str,
    out: &mut Vec<u8>,
) -> Result<(), CaseError> {
    let gate = MeetGate::new(number_of(limit)?);
    meet(rt, &gate);
    Ok(push_met(out, &gate)?)
}
