// Ports built, their packages stored, and the text that says so.
ghost use Rattle.std.specs.Prelude.{◌≡◌, ◌≤◌, ◌⊎◌, ◌++◌, true, false, length, IsTrue, IfOk, OnOk, OnErr};
ghost use Rattle.outside.specs.Changes.{IsUnchanged};
ghost use Rattle.outside.specs.Faults.{IsCaused, err_is};
ghost use Rattle.one_port.specs.Causes.{is_refusal, blames_tree, blames_store, blames_room};
ghost use Rattle.one_port.specs.Decided.{IsInner};
ghost use Rattle.one_port.specs.Report.{stored_all};
ghost use Rattle.one_port.specs.PortsWanted.{names_of};
ghost use Rattle.one_port.specs.PortsRun.{Reports, AreBuildsOf, HasStoredFirst, KeepsFirst, RanPorts};
ghost use Rattle.one_port.specs.Ending.{BeganFirst};

use crate::answer::Answer;
use crate::outcome_store::store_outcomes;
use crate::port_builds::{Outcomes, build_ports};
use crate::port_lists::{port_lists, setback};
use crate::ports_wanted::Decision;
use bulk_model::{Job, Notice, Outcome};
use outside::{Outer, Room, Store};
use std::alloc::Global;

/// What a run that ended prints, and its exit status.
#[derive(Drop)]
pub(crate) struct Report {
    /// The process's exit status.
    pub(crate) status: u8,
    /// The lists.
    pub(crate) text: Vec<u8>,
}

// Builds all ports in the room.
fn build_all<R: Room>(alloc: Global, room: &mut R, jobs: &[Job]) -> Result<Outcomes, Answer>
    ensures builds { IfOk result (AreBuildsOf R.Ways.tells R.Ways.runs jobs.now) }
    ensures cause { IsCaused (R.faults room.old) (R.faults room.new) (err_is blames_room result) }
    ensures tree { err_is blames_tree result ≡ false }
    ensures store { err_is blames_store result ≡ false }
    ensures inner { IsInner result }
    ensures refusal { err_is is_refusal result ≡ false }
    ensures begun { OnOk result (R.begun room.new ≡ R.begun room.old ++ names_of jobs.now) }
    ensures begun_err { OnErr result (BeganFirst jobs.now (R.begun room.old) (R.begun room.new)) }
{
    match build_ports(alloc, room, jobs) {
        Ok(outcomes) => Ok(outcomes),
        Err(Outer::Fault) => Err(Answer::RoomFault { builder: 0 }),
        Err(Outer::NoMemory) => Err(Answer::NoMemory),
    }
}

// Puts all that was built into the store.
fn store_all<S: Store>(alloc: Global, store: &mut S, outcomes: &[Outcome]) -> Result<(), Answer>
    ensures told { IsTrue S.tells → OnOk result (S.content store.new ≡ stored_all outcomes.now (S.content store.old)) }
    ensures left { IsTrue S.tells → KeepsFirst outcomes.now (S.content store.old) (S.content store.new) }
    ensures cause { IsCaused (S.faults store.old) (S.faults store.new) (err_is blames_store result) }
    ensures tree { err_is blames_tree result ≡ false }
    ensures room { err_is blames_room result ≡ false }
    ensures inner { IsInner result }
    ensures refusal { err_is is_refusal result ≡ false }
{
    match store_outcomes(alloc, store, outcomes) {
        Ok(()) => Ok(()),
        Err(Outer::Fault) => Err(Answer::StoreFault),
        Err(Outer::NoMemory) => Err(Answer::NoMemory),
    }
}

// The lists of a run that built some ports.
fn ports_report(
    alloc: Global,
    jobs: &[Job],
    notices: &[Notice],
    outcomes: &[Outcome],
) -> Result<Report, Answer>
    requires { length outcomes.now ≡ length jobs.now }
    ensures told { IfOk result (Reports jobs.now notices.now outcomes.now) }
    ensures tree { err_is blames_tree result ≡ false }
    ensures store { err_is blames_store result ≡ false }
    ensures room { err_is blames_room result ≡ false }
    ensures inner { IsInner result }
    ensures refusal { err_is is_refusal result ≡ false }
    ensures status { IfOk result (λ r. r.status ≤ 1) }
{
    match port_lists(alloc, jobs, notices, outcomes) {
        Ok(text) => Ok(Report {
            status: setback(outcomes),
            text,
        }),
        Err(_) => Err(Answer::NoMemory),
    }
}

/// Builds ports in the room, one after another, then stores their packages and says so.
///
/// Nothing is put into the store before all of them are built.
pub(crate) fn run_ports<S: Store, R: Room>(
    alloc: Global,
    store: &mut S,
    room: &mut R,
    ports: &Decision,
) -> Result<Report, Answer>
    ensures whole { IsTrue S.tells → IfOk result (RanPorts R.Ways.tells R.Ways.runs ports.now.jobs ports.now.notices (S.content store.old) (S.content store.new) (R.begun room.old) (R.begun room.new)) }
    ensures left { IsTrue S.tells → (S.content store.new ≡ S.content store.old) ⊎ HasStoredFirst R.Ways.tells R.Ways.runs ports.now.jobs (S.content store.old) (S.content store.new) }
    ensures same { err_is blames_room result ≡ true → IsUnchanged (S.content store.old) (S.content store.new) (S.journal store.old) (S.journal store.new) }
    ensures tree { err_is blames_tree result ≡ false }
    ensures store { IsCaused (S.faults store.old) (S.faults store.new) (err_is blames_store result) }
    ensures room { IsCaused (R.faults room.old) (R.faults room.new) (err_is blames_room result) }
    ensures inner { IsInner result }
    ensures refusal { err_is is_refusal result ≡ false }
    ensures begun { BeganFirst ports.now.jobs (R.begun room.old) (R.begun room.new) }
    ensures status { IfOk result (λ r. r.status ≤ 1) }
{
    let jobs = ports.jobs.as_slice();
    match build_all(alloc, room, jobs) {
        Err(answer) => Err(answer),
        Ok(outcomes) => match store_all(alloc, store, outcomes.as_slice()) {
            Err(answer) => Err(answer),
            Ok(()) => ports_report(alloc, jobs, ports.notices.as_slice(), outcomes.as_slice()),
        },
    }
}
