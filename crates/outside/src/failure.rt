// Which calls of an object in memory fail, and how many did.
ghost use Rattle.std.specs.Prelude.{◌≡◌, ◌<◌, ◌^◌, []};
ghost use Rattle.outside.specs.Failures.{fails_next, counted, fresh};

use bulk_base::Sequence;
use std::marker::Model;

/// A kind of call of a tree, a store, a room or a sink.
#[derive(Clone, Copy, Debug, PartialEq, Eq)]
pub enum CallKind {
    /// `names` of a tree, a store or a room.
    Names,
    /// `bytes` of a tree.
    Bytes,
    /// `get` of a store.
    Get,
    /// `put` of a store or a room.
    Put,
    /// `remove` of a store.
    Remove,
    /// `clear` of a room.
    Clear,
    /// `run` of a room.
    Run,
    /// `take` of a room.
    Take,
    /// `write` of a sink.
    Write,
}

/// A call that fails: of the calls of one kind the one with this number, counted from 1.
#[derive(Clone, Copy, Debug, PartialEq, Eq)]
pub struct Fail {
    /// The kind of call.
    pub call: CallKind,
    /// Which of its kind.
    pub number: u32,
}

/// A list of calls that fail.
pub type Fails = Sequence<Fail>;

/// The calls of an object in memory that are planned to fail, how many of each kind there were, and how many failed.
///
/// The counts stand still at the last value of 64 bits. Where no call is planned to fail, none failed.
#[derive(Debug, Drop)]
pub struct Failures {
    planned: Fails,
    calls: [u64; 9],
    faults: u64,
}

impl Model for Failures {
    ghost use Rattle.std.specs.Prelude.{◌≡◌, []};
    ghost use Rattle.outside.specs.Failures.{Failing};

    ghost Value = { Failing };

    ghost view = { λ f. record { planned = f.planned; calls = f.calls; faults = f.faults } };

    ghost invariant = { λ f. f.planned ≡ [] → f.faults ≡ 0 };
}

// The place of a kind of call in a list of counts.
fn place_of(call: CallKind) -> usize
    ensures place { result ≡ Rattle.outside.specs.Failures.place_of call }
    ensures small { result < 9 }
{
    match call {
        CallKind::Names => 0,
        CallKind::Bytes => 1,
        CallKind::Get => 2,
        CallKind::Put => 3,
        CallKind::Remove => 4,
        CallKind::Clear => 5,
        CallKind::Run => 6,
        CallKind::Take => 7,
        CallKind::Write => 8,
    }
}

// Whether the call of this kind with this number is planned to fail.
fn is_planned(planned: &Fails, place: usize, number: u64) -> bool
    ensures { result ≡ Rattle.outside.specs.Failures.is_planned place number planned.now }
{
    planned.iter().any(|fail| place_of(fail.call) == place && u64::from(fail.number) == number)
}

impl Failures {
    /// These calls are planned to fail; none was made.
    pub fn new(planned: Fails) -> Failures
        ensures { result ≡ fresh planned }
    {
        Failures {
            planned,
            calls: [0; 9],
            faults: 0,
        }
    }

    /// The calls that are planned to fail.
    pub fn planned(&self) -> &[Fail]
        ensures { result.now ≡ self.now.planned }
    {
        self.planned.as_slice()
    }

    /// Counts a call of a kind, and says whether it fails.
    pub fn fails(&mut self, call: CallKind) -> bool
        ensures planned { result ≡ fails_next call self.old }
        ensures counted { self.new ≡ counted call self.old }
        ensures small { self.old.faults < 2 ^ 64 }
    {
        let place = place_of(call);
        let number = self.calls[place].saturating_add(1);
        self.calls[place] = number;
        let failed = is_planned(&self.planned, place, number);
        if failed {
            self.faults = self.faults.saturating_add(1);
        }
        failed
    }

    /// How many calls failed: none where none was planned to.
    pub fn faults(&self) -> u64
        ensures count { result ≡ self.now.faults }
        ensures none { self.now.planned ≡ [] → result ≡ 0 }
    {
        self.faults
    }
}
