// The table, its seats and its tickets.
ghost use Rattle.std.specs.Prelude.{◌≡◌, ◌<◌, length};

use crate::rule::Rule;
use crate::view::{Key, View};
use atomic_table::{Seat as TableSeat, Table as AtomicTable};
use bulk_model::{Kept, Outcome, Plan, Shared};
use outside::Ways;
use std::alloc::Global;
use std::marker::Model;
use std::snapshot::Snapshot;

/// A table of a plan's nodes: from it builders claim nodes, each once, and in it they leave what
/// came of them. Builders share it by `&` and step with seats of their own. Any number of steps at
/// once keep its rule (docs/CLAIM_TABLE.md).
///
/// M says what rooms tell; where they tell, an outcome in the table is what one builder gives.
/// Contracts see which table it is, and what it is about. A table is not dropped: `close` ends it.
pub struct Table<M: Ways> {
    pub(crate) table: AtomicTable<Option<Outcome>, View, Key, Rule<M>, Global>,
    pub(crate) plan: Shared<Plan>,
    pub(crate) kept: Shared<Kept>,
    pub(crate) room: Vec<Option<Outcome>>,
}

impl<M: Ways> Model for Table<M> {
    ghost use Rattle.std.specs.Prelude.{◌≡◌, [], vec_capacity};
    ghost use Rattle.claim_table.specs.Told.{task_of};
    ghost use Rattle.claim_table.specs.Seats.{Site};
    ghost use Rattle.claim_table.specs.Inside.{IsSetUp};
    ghost use Rattle.claim_table.specs.contracts.view.Task as about;
    ghost use Rattle.std.specs.Coded.{codes};
    ghost use Rattle.atomic_table.specs.Seated.{table_id_coded};

    ghost Value = { Site };

    ghost coded = { Prim.hlevel (codes, table_id_coded, about.the_row.coded) };

    ghost view = { λ t. record {
      id = t.table.shared.table_id;
      task = task_of t.table.shared.key;
    } };

    ghost invariant = { λ t.
        IsSetUp t.table.shared.table_id (task_of t.table.shared.key) t.plan t.kept
        (vec_capacity t.room)
        × (t.room.items ≡ []) };
}

/// A builder's seat at a table, with which it steps. Contracts see which table it is of, and what
/// the seat knows. A seat is not dropped: `join` puts it into another, and `close` takes the last.
pub struct Seat {
    pub(crate) inner: TableSeat<Option<Outcome>, View>,
}

impl Model for Seat {
    ghost use Rattle.claim_table.specs.Seats.{Sits};
    ghost use Rattle.claim_table.specs.Inside.{IsRested};
    ghost use Rattle.claim_table.specs.contracts.view.View as known;
    ghost use Rattle.std.specs.Coded.{codes};
    ghost use Rattle.atomic_table.specs.Seated.{table_id_coded};

    ghost Value = { Sits };

    ghost coded = { Prim.hlevel (codes, table_id_coded, known.the_row.coded) };

    ghost view = { λ s. record { id = s.inner.table_id; view = s.inner.me.0 } };

    ghost invariant = { λ s. IsRested s.inner.me };
}

/// A claim that has to be ended, by `end` or `drop_claim`. Contracts see its node, which is one of
/// the plan, and what its table is about.
pub struct Ticket {
    pub(crate) node: u32,
    pub(crate) plan: Snapshot<Plan>,
    pub(crate) kept: Snapshot<Kept>,
}

impl Model for Ticket {
    ghost use Rattle.std.specs.Prelude.{◌<◌, length};
    ghost use Rattle.claim_table.specs.Seats.{Stub};
    ghost use Rattle.claim_table.specs.contracts.view.Task as about;
    ghost use Rattle.std.specs.Coded.{codes, coded_ℕ};

    ghost Value = { Stub };

    ghost coded = { Prim.hlevel (codes, coded_ℕ, about.the_row.coded) };

    ghost view = { λ t. record {
      node = t.node;
      task = record { plan = t.plan.value; kept = t.kept.value };
    } };

    ghost invariant = { λ t. t.node < length t.plan.value.jobs };
}

impl Ticket {
    /// The claimed node, which is one of the plan. Takes no memory.
    pub fn node(&self) -> u32
        ensures exact { result ≡ self.now.node }
        ensures inside { result < length self.now.task.plan.jobs }
    {
        self.node
    }
}
