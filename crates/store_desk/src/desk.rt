// The desk and its seats.
use crate::rule::Rule;
use crate::view::{Held, Key, View};
use atomic_table::{Badge, Table};
use bulk_model::{Flags, Kept, Plan, Shared};
use outside::{Store, Ways};
use std::alloc::Global;
use std::marker::{Model, PhantomData};

/// What a closed desk gives: the store, and which nodes' packages were saved in it.
pub struct Desked<S> {
    /// The store.
    pub store: S,
    /// The nodes whose packages were saved.
    pub saved: Flags,
}

/// Want of memory. The store comes back as it was.
#[derive(Drop)]
pub struct DeskRefused<S> {
    /// The store.
    pub store: S,
}

/// A store that builders share by turns: a package is put only where its dependencies are in the
/// store or kept. Any number of steps at once keep its rule (docs/STORE_DESK.md).
///
/// S is the store, which need not be one that can be dropped; M says what rooms tell. Contracts see
/// the desk's table, and what it is about. A desk is not dropped: `close` ends it and gives the
/// store back.
pub struct Desk<S: Store, M: Ways> {
    pub(crate) table: Table<Option<Held<S>>, View, Key<S>, Rule<S, M>, Global>,
    pub(crate) plan: Shared<Plan>,
    pub(crate) kept: Shared<Kept>,
}

impl<S: Store, M: Ways> Model for Desk<S, M> {
    ghost use Rattle.std.specs.Prelude.{◌≡◌};
    ghost use Rattle.store_desk.specs.Told.{lore, origin_of};
    ghost use Rattle.store_desk.specs.Seats.{Site};
    ghost use Rattle.store_desk.specs.contracts.view.Origin as origin;
    ghost use Rattle.std.specs.Coded.{codes};
    ghost use Rattle.atomic_table.specs.Seated.{table_id_coded};

    ghost Value = { Site };

    ghost coded = { Prim.hlevel (codes, table_id_coded, origin.the_row.coded) };

    ghost view = { λ d. record {
      id = d.table.shared.table_id;
      origin = origin_of (lore S.tells S.content S.journal S.faults M.tells M.runs)
          d.table.shared.key;
    } };

    ghost invariant = { λ d.
        (d.table.shared.table_id.words ≡ 1) × (d.table.shared.table_id.slots ≡ 1)
        × (d.plan ≡ d.table.shared.key.plan.value)
        × (d.kept ≡ d.table.shared.key.kept.value) };
}

/// A builder's seat at a desk. Contracts see the desk's table and what the seat knows. A seat is
/// not dropped: `join` puts it into another, and `close` takes the last.
pub struct DeskSeat<M: Ways> {
    pub(crate) badge: Badge<View>,
    pub(crate) ways: PhantomData<M>,
}

impl<M: Ways> Model for DeskSeat<M> {
    ghost use Rattle.store_desk.specs.Seats.{Sits, IsRested, front};
    ghost use Rattle.store_desk.specs.contracts.view.View as known;
    ghost use Rattle.std.specs.Coded.{codes};
    ghost use Rattle.atomic_table.specs.Seated.{table_id_coded};

    ghost Value = { Sits };

    ghost coded = { Prim.hlevel (codes, table_id_coded, known.the_row.coded) };

    ghost view = { λ s. record { id = s.badge.table_id; view = front s.badge.views } };

    ghost invariant = { λ s. IsRested s.badge.views };
}
