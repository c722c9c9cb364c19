// A turn at the desk: it is waited for, the store is taken out, and put back.
ghost use Rattle.std.specs.Prelude.{◌≡◌, ◌≤◌, true, [], ◌∷◌, Some, None};
ghost use Rattle.bulk_model.specs.Flags.{Within};
ghost use Rattle.store_desk.specs.Changes.{after_take, after_give};
ghost use Rattle.store_desk.specs.Seats.{IsRested, front};
ghost use Rattle.store_desk.specs.Steps.{TakeTurn};
ghost use Rattle.store_desk.specs.Told.{lore};
ghost use Rattle.store_desk.specs.Written.{IsSound};

use crate::desk::Desk;
use crate::rule::{Gives, Takes};
use crate::view::{Held, View};
use atomic_table::{Badge, Seat};
use outside::{Store, Ways};
use std::sync::Wait;

impl<S: Store, M: Ways> Desk<S, M> {
    /// Waits until the store is there, and takes the turn.
    fn wait_turn<R: Wait>(
        &self,
        rt: &R,
        mut seat: Seat<Option<Held<S>>, View>,
    ) -> Seat<Option<Held<S>>, View>
        requires id { seat.table_id ≡ self.now.id }
        requires view { (1 ≤ seat.me.0.shares) × (seat.me.0.mark ≡ true)
            × (seat.me.1 ≡ []) }
        ensures id { result.table_id ≡ self.now.id }
        ensures took { TakeTurn
            (lore S.tells S.content S.journal S.faults M.tells M.runs)
            seat.me result.me }
    {
        for _ in rt.forever() {
            let found = self
                .table
                .shared
                .compare_exchange::<Takes<S, M>>(&mut seat, 0, 0, 1);
            if found == 0 {
                return seat;
            }
            self.table.shared.park(rt, 0, 1);
        }
        unreachable!()
    }

    /// Takes the store out in a turn of the seat's own.
    pub(crate) fn take_out<R: Wait>(
        &self,
        rt: &R,
        badge: Badge<View>,
    ) -> (Seat<Option<Held<S>>, View>, Held<S>)
        requires id { badge.table_id ≡ self.now.id }
        requires rested { IsRested badge.views }
        requires origin { (front badge.views).origin ≡ Some self.now.origin }
        ensures id { result.0.table_id ≡ self.now.id }
        ensures seat { result.0.me
            ≡ (after_take S.faults (front badge.views) result.1, (0, None) ∷ []) }
        ensures sound { IsSound
            (lore S.tells S.content S.journal S.faults M.tells M.runs)
            self.now.origin result.1 }
        ensures later { (front badge.views).seen ≤ S.faults result.1.store }
        ensures known { Within (front badge.views).known result.1.saved }
    {
        let mut seat = self.wait_turn(rt, badge.into_seat());
        let Some(held) = self.table.shared.exchange(&mut seat, 0, None) else {
            unreachable!()
        };
        (seat, held)
    }

    /// Puts the store back and gives the turn back.
    pub(crate) fn put_back(
        &self,
        mut seat: Seat<Option<Held<S>>, View>,
        held: Held<S>,
    ) -> Badge<View>
        requires id { seat.table_id ≡ self.now.id }
        requires slot { seat.me.1 ≡ (0, None) ∷ [] }
        requires view { (1 ≤ seat.me.0.shares) × (seat.me.0.turn ≡ true) }
        requires sound { IsSound
            (lore S.tells S.content S.journal S.faults M.tells M.runs)
            self.now.origin held }
        requires later { seat.me.0.seen ≤ S.faults held.store }
        requires known { Within seat.me.0.known held.saved }
        ensures id { result.table_id ≡ self.now.id }
        ensures view { result.views ≡ after_give S.faults seat.me.0 held ∷ [] }
    {
        let empty = self.table.shared.exchange(&mut seat, 0, Some(held));
        let None = empty else { unreachable!() };
        self.table.shared.store::<Gives<S, M>>(&mut seat, 0, 0);
        self.table.shared.wake_one(0);
        seat.into_badge()
    }
}
