// What builders call at a desk.
ghost use Rattle.std.specs.Prelude.{◌≡◌, ◌<◌, ◌≤◌, [], ◌∷◌, true, false, length, IfOk, IfErr};
ghost use Rattle.bulk_model.specs.PlanView.{is_ignored};
ghost use Rattle.bulk_model.specs.Results.{is_kept};
ghost use Rattle.store_desk.specs.Attempts.{AfterKeep};
ghost use Rattle.store_desk.specs.Changes.{after_give};
ghost use Rattle.store_desk.specs.Rule.{all_shares, first_view, beginner};
ghost use Rattle.store_desk.specs.Seats.{IsOf, IsClosed, IsFirst};
ghost use Rattle.store_desk.specs.Steps.{SplitOf, JoinOf};
ghost use Rattle.store_desk.specs.Told.{lore, file_of, IsRight};
ghost use Rattle.store_desk.specs.Written.{IsSound};

use crate::attempt::{Keep, attempt};
use crate::desk::{Desk, DeskRefused, DeskSeat, Desked};
use crate::rule::{InTwo, TakesEmpty, Together};
use crate::view::{Held, Key, View};
use atomic_table::{Badge, Seat, Table};
use bulk_base::{NoMemory, Text};
use bulk_model::{Flags, Kept, Plan, Shared, file_name};
use outside::{Store, Ways};
use std::alloc::Global;
use std::marker::PhantomData;
use std::mem;
use std::snapshot::Snapshot;
use std::sync::Wait;

/// The name of a node's package file.
fn name_of(alloc: Global, plan: &Plan, n: u32) -> Result<Text, NoMemory>
    requires { n < length plan.now.jobs }
    ensures { IfOk result (λ name. name ≡ file_of plan.now n) }
{
    let job = &plan.jobs.as_slice()[n as usize];
    file_name(alloc, &job.name)
}

impl<S: Store, M: Ways> Desk<S, M> {
    /// Waits for the turn, and puts the package of a node that is neither kept nor ignored into the
    /// store, where each dependency is in it or kept.
    ///
    /// Later exactly where some dependency is neither kept nor saved at this turn, with the least
    /// such. Saved where the package is in the store, Fault only where the store's count rose in
    /// this turn; every other answer leaves that count as it was. NoMemory for want of memory
    /// alone, and then nothing was put. One turn, whatever is answered. The name of the file is
    /// made before it, so that the turn itself takes no memory but the store's own.
    pub fn keep<R: Wait>(
        &self,
        rt: &R,
        alloc: Global,
        seat: &mut DeskSeat<M>,
        n: u32,
        file: &[u8],
    ) -> Keep
        requires seat { IsOf self.now seat.old }
        requires node { n < length self.now.origin.plan.jobs }
        requires wanted { (is_kept self.now.origin.kept n ≡ false)
            × (is_ignored self.now.origin.plan n ≡ false) }
        requires right { IsRight M.tells M.runs self.now.origin.plan self.now.origin.kept n
            file.now }
        ensures id { seat.new.id ≡ seat.old.id }
        ensures kept { AfterKeep self.now.origin.plan self.now.origin.kept n
            seat.old.view seat.new.view result }
    {
        let plan = self.plan.get();
        let name = name_of(alloc, plan, n);
        let badge = mem::replace(&mut seat.badge, Badge::blank());
        let (turn, mut held) = self.take_out(rt, badge);
        let answer = attempt::<S, M>(alloc, plan, self.kept.get(), &mut held, n, &name, file);
        seat.badge = self.put_back(turn, held);
        answer
    }

    /// Two seats of one that has two shares at least. The first keeps all shares but one and what
    /// it tried. The second has one share, knows what the first knows, and has tried nothing.
    ///
    /// Takes no memory.
    pub fn split(&self, seat: DeskSeat<M>) -> (DeskSeat<M>, DeskSeat<M>)
        requires seat { IsOf self.now seat }
        requires shares { 2 ≤ seat.view.shares }
        ensures first { result.0.id ≡ seat.id }
        ensures second { result.1.id ≡ seat.id }
        ensures views { SplitOf seat.view result.0.view result.1.view }
    {
        let DeskSeat { badge, ways: _ } = seat;
        let mut first = badge.into_seat::<Option<Held<S>>>();
        let second = self.table.shared.split_seat::<InTwo>(&mut first);
        (
            DeskSeat {
                badge: first.into_badge(),
                ways: PhantomData,
            },
            DeskSeat {
                badge: second.into_badge(),
                ways: PhantomData,
            },
        )
    }

    /// One seat of two. It has the shares and the knowledge of both, and what both tried.
    ///
    /// Takes no memory.
    pub fn join(&self, a: DeskSeat<M>, b: DeskSeat<M>) -> DeskSeat<M>
        requires a { IsOf self.now a }
        requires b { IsOf self.now b }
        ensures id { result.id ≡ a.id }
        ensures view { JoinOf a.view b.view result.view }
    {
        let DeskSeat { badge, ways: _ } = a;
        let mut mine = badge.into_seat::<Option<Held<S>>>();
        let DeskSeat { badge, ways: _ } = b;
        self.table
            .shared
            .join_seat::<Together>(&mut mine, badge.into_seat());
        DeskSeat {
            badge: mine.into_badge(),
            ways: PhantomData,
        }
    }

    /// The store of a desk whose seats were all joined into one, and which packages were saved in
    /// it: all that the seat knows as saved, each with its dependencies kept or saved. Where the
    /// store tells, its journal since the desk was made is puts of nodes that the seat tried,
    /// dependencies first.
    ///
    /// Takes no memory.
    pub fn close(self, seat: DeskSeat<M>) -> Desked<S>
        requires seat { IsOf self seat }
        requires shares { seat.view.shares ≡ all_shares }
        ensures { IsClosed (lore S.tells S.content S.journal S.faults M.tells M.runs) self.origin
            seat.view result.store result.saved }
    {
        let DeskSeat { badge, ways: _ } = seat;
        let Desk {
            table,
            plan: _,
            kept: _,
        } = self;
        let mut closed = table.close_with(badge.into_seat());
        let last = closed.take(0);
        closed.free();
        let Some(held) = last else { unreachable!() };
        let Held {
            store,
            saved,
            tried: _,
        } = held;
        Desked { store, saved }
    }

    /// Lays the store on the desk, in the first turn.
    fn lay(&self, mut seat: Seat<Option<Held<S>>, View>, held: Held<S>) -> Badge<View>
        requires id { seat.table_id ≡ self.now.id }
        requires first { seat.me ≡ (first_view self.now.origin, []) }
        requires sound { IsSound
            (lore S.tells S.content S.journal S.faults M.tells M.runs)
            self.now.origin held }
        requires same { S.faults held.store ≡ self.now.origin.first }
        ensures id { result.table_id ≡ self.now.id }
        ensures view { result.views
            ≡ after_give S.faults (beginner self.now.origin true) held ∷ [] }
    {
        self.table
            .shared
            .compare_exchange::<TakesEmpty>(&mut seat, 0, 2, 1);
        self.put_back(seat, held)
    }

    /// A desk for a plan, with a store on it, and its first seat, which has all shares and knows
    /// nothing as saved. Where memory is refused the store comes back as it was.
    ///
    /// Room for both marks of each node is made here: no other call takes memory, but for a file's
    /// name and what the store's own put takes.
    pub fn new(
        alloc: Global,
        store: S,
        plan: Shared<Plan>,
        kept: Shared<Kept>,
    ) -> Result<(Desk<S, M>, DeskSeat<M>), DeskRefused<S>>
        ensures seat { IfOk result (λ made.
            IsOf made.0 made.1 × IsFirst made.0.origin made.1.view) }
        ensures about { IfOk result (λ made. made.0.origin ≡ record {
          plan = plan;
          kept = kept;
          journal = S.journal store;
          content = S.content store;
          first = S.faults store;
        }) }
        ensures err { IfErr result (λ refused. refused.store ≡ store) }
    {
        let count = plan.get().jobs.len();
        let Ok(saved) = Flags::none(alloc, count) else {
            return Err(DeskRefused { store });
        };
        let Ok(tried) = Flags::none(alloc, count) else {
            return Err(DeskRefused { store });
        };
        let key = Key {
            plan: Snapshot::of(plan.get()),
            kept: Snapshot::of(kept.get()),
            store: Snapshot::of(&store),
        };
        let Ok((table, seat)) = Table::vacant(alloc, &[2], 1, &key) else {
            return Err(DeskRefused { store });
        };
        let desk = Desk { table, plan, kept };
        let badge = desk.lay(
            seat,
            Held {
                store,
                saved,
                tried,
            },
        );
        Ok((
            desk,
            DeskSeat {
                badge,
                ways: PhantomData,
            },
        ))
    }
}
