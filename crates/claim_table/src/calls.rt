// What builders call at a table: looks, claims and skips, and seats that are split and joined.
ghost use Rattle.std.specs.Prelude.{◌≡◌, ◌≢◌, ◌<◌, ◌≤◌, true, false, length, None, IfOk, IfErr};
ghost use Rattle.bulk_model.specs.PlanView.{is_ignored};
ghost use Rattle.bulk_model.specs.Results.{is_kept};
ghost use Rattle.claim_table.specs.declared.word.Word.TheVariants.{Free, Skipped};
ghost use Rattle.claim_table.specs.Changes.{after_look, after_claim, after_skip};
ghost use Rattle.claim_table.specs.Seats.{IsOf, knows_all, knows_bad};
ghost use Rattle.claim_table.specs.Steps.{SplitOf, JoinOf};
ghost use Rattle.claim_table.specs.Views.{IsFound};

use crate::rule::{Claims, InTwo, Looks, Skips, Together};
use crate::table::{Seat, Table, Ticket};
use crate::word::{Word, word_of};
use outside::Ways;
use std::snapshot::Snapshot;

/// A node could not be claimed, since it was not free.
#[derive(Clone, Copy, Debug, PartialEq, Eq)]
pub struct Taken {
    /// The word that was found, never Free.
    pub word: Word,
}

impl<M: Ways> Table<M> {
    /// The word of a node at this step. From then on the seat knows the node as built or bad, where
    /// it is.
    ///
    /// One step, a load. Takes no memory.
    pub fn look(&self, seat: &mut Seat, n: u32) -> Word
        requires seat { IsOf self.now seat.old }
        requires node { n < length self.now.task.plan.jobs }
        ensures id { seat.new.id ≡ seat.old.id }
        ensures exact { seat.new.view ≡ after_look n result seat.old.view }
        ensures found { IsFound self.now.task seat.old.view n result }
    {
        word_of(
            self.table
                .shared
                .load::<Looks>(&mut seat.inner, n as usize + 1),
        )
    }

    /// Claims a node that is neither kept nor ignored and whose dependencies are all kept or known
    /// as built, for a seat that holds no claim. Taken exactly where the node was not free at this
    /// step; what was found is known then, as by a look.
    ///
    /// One step, an exchange. Takes no memory.
    pub fn claim(&self, seat: &mut Seat, n: u32) -> Result<Ticket, Taken>
        requires seat { IsOf self.now seat.old }
        requires node { n < length self.now.task.plan.jobs }
        requires idle { seat.old.view.holds ≡ None }
        requires wanted { (is_kept self.now.task.kept n ≡ false)
            × (is_ignored self.now.task.plan n ≡ false) }
        requires ready { knows_all self.now.task seat.old.view n ≡ true }
        ensures id { seat.new.id ≡ seat.old.id }
        ensures ticket { IfOk result (λ ticket.
            (ticket.node ≡ n) × (ticket.task ≡ self.now.task)) }
        ensures ok { IfOk result (λ _. seat.new.view ≡ after_claim n seat.old.view) }
        ensures found { IfErr result (λ taken.
            IsFound self.now.task seat.old.view n taken.word) }
        ensures err { IfErr result (λ taken.
            (taken.word ≢ Free) × (seat.new.view ≡ after_look n taken.word seat.old.view)) }
    {
        let found = self
            .table
            .shared
            .compare_exchange::<Claims>(&mut seat.inner, n as usize + 1, 0, 1);
        if found != 0 {
            return Err(Taken {
                word: word_of(found),
            });
        }
        Ok(Ticket {
            node: n,
            plan: Snapshot::of(self.plan.get()),
            kept: Snapshot::of(self.kept.get()),
        })
    }

    /// Skips a node of which the seat knows some dependency as bad: true where the node was free,
    /// false exactly where it was skipped already. The seat knows the node as bad from then on.
    ///
    /// One step, an exchange. Takes no memory.
    pub fn skip(&self, seat: &mut Seat, n: u32) -> bool
        requires seat { IsOf self.now seat.old }
        requires node { n < length self.now.task.plan.jobs }
        requires reason { knows_bad self.now.task seat.old.view n ≡ true }
        ensures id { seat.new.id ≡ seat.old.id }
        ensures first { result ≡ true → seat.new.view ≡ after_skip n seat.old.view }
        ensures again { result ≡ false → seat.new.view ≡ after_look n Skipped seat.old.view }
    {
        let found = self
            .table
            .shared
            .compare_exchange::<Skips>(&mut seat.inner, n as usize + 1, 0, 5);
        found == 0
    }

    /// Two seats of one that holds no claim and has two shares at least. The first keeps all shares
    /// but one and what it claimed. The second has one share, knows what the first knows, and has
    /// claimed nothing.
    ///
    /// Takes no memory.
    pub fn split(&self, seat: Seat) -> (Seat, Seat)
        requires seat { IsOf self.now seat }
        requires idle { seat.view.holds ≡ None }
        requires shares { 2 ≤ seat.view.shares }
        ensures first { result.0.id ≡ seat.id }
        ensures second { result.1.id ≡ seat.id }
        ensures views { SplitOf seat.view result.0.view result.1.view }
    {
        let Seat { mut inner } = seat;
        let second = self.table.shared.split_seat::<InTwo>(&mut inner);
        (Seat { inner }, Seat { inner: second })
    }

    /// One seat of two that hold no claim. It has the shares, the claims and the knowledge of both.
    ///
    /// Takes no memory.
    pub fn join(&self, a: Seat, b: Seat) -> Seat
        requires a { IsOf self.now a }
        requires b { IsOf self.now b }
        requires idle { (a.view.holds ≡ None) × (b.view.holds ≡ None) }
        ensures id { result.id ≡ a.id }
        ensures view { JoinOf a.view b.view result.view }
    {
        let Seat { mut inner } = a;
        let Seat { inner: other } = b;
        self.table.shared.join_seat::<Together>(&mut inner, other);
        Seat { inner }
    }
}
