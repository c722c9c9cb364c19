// A claim is ended or given up, and a table is closed.
ghost use Rattle.std.specs.Prelude.{◌≡◌, None};
ghost use Rattle.claim_table.specs.declared.word.Word.TheVariants.{GivenUp};
ghost use Rattle.claim_table.specs.Changes.{after_end};
ghost use Rattle.claim_table.specs.Inside;
ghost use Rattle.claim_table.specs.Rule.{all_shares, outcome_word};
ghost use Rattle.claim_table.specs.Seats.{IsOf, IsTicketOf, IsClosed};
ghost use Rattle.claim_table.specs.Told.{lore, IsRight};

use crate::rule::Ends;
use crate::table::{Seat, Table, Ticket};
use bulk_base::Sequence;
use bulk_model::{Outcome, Partial};
use outside::Ways;

/// The number of the word of an outcome.
fn code_of(outcome: &Outcome) -> u64
    ensures { result ≡ Inside.code_of outcome.now }
{
    match outcome {
        Outcome::Built(_) => 2,
        Outcome::Failed { .. } => 3,
    }
}

impl<M: Ways> Table<M> {
    /// Ends a claim of the seat with what came of the node: a failure, or a package with the fields
    /// of the node's job; where rooms tell what commands do, what one builder gives at this node.
    /// The node is Built or Failed then.
    ///
    /// One step, a store. Takes no memory.
    pub fn end(&self, seat: &mut Seat, ticket: Ticket, outcome: Outcome)
        requires seat { IsOf self.now seat.old }
        requires ticket { IsTicketOf self.now seat.old ticket }
        requires right { IsRight (lore M.tells M.runs) self.now.task ticket.node outcome }
        ensures id { seat.new.id ≡ seat.old.id }
        ensures exact { seat.new.view
            ≡ after_end ticket.node (outcome_word outcome) seat.old.view }
    {
        let Ticket {
            node,
            plan: _,
            kept: _,
        } = ticket;
        let code = code_of(&outcome);
        self.table
            .shared
            .exchange(&mut seat.inner, node as usize, Some(outcome));
        self.table
            .shared
            .store::<Ends>(&mut seat.inner, node as usize + 1, code);
    }

    /// Gives a claim of the seat up. The node is GivenUp then, and nobody claims it again.
    ///
    /// One step, a store. Takes no memory.
    pub fn drop_claim(&self, seat: &mut Seat, ticket: Ticket)
        requires seat { IsOf self.now seat.old }
        requires ticket { IsTicketOf self.now seat.old ticket }
        ensures id { seat.new.id ≡ seat.old.id }
        ensures exact { seat.new.view ≡ after_end ticket.node GivenUp seat.old.view }
    {
        let Ticket {
            node,
            plan: _,
            kept: _,
        } = ticket;
        self.table
            .shared
            .store::<Ends>(&mut seat.inner, node as usize + 1, 8);
    }

    /// The outcomes of a table whose seats were all joined into one that holds no claim. Just the
    /// nodes that were claimed and not given up have one, each was claimed once, and they fit the
    /// plan, so that one builder can build what is left.
    ///
    /// A node costs one move. Takes no memory.
    pub fn close(self, seat: Seat) -> Partial
        requires seat { IsOf self seat }
        requires idle { seat.view.holds ≡ None }
        requires shares { seat.view.shares ≡ all_shares }
        ensures { IsClosed (lore M.tells M.runs) self.task seat.view result.outcomes }
    {
        let Seat { inner } = seat;
        let Table {
            table,
            plan: _,
            kept: _,
            mut room,
        } = self;
        let mut closed = table.close_with(inner);
        for n in 0..closed.slot_count() {
            room.push_reserved(closed.take(n));
        }
        closed.free();
        Partial {
            outcomes: Sequence::from_vec(room),
        }
    }
}
