// A package that was built is fetched from the table.
ghost use Rattle.std.specs.Prelude.{◌≡◌, ◌<◌, length, true, Some, IfOk};
ghost use Rattle.bulk_model.specs.declared.outcome.Outcome.TheVariants.{Built as MadePackage};
ghost use Rattle.bulk_model.specs.Fit.{has_built};
ghost use Rattle.atomic_table.specs.Table.{rest};
ghost use Rattle.claim_table.specs.Changes.{after_close};
ghost use Rattle.claim_table.specs.Inside.{IsOpen};
ghost use Rattle.claim_table.specs.Seats.{IsOf, AfterFetch};
ghost use Rattle.claim_table.specs.Told.{lore, IsRight};

use crate::rule::{Begins, Closes};
use crate::table::{Seat, Table};
use crate::view::View;
use crate::word::{Word, word_of};
use atomic_table::Seat as TableSeat;
use bulk_base::NoMemory;
use bulk_model::{Outcome, Package, Shared};
use outside::Ways;

/// Why a package was not fetched.
#[derive(Clone, Copy, Debug, PartialEq, Eq)]
pub enum FetchError {
    /// Another seat reads it: the word was Reading.
    Busy,
    /// It was not built: the word was neither Built nor Reading.
    NotThere {
        /// The word that was found.
        word: Word,
    },
    /// Want of memory: it could not have one more holder. The reading was closed all the same.
    NoMemory,
}

fn refusal(word: Word) -> FetchError
    ensures { result ≡ Rattle.claim_table.specs.Seats.refusal word }
{
    match word {
        Word::Reading => FetchError::Busy,
        _ => FetchError::NotThere { word },
    }
}

/// One more holder of a built package.
fn shared_of(outcome: &Option<Outcome>) -> Result<Shared<Package>, NoMemory>
    requires { has_built outcome.now ≡ true }
    ensures { IfOk result (λ built. outcome.now ≡ Some (MadePackage built)) }
{
    let Some(Outcome::Built(package)) = outcome else {
        unreachable!()
    };
    package.share()
}

impl<M: Ways> Table<M> {
    /// The package of a node that was built, by a reading that is begun and closed; the seat knows
    /// the node as built from then on. Busy exactly where the word at the first step was Reading,
    /// NotThere exactly where it was neither Built nor Reading; both leave what a look leaves.
    /// NoMemory where the package could not be shared, after the reading was closed.
    ///
    /// Two steps, one where it answers Busy or NotThere. Takes no memory but for the holder that it
    /// hands out.
    pub fn fetch(&self, seat: &mut Seat, n: u32) -> Result<Shared<Package>, FetchError>
        requires seat { IsOf self.now seat.old }
        requires node { n < length self.now.task.plan.jobs }
        ensures id { seat.new.id ≡ seat.old.id }
        ensures exact { AfterFetch (lore M.tells M.runs) self.now.task n
            seat.old.view seat.new.view result }
    {
        let found = self
            .table
            .shared
            .compare_exchange::<Begins<M>>(&mut seat.inner, n as usize + 1, 2, 4);
        if found != 2 {
            return Err(refusal(word_of(found)));
        }
        match self.read(&mut seat.inner, n) {
            Ok(package) => Ok(package),
            Err(_) => Err(FetchError::NoMemory),
        }
    }

    /// Shares the package of a node whose reading was begun, and closes the reading.
    fn read(
        &self,
        inner: &mut TableSeat<Option<Outcome>, View>,
        n: u32,
    ) -> Result<Shared<Package>, NoMemory>
        requires id { inner.old.table_id ≡ self.now.id }
        requires node { n < length self.now.task.plan.jobs }
        requires open { IsOpen (lore M.tells M.runs) self.now.task n inner.old.me }
        ensures id { inner.new.table_id ≡ inner.old.table_id }
        ensures closed { inner.new.me ≡ (after_close n inner.old.me.0, rest inner.old.me.1) }
        ensures right { IfOk result (λ built.
            IsRight (lore M.tells M.runs) self.now.task n (MadePackage built)) }
    {
        let outcome = self.table.shared.exchange(inner, n as usize, None);
        let shared = shared_of(&outcome);
        self.table.shared.exchange(inner, n as usize, outcome);
        self.table.shared.store::<Closes>(inner, n as usize + 1, 2);
        shared
    }
}
