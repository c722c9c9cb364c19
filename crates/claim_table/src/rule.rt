// The rule that every step at a table keeps, and what each kind of step tells its caller.
use crate::view::{Key, View};
use atomic_table::{Join, Play, Split, TableRule};
use bulk_model::Outcome;
use outside::Ways;
use std::marker::PhantomData;

/// The rule of a table, by what rooms tell. No value of it is made.
pub struct Rule<M> {
    ways: PhantomData<M>,
}

impl<M: Ways> TableRule<Option<Outcome>, View, Key> for Rule<M> {
    ghost use Rattle.claim_table.specs.Told.{lore, task_of};
    ghost use Rattle.claim_table.specs.Rule.{Ruled, first_view};

    ghost holds = { λ key. Ruled (lore M.tells M.runs) (task_of key) };

    ghost first = { λ key. first_view (task_of key) };
}

/// A look: what is found is known from then on.
pub(crate) struct Looks;

impl Play<Option<Outcome>, View> for Looks {
    ghost use Rattle.claim_table.specs.Steps.{looks_then};

    ghost then = { λ step. looks_then step.word };
}

/// A claim: a free node is claimed, and its slot taken.
pub(crate) struct Claims;

impl Play<Option<Outcome>, View> for Claims {
    ghost use Rattle.claim_table.specs.Steps.{claims_then};

    ghost then = { λ step. claims_then step.word };
}

/// The end of a claim: the slot is given back.
pub(crate) struct Ends;

impl Play<Option<Outcome>, View> for Ends {
    ghost use Rattle.claim_table.specs.Steps.{ends_then};

    ghost then = { λ step. ends_then step.word };
}

/// A skip of a free node.
pub(crate) struct Skips;

impl Play<Option<Outcome>, View> for Skips {
    ghost use Rattle.claim_table.specs.Steps.{skips_then};

    ghost then = { λ step. skips_then step.word };
}

/// The begin of a reading of a built node: its slot is taken.
pub(crate) struct Begins<M> {
    ways: PhantomData<M>,
}

impl<M: Ways> Play<Option<Outcome>, View> for Begins<M> {
    ghost use Rattle.claim_table.specs.Told.{lore};
    ghost use Rattle.claim_table.specs.Steps.{begins_then};

    ghost then = { λ step. begins_then (lore M.tells M.runs) step.word };
}

/// The close of a reading: the slot is given back.
pub(crate) struct Closes;

impl Play<Option<Outcome>, View> for Closes {
    ghost use Rattle.claim_table.specs.Steps.{closes_then};

    ghost then = { λ step. closes_then step.word };
}

/// A split: one share for a new seat.
pub(crate) struct InTwo;

impl Split<View> for InTwo {
    ghost use Rattle.claim_table.specs.Changes.{first_part, second_part};

    ghost left = { first_part };

    ghost right = { second_part };
}

/// A join: two seats become one.
pub(crate) struct Together;

impl Join<View> for Together {
    ghost use Rattle.claim_table.specs.Changes.{together};
    ghost use Rattle.claim_table.specs.Rule.{nobody};

    ghost both = { together };

    ghost spent = { nobody };
}
