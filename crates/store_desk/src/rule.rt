// The rule that every step at a desk keeps, and what each step tells.
use crate::view::{Held, Key, View};
use atomic_table::{Join, Play, Split, TableRule};
use outside::{Store, Ways};
use std::marker::PhantomData;

/// The rule of a desk. No value of it is made.
pub struct Rule<S, M> {
    store: PhantomData<S>,
    ways: PhantomData<M>,
}

impl<S: Store, M: Ways> TableRule<Option<Held<S>>, View, Key<S>> for Rule<S, M> {
    ghost use Rattle.store_desk.specs.Told.{lore, origin_of};
    ghost use Rattle.store_desk.specs.Rule.{Ruled, first_view};

    ghost holds = { λ key.
        let l = lore S.tells S.content S.journal S.faults M.tells M.runs in
        Ruled l (origin_of l key) };

    ghost first = { λ key. first_view
        (origin_of (lore S.tells S.content S.journal S.faults M.tells M.runs) key) };
}

/// The turn is taken with the store, or was found taken.
pub(crate) struct Takes<S, M> {
    store: PhantomData<S>,
    ways: PhantomData<M>,
}

impl<S: Store, M: Ways> Play<Option<Held<S>>, View> for Takes<S, M> {
    ghost use Rattle.store_desk.specs.Told.{lore};
    ghost use Rattle.store_desk.specs.Steps.{takes_then};

    ghost then = { λ _. takes_then
        (lore S.tells S.content S.journal S.faults M.tells M.runs) };
}

/// The first turn is taken, with an empty slot.
pub(crate) struct TakesEmpty;

impl<S> Play<Option<Held<S>>, View> for TakesEmpty {
    ghost use Rattle.store_desk.specs.Steps.{first_takes_then};

    ghost then = { λ _. first_takes_then };
}

/// The turn is given back with the store.
pub(crate) struct Gives<S, M> {
    store: PhantomData<S>,
    ways: PhantomData<M>,
}

impl<S: Store, M: Ways> Play<Option<Held<S>>, View> for Gives<S, M> {
    ghost use Rattle.store_desk.specs.Told.{lore};
    ghost use Rattle.store_desk.specs.Steps.{gives_then};

    ghost then = { λ _. gives_then
        (lore S.tells S.content S.journal S.faults M.tells M.runs) };
}

/// A split: one share for a new seat.
pub(crate) struct InTwo;

impl Split<View> for InTwo {
    ghost use Rattle.store_desk.specs.Changes.{first_part, second_part};

    ghost left = { first_part };

    ghost right = { second_part };
}

/// A join: two seats become one.
pub(crate) struct Together;

impl Join<View> for Together {
    ghost use Rattle.store_desk.specs.Changes.{together};
    ghost use Rattle.store_desk.specs.Rule.{nobody};

    ghost both = { together };

    ghost spent = { nobody };
}
