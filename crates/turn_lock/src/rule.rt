//! The rule of the table.
use crate::logged::Logged;
use crate::view::View;
use atomic_table::TableRule;
use std::marker::PhantomData;
use std::snapshot::Snapshot;

/// The rule reads the value that the turn was made with, as it was then.
pub struct TurnRule<V> {
    value: PhantomData<V>,
}

impl<V: Logged> TableRule<Option<V>, View<V::Opening, V::Entry>, Snapshot<V>> for TurnRule<V> {
    ghost use Rattle.turn_lock.specs.Seats.{first_view};
    ghost use Rattle.turn_lock.specs.TurnRule.{IsInTurn};

    ghost holds = { λ _. IsInTurn V.opening V.entries };

    ghost first = { λ made. first_view (V.opening made.value) (V.entries made.value) };
}
