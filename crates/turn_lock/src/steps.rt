//! The steps of a turn, and what each tells the pass that makes it.
//!
//! Making a turn sets all words and fills the slot. The other kinds of step are made of these:
//!
//! | Kind | Steps | Word |
//! |---|---|---|
//! | split | `CountUp`, then a second seat by `SplitSeat` | passes, plus 1 |
//! | join | one seat by `JoinSeats`, then `CountDown` | passes, minus 1 |
//! | draw a ticket | `DrawTicket` | next, plus 1 |
//! | read the serving number | `ReadServing` | none |
//! | take the value | the `ReadServing` that finds the ticket takes the slot, then a plain exchange empties it | none |
//! | put the value | a plain exchange, while the slot is still out | none |
//! | advance the serving number | `AdvanceServing`, which gives the slot back | serving, plus 1 |
ghost use Rattle.turn_lock.specs.Seats.{split_view, joined_view, spent_view};
ghost use Rattle.turn_lock.specs.Steps.{CountsUp, CountsDown, DrawsTicket, ReadsServing, AdvancesServing};
ghost use Rattle.std.specs.Prelude.{◌-◌};

use crate::logged::Logged;
use crate::view::View;
use atomic_table::{Join, Play, Split};
use std::marker::PhantomData;

/// One pass more is counted.
pub struct CountUp;

impl<V, O, E> Play<Option<V>, View<O, E>> for CountUp {
    ghost then = { λ _ before _ after. CountsUp before after };
}

/// A seat for the pass that was counted.
pub struct SplitSeat;

impl<O, E> Split<View<O, E>> for SplitSeat {
    ghost left = { λ v. record v { unseated = v.unseated - 1 } };

    ghost right = { split_view };
}

/// What two passes had seen and owned comes to one seat.
pub struct JoinSeats;

impl<O, E> Join<View<O, E>> for JoinSeats {
    ghost both = { joined_view };

    ghost spent = { spent_view };
}

/// One pass fewer is counted, and what both had seen is compared.
pub struct CountDown;

impl<V, O, E> Play<Option<V>, View<O, E>> for CountDown {
    ghost then = { λ _ before _ after. CountsDown before after };
}

/// The pass gets the next ticket.
pub struct DrawTicket;

impl<V, O, E> Play<Option<V>, View<O, E>> for DrawTicket {
    ghost then = { λ _ before found after. DrawsTicket before found after };
}

/// Where the pass's own ticket is served, the pass gets the slot.
pub struct ReadServing<V> {
    value: PhantomData<V>,
}

impl<V: Logged> Play<Option<V>, View<V::Opening, V::Entry>> for ReadServing<V> {
    ghost then = { λ _ before found after. ReadsServing V.opening V.entries before found after };
}

/// The slot goes back, and the next ticket is served.
pub struct AdvanceServing<V> {
    value: PhantomData<V>,
}

impl<V: Logged> Play<Option<V>, View<V::Opening, V::Entry>> for AdvanceServing<V> {
    ghost then = { λ _ before _ after. AdvancesServing V.entries before after };
}
