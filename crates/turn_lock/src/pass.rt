//! A pass of a turn.
ghost use Rattle.std.specs.Prelude.{◌≡◌, length, false};
ghost use Rattle.turn_lock.specs.PassState.{PassState};

use crate::logged::Logged;
use crate::view::View;
use atomic_table::Seat;
use std::marker::Model;

/// The right to take the value of one turn, and what its holder has seen of it.
///
/// It has three numbers; the entries that it has seen and the positions of its own are known to proofs alone.
///
/// Contracts see it as a `PassState`: its turn, whether it is the first pass, whether it holds the value, the opening,
/// the entries that its holder has seen, the positions of its own entries, and for the first pass the number of others.
#[derive(Drop)]
pub struct Pass<V: Logged> {
    pub(crate) seat: Seat<Option<V>, View<V::Opening, V::Entry>>,
    pub(crate) seen: u64,
    pub(crate) own: u64,
    pub(crate) others: u64,
}

impl<V: Logged> Model for Pass<V> {
    ghost use Rattle.turn_lock.specs.PassState.{PassState};
    ghost use Rattle.turn_lock.specs.Seats.{state_of, IsTold};

    ghost Value = { PassState V.Opening V.Entry };

    ghost view = { λ p. state_of p.seat.table_id p.seat.me };

    ghost invariant = { λ p. IsTold p.seen p.own p.others p.seat.me };
}

impl<V: Logged> Pass<V> {
    /// How many entries its holder has seen.
    pub fn seen(&self) -> u64
        ensures { result ≡ length self.now.seen }
    {
        self.seen
    }

    /// How many entries are its own.
    pub fn own(&self) -> u64
        ensures { result ≡ length self.now.own }
    {
        self.own
    }

    /// For the first pass, how many passes were split from it and not joined. For every other pass 0.
    pub fn others(&self) -> u64
        ensures number { result ≡ self.now.others }
        ensures rest { self.now.first ≡ false → result ≡ 0 }
    {
        self.others
    }
}
