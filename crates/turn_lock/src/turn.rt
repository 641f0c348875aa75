//! The turn.
ghost use Rattle.std.specs.Prelude.{◌≡◌, ◌+◌, ◌-◌, ◌%◌, ◌^◌, ◌<◌, [], ◌++◌, IfOk, IfErr, Some, true, false};
ghost use Rattle.atomic_table.specs.Seated.{TableId};
ghost use Rattle.turn_lock.specs.Lists.{Begins, longer, new_positions};
ghost use Rattle.turn_lock.specs.PassState.{first_pass, split_pass, HasOwn};
ghost use Rattle.turn_lock.specs.Steps.{Takes};
ghost use Rattle.turn_lock.specs.declared.view.Stage.TheVariants.{Waiting};

use crate::logged::Logged;
use crate::pass::Pass;
use crate::rule::TurnRule;
use crate::steps::{
    AdvanceServing, CountDown, CountUp, DrawTicket, JoinSeats, ReadServing, SplitSeat,
};
use crate::view::View;
use atomic_table::{Seat, Table};
use std::alloc::{AllocFailed, Global};
use std::hint::spin_loop;
use std::marker::Model;
use std::snapshot::Snapshot;
use std::sync::Wait;
use std::thread;

// The words and the slot of the table.
const PASSES: usize = 0;

const NEXT: usize = 1;

const SERVING: usize = 2;

const VALUE: usize = 0;

// How often the next in line reads at once again before it lets other threads run.
const LOOKS: u32 = 100;

/// A value that workers take in turns.
///
/// It is shared by `&`, and each worker has a [`Pass`] of its own. It is not dropped: [`close`](Turn::close) ends it, and
/// gives the value back.
///
/// Contracts see it as its name, which each of its passes has as `turn`.
pub struct Turn<V: Logged> {
    table: Table<Option<V>, View<V::Opening, V::Entry>, Snapshot<V>, TurnRule<V>, Global>,
}

impl<V: Logged> Model for Turn<V> {
    ghost Value = { TableId };

    ghost view = { λ t. t.table.shared.table_id };

    ghost invariant = { λ t. (t.table.shared.table_id.words ≡ 3) × (t.table.shared.table_id.slots ≡ 1) };
}

impl<V: Logged> Turn<V> {
    /// A turn over the value, and its first pass, which has seen the value's entries and owns none.
    ///
    /// Only here memory is taken. Where there is none, `Err` hands the value back.
    pub fn new(alloc: Global, value: V) -> Result<(Turn<V>, Pass<V>), V>
        ensures ok { IfOk result (λ made. made.1 ≡ first_pass made.0 (V.opening value) (V.entries value)) }
        ensures err { IfErr result (λ back. back ≡ value) }
    {
        let seen = value.count();
        let about = Snapshot::of(&value);
        let mut slots = Vec::new(alloc);
        if let Err(failed) = slots.push(Some(value)) {
            let AllocFailed { value } = failed;
            slots.destroy_empty();
            let Some(value) = value else { unreachable!() };
            return Err(value);
        }
        match Table::new(alloc, &[1, 0, 0], slots, &about) {
            Ok((table, seat)) => Ok((
                Turn { table },
                Pass {
                    seat,
                    seen,
                    own: 0,
                    others: 0,
                },
            )),
            Err(refused) => {
                let mut slots = refused.slots;
                let Some(Some(value)) = slots.pop() else {
                    unreachable!()
                };
                slots.destroy_empty();
                Err(value)
            }
        }
    }

    /// A further pass, which has seen the same as the first pass and owns nothing.
    pub fn split(&self, pass: &mut Pass<V>) -> Pass<V>
        requires turn { pass.old.turn ≡ self.now }
        requires first { pass.old.first ≡ true }
        requires room { pass.old.others < 65535 }
        requires rest { pass.old.holds ≡ false }
        ensures counted { pass.new ≡ record pass.old { others = pass.old.others + 1 } }
        ensures made { result ≡ split_pass pass.old }
    {
        let seats = &self.table.shared;
        seats.fetch_add::<CountUp>(&mut pass.seat, PASSES, 1);
        let seat = seats.split_seat::<SplitSeat>(&mut pass.seat);
        pass.others += 1;
        Pass {
            seat,
            seen: pass.seen,
            own: 0,
            others: 0,
        }
    }

    /// The first pass has then seen what both had, and the entries of both are its own.
    pub fn join(&self, pass: &mut Pass<V>, other: Pass<V>)
        requires turn { (pass.old.turn ≡ self.now) × (other.turn ≡ self.now) }
        requires first { pass.old.first ≡ true }
        requires rest { (pass.old.holds ≡ false) × (other.holds ≡ false) }
        ensures some { 0 < pass.old.others }
        ensures joined { pass.new ≡ record pass.old {
          seen = longer pass.old.seen other.seen;
          own = pass.old.own ++ other.own;
          others = pass.old.others - 1;
        } }
        ensures seen { Begins pass.old.seen pass.new.seen × Begins other.seen pass.new.seen }
    {
        let Pass {
            seat,
            seen,
            own,
            others: _,
        } = other;
        let seats = &self.table.shared;
        seats.join_seat::<JoinSeats>(&mut pass.seat, seat);
        seats.fetch_sub::<CountDown>(&mut pass.seat, PASSES, 1);
        pass.others -= 1;
        pass.own += own;
        pass.seen = pass.seen.max(seen);
    }

    /// Waits for the value.
    ///
    /// The pass draws a ticket and reads the number that is served until it is the ticket's.
    pub fn take<R: Wait>(&self, rt: &R, pass: &mut Pass<V>) -> V
        requires turn { pass.old.turn ≡ self.now }
        requires rest { pass.old.holds ≡ false }
        ensures holds { pass.new ≡ record pass.old { holds = true; seen = V.entries result } }
        ensures opening { pass.old.opening ≡ Some (V.opening result) }
        ensures seen { Begins pass.old.seen (V.entries result) }
        ensures own { HasOwn pass.old (V.entries result) }
    {
        let seats = &self.table.shared;
        let ticket = seats.fetch_add::<DrawTicket>(&mut pass.seat, NEXT, 1);
        self.wait_for(rt, &mut pass.seat, ticket);
        let taken = seats.exchange(&mut pass.seat, VALUE, None);
        let Some(value) = taken else { unreachable!() };
        pass.seen = value.count();
        value
    }

    // Between two reads other threads may run. With more threads than processors, the one that has the value may need this
    // processor to come to its `give`, and a loop that only reads would keep it from that for the rest of its time slice.
    // Only the next in line looks again at once for a while, since its turn is mostly near.
    fn wait_for<R: Wait>(
        &self,
        rt: &R,
        seat: &mut Seat<Option<V>, View<V::Opening, V::Entry>>,
        ticket: u64,
    )
        requires turn { seat.old.table_id ≡ self.now }
        requires waits { seat.old.me.0.stage ≡ Waiting }
        requires compared { seat.old.me.0.shown ≡ [] }
        requires empty { seat.old.me.1 ≡ [] }
        requires ticket { ticket ≡ seat.old.me.0.ticket % 2 ^ 64 }
        ensures turn { seat.new.table_id ≡ seat.old.table_id }
        ensures took { Takes V.opening V.entries seat.old.me seat.new.me }
    {
        let mut looks = 0u32;
        for _ in rt.forever() {
            let served = self.table.shared.load::<ReadServing<V>>(seat, SERVING);
            if served == ticket {
                return;
            }
            if ticket.wrapping_sub(served) == 1 && looks < LOOKS {
                looks += 1;
                spin_loop();
            } else {
                looks = 0;
                thread::yield_now();
            }
        }
        unreachable!()
    }

    /// Gives the value back. The entries that were added since the take become the pass's own.
    pub fn give(&self, pass: &mut Pass<V>, value: V)
        requires turn { pass.old.turn ≡ self.now }
        requires holds { pass.old.holds ≡ true }
        requires opening { pass.old.opening ≡ Some (V.opening value) }
        requires entries { Begins pass.old.seen (V.entries value) }
        ensures { pass.new ≡ record pass.old {
          holds = false;
          seen = V.entries value;
          own = pass.old.own ++ new_positions pass.old.seen (V.entries value);
        } }
    {
        let count = value.count();
        let seats = &self.table.shared;
        let left = seats.exchange(&mut pass.seat, VALUE, Some(value));
        let None = left else { unreachable!() };
        seats.fetch_add::<AdvanceServing<V>>(&mut pass.seat, SERVING, 1);
        pass.own += count - pass.seen;
        pass.seen = count;
    }

    /// Ends the turn and gives the value. It waits for nobody, since no other pass is left.
    pub fn close(self, pass: Pass<V>) -> V
        requires turn { pass.turn ≡ self }
        requires first { pass.first ≡ true }
        requires alone { pass.others ≡ 0 }
        requires rest { pass.holds ≡ false }
        ensures opening { pass.opening ≡ Some (V.opening result) }
        ensures seen { V.entries result ≡ pass.seen }
        ensures own { HasOwn pass (V.entries result) }
    {
        let Pass {
            seat,
            seen: _,
            own: _,
            others: _,
        } = pass;
        let Turn { table } = self;
        let mut closed = table.close_with(seat);
        let taken = closed.take(VALUE);
        closed.free();
        let Some(value) = taken else { unreachable!() };
        value
    }
}
