ghost use Rattle.std.specs.Prelude.{◌≡◌, ◌<◌, ℕ, length, IfOk};
ghost use Rattle.std.specs.Borrow.{sem};
ghost use Rattle.barrier_board.specs.Board.{has_entry};
ghost use Rattle.flash_plan.specs.Plan.{count_of, plan_of};
ghost use Rattle.unit_session.specs.Session.{IsOf, has_mark};
ghost use Rattle.run_model.specs.Entries.{marks_of};
ghost use Rattle.bay_replay.specs.Lending.{LendsUnit};
ghost use Rattle.bay_replay.specs.Units.{unit_of, low_marks, AreFresh, AreOf, AreLost, IsLostAt};

use crate::sessions::lose;
use flash_base::NoMemory;
use flash_plan::{Entries, Entry, Plan};
use std::alloc::Global;
use std::marker::Model;
use unit_session::{Marks, UnitSession};

/// What is kept of one unit beside the board.
#[derive(Clone, Copy, Debug, PartialEq, Eq)]
pub struct Unit {
    /// Its conversation.
    pub session: UnitSession,
    /// It was taken up.
    pub claimed: bool,
    /// It is recorded begun.
    pub begun: bool,
    /// An append for it failed.
    pub faulted: bool,
}

/// The units of a plan, by their numbers: contracts see the list of them.
#[derive(Debug, Drop)]
pub struct Units {
    items: Vec<Unit>,
}

impl Model for Units {
    ghost use Rattle.std.specs.Prelude.{List};
    ghost use Rattle.bay_replay.specs.declared.units.Unit.{Unit};

    ghost Value = { List Unit };

    ghost view = { λ u. u.items.items };
}

/// Whether the entry is among those.
fn has(entries: &[Entry], entry: Entry) -> bool
    ensures { result ≡ has_entry entries.now entry }
{
    for e in entries {
        if *e == entry {
            return true;
        }
    }
    false
}

/// The segments of a unit that the entries mark; of those only the numbers below 256, as many as a unit has.
fn marks_in(entries: &[Entry], unit: u16) -> Marks
    ensures { (k : ℕ) → has_mark result k ≡ low_marks (marks_of (has_entry entries.now) unit) k }
{
    let mut marks = Marks::none();
    for e in entries {
        if let Entry::Marked { unit: n, segment } = e {
            if *n == unit {
                marks = marks.with(*segment);
            }
        }
    }
    marks
}

impl Units {
    /// The units of a plan before any event.
    pub fn new(alloc: Global, plan: &Plan, found: &Entries) -> Result<Units, NoMemory>
        ensures { IfOk result (AreFresh plan.now found.now) }
    {
        plan.is_accepted();
        let mut items = Vec::new(alloc);
        for n in 0..plan.units() {
            let begun = has(found.as_slice(), Entry::Begun(n));
            let marks = marks_in(found.as_slice(), n);
            items.push(Unit {
                session: UnitSession::new(begun, marks),
                claimed: false,
                begun,
                faulted: false,
            })?;
        }
        Ok(Units { items })
    }

    /// The number of units.
    pub fn len(&self) -> usize
        ensures { result ≡ length self.now }
    {
        self.items.len()
    }

    /// The unit with this number.
    pub fn at(&self, n: u16) -> &Unit
        requires { n < length self.now }
        ensures { result.now ≡ unit_of self.now n }
    {
        &self.items[n as usize]
    }

    /// The unit with this number, to be changed in its place.
    pub fn at_mut(&mut self, n: u16) -> &mut Unit
        requires { n < length self.old }
        ensures* lends { sem 𝓛 (LendsUnit self.entry n result) }
        ensures value { result.now ≡ unit_of self.old n }
    {
        &mut self.items[n as usize]
    }

    /// One conversation after a loss of the link.
    fn lose_at(&mut self, plan: &Plan, n: u16)
        requires within { n < count_of plan.now }
        requires size { length self.old ≡ count_of plan.now }
        requires fits { IsOf (plan_of plan.now n) (unit_of self.old n).session }
        ensures { IsLostAt (plan_of plan.now n) n self.old self.new }
    {
        plan.is_accepted();
        lose(&mut self.at_mut(n).session, plan.unit(n));
    }

    /// The link was lost: each attempt starts again.
    pub fn lose(&mut self, plan: &Plan)
        requires { AreOf plan.now self.old }
        ensures { AreLost plan.now self.old self.new }
    {
        for n in 0..plan.units() {
            self.lose_at(plan, n);
        }
    }
}
