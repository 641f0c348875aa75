ghost use Rattle.std.specs.Prelude.{◌≡◌, ◌<◌, IfOk, IfErr};
ghost use Rattle.bay_core.specs.declared.event.Event.TheVariants as event;
ghost use Rattle.bay_law.specs.Closed.{Says};
ghost use Rattle.flash_bay.specs.Calls.{Claims, MayEnd, ended_as, takes};
ghost use Rattle.flash_bay.specs.Opened.{IsOpened, IsRefused};
ghost use Rattle.flash_plan.specs.Plan.{count_of};
ghost use Rattle.flash_run.specs.Need.{AreDue, need_of};
ghost use Rattle.flash_run.specs.Run.{IsKept, IsUnfinished};

use crate::starting::start;
use crate::why::EndWhy;
use barrier_board::Claimed;
use bay_core::Event;
use flash_journal::{Journal, OpenFault};
use flash_plan::{Entries, LinkRules, Outcome, Plan};
use flash_run::{Need, Run};
use shop_model::Shop;
use std::alloc::Global;
use std::marker::Model;
use std::snapshot::Snapshot;
use turn_lock::Logged;

/// A run of a plan over a shop, with its journal.
///
/// Contracts see the run, the shop at the opening and now, and how many entries the next group of records may have
/// (`BayState`). The type keeps what holds of disk and vehicle (`IsBay`).
pub struct Bay<S: Shop> {
    pub(crate) shop: S,
    pub(crate) journal: Journal,
    pub(crate) run: Run,
    pub(crate) alloc: Global,
    pub(crate) first: Snapshot<S>,
}

impl<S: Shop> Model for Bay<S> {
    ghost use Rattle.flash_bay.specs.State.{BayState, IsBayOf};
    ghost use Rattle.flash_journal.specs.Kept.{room_of};

    ghost Value = { BayState S };

    ghost view = { λ b. record { run = b.run; first = b.first.value; shop = b.shop; slots = room_of b.journal } };

    ghost invariant = { λ b. IsBayOf S.tells_disk S.tells_vehicle b.run (S.history b.first.value)
        (S.history b.shop) b.journal };
}

/// What a bay began with: its plan and rules, the entries that its journal had, and the shop. No value of it is
/// made.
pub struct Opening<S> {
    pub plan: Plan,
    pub rules: LinkRules,
    pub found: Entries,
    pub shop: S,
}

impl<S: Shop> Logged for Bay<S> {
    type Opening = Opening<S>;

    type Entry = Event;

    ghost opening = { λ b. record { plan = b.run.plan; rules = b.run.rules; found = b.run.found; shop = b.first } };

    ghost entries = { λ b. b.run.events };

    fn count(&self) -> u64 {
        self.run.count()
    }
}

impl<S: Shop> Bay<S> {
    /// Opens the journal of the plan, and starts a run with the entries that the journal has. Room is taken for one
    /// claim, one completion, one failed append and one end of each unit.
    ///
    /// A refusal hands the shop back. Where there was no memory behind the opened journal, the file that it made
    /// stays.
    pub fn open(
        alloc: Global,
        plan: &Plan,
        rules: &LinkRules,
        shop: S,
    ) -> Result<Bay<S>, (S, OpenFault)>
        ensures ok { IfOk result (IsOpened S.tells_disk S.history plan.now rules.now shop) }
        ensures refused { IfErr result (λ r. IsRefused S.tells_disk S.history plan.now shop r.0 r.1) }
    {
        let first = Snapshot::of(&shop);
        let mut shop = shop;
        match Journal::open(alloc, &mut shop, plan) {
            Ok(journal) => match start(alloc, plan, rules, &journal) {
                Ok(run) => Ok(Bay {
                    shop,
                    journal,
                    run,
                    alloc,
                    first,
                }),
                Err(_) => Err((shop, OpenFault::NoMemory)),
            },
            Err(fault) => Err((shop, fault)),
        }
    }

    /// A law without code: what a bay says of its run. At each moment since the opening records and vehicle fit; a
    /// complete unit is recorded so in each image; each outcome has its cause; a complete unit that heard anything
    /// holds its image; and a run without troubles completes each unit that matches.
    pub fn says(&self)
        ensures { Says S.tells_disk S.tells_vehicle self.now.run (S.history self.now.first)
            (S.history self.now.shop) }
    {
        self.run.is_kept();
    }

    /// A law without code: what every run keeps.
    pub fn is_kept(&self)
        ensures { IsKept self.now.run }
    {
        self.run.is_kept();
    }

    /// A law without code: what is due for a unit is allowed.
    pub fn is_due(&self)
        ensures { AreDue self.now.run }
    {
        self.run.is_due();
    }

    /// Whether the bay was stopped for want of memory.
    pub fn is_starved(&self) -> bool
        ensures { result ≡ self.now.run.starved }
    {
        self.run.is_starved()
    }

    /// Takes up the lowest unit that is ready; nothing where the bay is stopped. It wants no memory.
    pub fn claim(&mut self, plan: &Plan) -> Claimed
        requires { plan.now ≡ self.old.run.plan }
        ensures { Claims self.old result self.new }
    {
        self.run.is_kept();
        self.run.claim(plan)
    }

    /// The one call that is due for the unit; `Gone` where it is not claimed or has its outcome. It wants no memory.
    pub fn need(&self, plan: &Plan, unit: u16) -> Need
        requires plan { plan.now ≡ self.now.run.plan }
        requires within { unit < count_of plan.now }
        ensures { result ≡ need_of self.now.run unit }
    {
        self.run.need(plan, unit)
    }

    /// The lowest unit that is claimed and has no outcome, if there is one. It wants no memory.
    pub fn unfinished(&self, plan: &Plan) -> Option<u16>
        requires { plan.now ≡ self.now.run.plan }
        ensures { IsUnfinished self.now.run result }
    {
        self.run.unfinished(plan)
    }

    /// The outcome with which the unit ends.
    fn ending(&self, plan: &Plan, unit: u16, why: EndWhy) -> Outcome
        requires plan { plan.now ≡ self.now.run.plan }
        requires within { unit < count_of plan.now }
        ensures { result ≡ ended_as self.now.run unit why }
    {
        match why {
            EndWhy::Due => self.run.due_outcome(plan, unit),
            EndWhy::NoMemory => Outcome::NoMemory,
        }
    }

    /// Gives the unit its outcome: the one that is due, or `NoMemory`. It wants no memory.
    pub fn end(&mut self, plan: &Plan, unit: u16, why: EndWhy) -> Outcome
        requires plan { plan.now ≡ self.old.run.plan }
        requires within { unit < count_of plan.now }
        requires may { MayEnd self.old.run unit why }
        ensures outcome { result ≡ ended_as self.old.run unit why }
        ensures ended { self.new ≡ takes (event.Ended unit (ended_as self.old.run unit why)) self.old }
    {
        self.run.is_kept();
        self.run.is_due();
        let outcome = self.ending(plan, unit, why);
        self.run.note(plan, Event::Ended { unit, outcome });
        outcome
    }
}
