ghost use Rattle.std.specs.Prelude.{◌≡◌, ◌<◌, ◌&&◌, ℕ, length, EachIndex, slice_index};
ghost use Rattle.bay_core.specs.Legal.{is_allowed, is_clear, is_open_unit, is_end, is_blocked, has_message, may_claim, may_begin, may_send, may_collect, may_tend, may_mark, may_finish, may_record, may_end, fits_link};
ghost use Rattle.flash_plan.specs.Plan.{count_of};
ghost use Rattle.bay_replay.specs.Hears.{blocker};
ghost use Rattle.bay_replay.specs.Held.{Told, Holds, is_stopped, names, with_halt};

use super::Core;
use crate::halt::Halt;
use crate::links::{is_asked, is_dialed, is_down, is_up};
use crate::sessions;
use bay_core::{Event, Heard, Tend};
use flash_plan::{Entry, Outcome, Plan};

/// Which events are allowed now: a test for each row of the table of events.
impl Core {
    /// Whether the unit was claimed and has no outcome.
    pub fn is_open(&self, plan: &Plan, unit: u16) -> bool
        ghost told: { Told }
        requires { Holds plan.now self.now told }
        ensures { result ≡ is_open_unit plan.now told.core unit }
    {
        unit < plan.units() && self.units.at(unit).claimed && self.board.outcome(unit).is_none()
    }

    /// Whether the run is not stopped, the link is up and owes no alive answer.
    pub fn is_clear(&self, plan: &Plan) -> bool
        ghost told: { Told }
        requires { Holds plan.now self.now told }
        ensures { result ≡ is_clear told.core }
    {
        self.halt.stop.is_none() && is_up(&self.link) && !self.link.owes()
    }

    /// Whether a message of the unit is in its inbox.
    pub fn has_message(&self, plan: &Plan, unit: u16) -> bool
        ghost told: { Told }
        requires holds { Holds plan.now self.now told }
        requires within { unit < count_of plan.now }
        ensures { result ≡ has_message plan.now told.core unit }
    {
        self.link.has_message(plan.unit(unit).address)
    }

    /// The unit that may be claimed now, if there is one.
    pub fn next_claim(&self, plan: &Plan) -> Option<u16>
        ghost told: { Told }
        requires { Holds plan.now self.now told }
        ensures { (u : ℕ) → names result u ≡ may_claim plan.now told.core u }
    {
        plan.is_accepted();
        if self.halt.stop.is_some() {
            return None;
        }
        self.board.next_free()
    }

    /// Whether the unit may be claimed now: it is the lowest that is ready.
    pub fn may_claim(&self, plan: &Plan, unit: u16) -> bool
        ghost told: { Told }
        requires { Holds plan.now self.now told }
        ensures { result ≡ may_claim plan.now told.core unit }
    {
        match self.next_claim(plan) {
            Some(first) => first == unit,
            None => false,
        }
    }

    /// Whether it may be recorded that the unit is begun, where the run stood so.
    fn may_begin_at(&self, plan: &Plan, unit: u16, halt: Halt) -> bool
        ghost told: { Told }
        requires { Holds plan.now self.now told }
        ensures { result ≡ may_begin plan.now (with_halt halt told.core) unit }
    {
        if !self.is_open(plan, unit) {
            return false;
        }
        let kept = self.units.at(unit);
        !kept.begun
            && sessions::is_at_begin(&kept.session, plan.unit(unit))
            && (halt.stop.is_none() && is_up(&self.link) && !self.link.owes())
    }

    /// Whether it may be recorded that the segment is marked, where the run stood so.
    fn may_mark_at(&self, plan: &Plan, unit: u16, segment: u16, halt: Halt) -> bool
        ghost told: { Told }
        requires { Holds plan.now self.now told }
        ensures { result ≡ may_mark plan.now (with_halt halt told.core) unit segment }
    {
        if !self.is_open(plan, unit) {
            return false;
        }
        let kept = self.units.at(unit);
        sessions::is_at_mark(&kept.session, plan.unit(unit), segment) && halt.stop.is_none()
    }

    /// Whether it may be recorded that the unit is complete, where the run stood so.
    fn may_finish_at(&self, plan: &Plan, unit: u16, halt: Halt) -> bool
        ghost told: { Told }
        requires { Holds plan.now self.now told }
        ensures { result ≡ may_finish plan.now (with_halt halt told.core) unit }
    {
        if !self.is_open(plan, unit) {
            return false;
        }
        let kept = self.units.at(unit);
        sessions::is_at_done(&kept.session, plan.unit(unit)) && !halt.failed
    }

    /// Whether it may be recorded now that the unit is begun.
    pub fn may_begin(&self, plan: &Plan, unit: u16) -> bool
        ghost told: { Told }
        requires { Holds plan.now self.now told }
        ensures { result ≡ may_begin plan.now told.core unit }
    {
        self.may_begin_at(plan, unit, self.halt)
    }

    /// Whether it may be recorded now that this segment of the unit is marked.
    pub fn may_mark(&self, plan: &Plan, unit: u16, segment: u16) -> bool
        ghost told: { Told }
        requires { Holds plan.now self.now told }
        ensures { result ≡ may_mark plan.now told.core unit segment }
    {
        self.may_mark_at(plan, unit, segment, self.halt)
    }

    /// Whether it may be recorded now that the unit is complete.
    pub fn may_finish(&self, plan: &Plan, unit: u16) -> bool
        ghost told: { Told }
        requires { Holds plan.now self.now told }
        ensures { result ≡ may_finish plan.now told.core unit }
    {
        self.may_finish_at(plan, unit, self.halt)
    }

    /// Whether an append of this entry may have been tried now: it might be recorded, if the failed appends
    /// that stand directly before were not there.
    pub fn may_record(&self, plan: &Plan, unit: u16, entry: Entry) -> bool
        ghost told: { Told }
        requires { Holds plan.now self.now told }
        ensures { result ≡ may_record plan.now told.core unit entry }
    {
        match entry {
            Entry::Begun(n) => n == unit && self.may_begin_at(plan, unit, self.before),
            Entry::Marked { unit: n, segment } => {
                n == unit && self.may_mark_at(plan, unit, segment, self.before)
            }
            Entry::Complete(n) => n == unit && self.may_finish_at(plan, unit, self.before),
        }
    }

    /// Whether this request of the unit may be sent now.
    pub fn may_send(&self, plan: &Plan, unit: u16, place: u32) -> bool
        ghost told: { Told }
        requires { Holds plan.now self.now told }
        ensures { result ≡ may_send plan.now told.core unit place }
    {
        if !self.is_open(plan, unit) {
            return false;
        }
        let kept = self.units.at(unit);
        if !sessions::has_request(&kept.session, plan.unit(unit)) {
            return false;
        }
        if place != kept.session.number() {
            return false;
        }
        if sessions::is_waiting(&kept.session, plan.unit(unit)) {
            return false;
        }
        self.is_clear(plan)
    }

    /// Whether an answer of the unit may be looked for now, and whether this fits its inbox: a message is
    /// kept where there is one, and else a receive is made.
    pub fn may_collect(&self, plan: &Plan, unit: u16, got: &Heard) -> bool
        ghost told: { Told }
        requires { Holds plan.now self.now told }
        ensures { result ≡ may_collect plan.now told.core unit got.now }
    {
        if !self.is_open(plan, unit) {
            return false;
        }
        let kept = self.units.at(unit);
        if !sessions::is_waiting(&kept.session, plan.unit(unit)) {
            return false;
        }
        if !self.is_clear(plan) {
            return false;
        }
        let has_message = self.has_message(plan, unit);
        match got {
            Heard::Kept => has_message,
            Heard::Quiet | Heard::Piece(_) | Heard::Lost => !has_message,
        }
    }

    /// Whether this step for the link may be made now.
    pub fn may_tend(&self, plan: &Plan, step: &Tend) -> bool
        ghost told: { Told }
        requires { Holds plan.now self.now told }
        ensures { result ≡ may_tend told.core step.now }
    {
        if self.halt.stop.is_some() {
            return false;
        }
        match step {
            Tend::Dialed { .. } => is_down(&self.link),
            Tend::Asked { .. } => is_dialed(&self.link),
            Tend::Said { .. } => is_up(&self.link) && self.link.owes(),
            Tend::Polled(got) => self.may_poll(plan, got),
        }
    }

    /// Whether a receive of a run that is not stopped may bring this while the activation is awaited.
    fn may_poll(&self, plan: &Plan, got: &Heard) -> bool
        ghost told: { Told }
        requires { Holds plan.now self.now told }
        ensures { result ≡ fits_link told.core (Tend.Polled got.now) }
    {
        match got {
            Heard::Kept => false,
            Heard::Quiet | Heard::Piece(_) | Heard::Lost => is_asked(&self.link),
        }
    }

    /// Whether the first of these units that is not complete is that one, and has an outcome.
    fn is_blocker(&self, units: &[u16], by: u16) -> bool
        requires { EachIndex units.now (λ k. slice_index units.now k < length self.now.board) }
        ensures { result ≡ blocker self.now.board units.now by }
    {
        for i in 0..units.len() {
            let outcome = self.board.outcome(units[i]);
            if !matches!(outcome, Some(Outcome::Complete)) {
                return units[i] == by && outcome.is_some();
            }
        }
        false
    }

    /// Whether the unit is blocked by another as this outcome says.
    fn is_blocked(&self, plan: &Plan, unit: u16, outcome: Outcome) -> bool
        ghost told: { Told }
        requires holds { Holds plan.now self.now told }
        requires within { unit < count_of plan.now }
        ensures { result ≡ is_blocked plan.now told.core unit outcome }
    {
        plan.is_accepted();
        match outcome {
            Outcome::Blocked { by } => self.is_blocker(plan.unit(unit).after.as_slice(), by),
            Outcome::Complete
            | Outcome::IdentMismatch { .. }
            | Outcome::Refused { .. }
            | Outcome::BadAnswer { .. }
            | Outcome::CheckFailed { .. }
            | Outcome::Undelivered { .. }
            | Outcome::NoAnswer { .. }
            | Outcome::PendingLimit { .. }
            | Outcome::BusyLimit { .. }
            | Outcome::LinkLost { .. }
            | Outcome::LinkRefused { .. }
            | Outcome::DiskFault
            | Outcome::NoMemory => false,
        }
    }

    /// Whether the unit's conversation has ended so.
    fn has_ended(&self, plan: &Plan, unit: u16, outcome: Outcome) -> bool
        ghost told: { Told }
        requires holds { Holds plan.now self.now told }
        requires within { unit < count_of plan.now }
        ensures { result ≡ ((told.core.slots unit).claimed
            && is_end (told.core.slots unit).talk.place outcome) }
    {
        let kept = self.units.at(unit);
        kept.claimed && sessions::is_at_end(&kept.session, plan.unit(unit), outcome)
    }

    /// Whether what stopped the run ends the unit so.
    fn is_stopped(&self, plan: &Plan, unit: u16, outcome: Outcome) -> bool
        ghost told: { Told }
        requires holds { Holds plan.now self.now told }
        requires within { unit < count_of plan.now }
        ensures { result ≡ is_stopped told.core unit outcome }
    {
        if self.units.at(unit).faulted {
            return sessions::same(Outcome::DiskFault, outcome);
        }
        match self.halt.stop {
            Some(said) => sessions::same(said, outcome),
            None => false,
        }
    }

    /// Whether the unit may end so now.
    pub fn may_end(&self, plan: &Plan, unit: u16, outcome: Outcome) -> bool
        ghost told: { Told }
        requires { Holds plan.now self.now told }
        ensures { result ≡ may_end plan.now told.core unit outcome }
    {
        if unit >= plan.units() || self.board.outcome(unit).is_some() {
            return false;
        }
        self.has_ended(plan, unit, outcome)
            || self.is_stopped(plan, unit, outcome)
            || sessions::is_memory(outcome)
            || self.is_blocked(plan, unit, outcome)
    }

    /// Whether the event is allowed now.
    pub fn may_take(&self, plan: &Plan, event: &Event) -> bool
        ghost told: { Told }
        requires { Holds plan.now self.now told }
        ensures { result ≡ is_allowed plan.now told.core event.now }
    {
        match event {
            Event::Claimed { unit } => self.may_claim(plan, *unit),
            Event::Began { unit } => self.may_begin(plan, *unit),
            Event::Sent { unit, place, .. } => self.may_send(plan, *unit, *place),
            Event::Collected { unit, got } => self.may_collect(plan, *unit, got),
            Event::Tended { step } => self.may_tend(plan, step),
            Event::Marked { unit, segment } => self.may_mark(plan, *unit, *segment),
            Event::Completed { unit } => self.may_finish(plan, *unit),
            Event::DiskFailed { unit, entry } => self.may_record(plan, *unit, *entry),
            Event::Ended { unit, outcome } => self.may_end(plan, *unit, *outcome),
        }
    }
}
