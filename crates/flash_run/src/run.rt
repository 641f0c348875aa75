ghost use Rattle.std.specs.Prelude.{◌≡◌, ◌<◌, ◌≤◌, ◌+◌, ◌^◌, ◌||◌, not, length, true, false, IfOk, OnOk, OnErr, List};
ghost use Rattle.bay_core.specs.Core.{core_after};
ghost use Rattle.bay_core.specs.Legal.{has_message};
ghost use Rattle.link_state.specs.State.{link_phase};
ghost use Rattle.bay_replay.specs.Bytes.{has_bytes};
ghost use Rattle.bay_replay.specs.Held.{IsBoardOf, Told};
ghost use Rattle.flash_plan.specs.Plan.{count_of};
ghost use Rattle.flash_run.specs.Need.{AreDue, seen_ask, stop_for, stop_or};
ghost use Rattle.flash_run.specs.Run.{IsKept, is_closing, is_complete_entry, ClaimsNext, IsUnfinished, RunState, may_take, is_open, with_event, with_room, starving, run_start, left_in, core_of_run, log_of};

use crate::notes::Notes;
use crate::steps::{
    claim_in, conversation_in, has_faulted_in, has_message_in, is_open_in, may_take_in, starve_in,
    take_in,
};
use barrier_board::{Board, Claimed};
use bay_core::{Event, Log};
use bay_replay::Core;
use flash_base::NoMemory;
use flash_plan::{Entries, Entry, LinkRules, Outcome, Plan};
use link_state::Phase;
use std::alloc::Global;
use std::marker::Model;
use std::snapshot::Snapshot;
use unit_session::Ask;

/// One run of a plan: its events, and what they have made of its units and of the link.
///
/// Contracts see the plan, the rules, the entries that were found, the events, whether a receive found no memory,
/// and the room for more events (`RunState`); all else is a function of these. The type keeps that the events are
/// legal and make just the state that is kept.
#[derive(Drop)]
pub struct Run {
    pub(crate) plan: Snapshot<Plan>,
    pub(crate) rules: LinkRules,
    pub(crate) found: Entries,
    pub(crate) core: Core,
    pub(crate) notes: Notes,
    /// There was no memory in a step that may receive: the link is used no more.
    pub(crate) starved: bool,
}

impl Model for Run {
    ghost use Rattle.flash_run.specs.Run.{RunState, IsLogged};

    ghost Value = { RunState };

    ghost view = { λ r. record {
      plan = r.plan.value;
      rules = r.rules;
      found = r.found;
      events = r.notes.events;
      starved = r.starved;
      room = r.notes.room;
    } };

    ghost invariant = { λ r. IsLogged r.plan.value r.rules r.found r.notes r.starved r.core };
}

/// Whether it records that a unit is complete.
fn is_complete_entry(entry: Entry) -> bool
    ensures { result ≡ is_complete_entry entry }
{
    match entry {
        Entry::Begun(_) | Entry::Marked { .. } => false,
        Entry::Complete(_) => true,
    }
}

/// Whether the event may still come in a run that was stopped for want of memory.
fn is_closing(event: &Event) -> bool
    ensures { result ≡ is_closing event.now }
{
    match event {
        Event::Claimed { .. }
        | Event::Began { .. }
        | Event::Sent { .. }
        | Event::Collected { .. }
        | Event::Tended { .. }
        | Event::Marked { .. } => false,
        Event::Completed { .. } | Event::Ended { .. } => true,
        Event::DiskFailed { entry, .. } => is_complete_entry(*entry),
    }
}

/// Whether the event may come, in a run that was stopped for want of memory or not.
fn may_still(starved: bool, event: &Event) -> bool
    ensures { result ≡ (not starved || is_closing event.now) }
{
    !starved || is_closing(event)
}

/// What stopped a run; want of memory, where nothing did.
fn stop_or(stop: Option<Outcome>) -> Outcome
    ensures { result ≡ stop_or stop }
{
    match stop {
        Some(outcome) => outcome,
        None => Outcome::NoMemory,
    }
}

impl Run {
    /// A run before any event. Room is taken for one claim, one completion, one failed append and one end of each
    /// unit.
    pub fn start(
        alloc: Global,
        plan: &Plan,
        rules: &LinkRules,
        found: Entries,
    ) -> Result<Run, NoMemory>
        ensures { IfOk result (λ r. r ≡ run_start plan.now rules.now found) }
    {
        plan.is_accepted();
        let room = 4 * plan.units() as usize;
        Ok(Run {
            plan: Snapshot::of(plan),
            rules: *rules,
            core: Core::start(alloc, plan, *rules, &found)?,
            notes: Notes::new(alloc, room)?,
            found,
            starved: false,
        })
    }

    /// A law without code: what every run keeps.
    pub fn is_kept(&self)
        ensures { IsKept self.now }
    {
        let _ = &self.notes;
    }

    /// A law without code: what is due for a unit is allowed.
    pub fn is_due(&self)
        ensures { AreDue self.now }
    {
        self.is_kept();
    }

    /// How the run uses the link.
    pub fn rules(&self) -> LinkRules
        ensures { result ≡ self.now.rules }
    {
        self.rules
    }

    /// How often the link was lost.
    pub fn losses(&self) -> u32
        ensures { result ≡ (core_of_run self.now).link.losses }
    {
        self.core.link().losses()
    }

    /// How the link stands.
    pub fn phase(&self) -> Phase
        requires { self.now.starved ≡ false }
        ensures { link_phase result ≡ (core_of_run self.now).link.phase }
    {
        self.core.link().phase()
    }

    /// Whether a message of the unit is in its inbox.
    pub fn has_message(&self, plan: &Plan, unit: u16) -> bool
        requires plan { plan.now ≡ self.now.plan }
        requires within { unit < count_of plan.now }
        requires fed { self.now.starved ≡ false }
        ensures { result ≡ has_message self.now.plan (core_of_run self.now) unit }
    {
        has_message_in(
            &self.core,
            plan,
            &self.rules,
            &self.found,
            &self.notes,
            self.starved,
            unit,
        )
    }

    /// Whether it was stopped for want of memory.
    pub fn is_starved(&self) -> bool
        ensures { result ≡ self.now.starved }
    {
        self.starved
    }

    /// The number of events.
    pub fn count(&self) -> u64
        ensures number { result ≡ length self.now.events }
        ensures few { length self.now.events < 2 ^ 63 }
    {
        self.notes.count()
    }

    /// The board, with each unit's outcome, and the log. It wants no memory.
    pub fn into_log(self) -> (Board, Log)
        ensures board { IsBoardOf self.plan (core_of_run self) result.0 }
        ensures log { result.1 ≡ log_of self }
    {
        let Run {
            plan: _plan,
            rules: _rules,
            found,
            core,
            notes,
            starved: _starved,
        } = self;
        let events = notes.into_events();
        (core.into_board(), Log { found, events })
    }

    /// Takes up the lowest unit that is ready; nothing where the run is stopped. It wants no memory.
    pub fn claim(&mut self, plan: &Plan) -> Claimed
        requires { plan.now ≡ self.old.plan }
        ensures { ClaimsNext self.old result self.new }
    {
        if self.starved {
            return Claimed::Nothing;
        }
        let claimed = claim_in(
            &mut self.core,
            plan,
            &self.rules,
            &self.found,
            &self.notes,
            self.starved,
        );
        if let Claimed::Unit(unit) = claimed {
            self.notes.note(Event::Claimed { unit });
        }
        claimed
    }

    /// Takes room for so many events more.
    pub fn reserve(&mut self, more: usize) -> Result<(), NoMemory>
        ensures ok { OnOk result (self.new ≡ with_room more self.old) }
        ensures spare { OnOk result (left_in self.old.plan (core_of_run self.old) + more ≤ self.new.room) }
        ensures err { OnErr result (self.new ≡ self.old) }
    {
        self.notes.reserve(more)
    }

    /// Notes an event that is allowed and carries no bytes, in room that was taken. It wants no memory.
    pub fn note(&mut self, plan: &Plan, event: Event)
        requires plan { plan.now ≡ self.old.plan }
        requires allowed { may_take self.old event ≡ true }
        requires free { has_bytes event ≡ false }
        requires room { left_in self.old.plan
            (core_after self.old.rules self.old.plan event (core_of_run self.old)) + 1 ≤ self.old.room }
        ensures { self.new ≡ with_event event self.old }
    {
        let few = self.notes.count();
        let _ok = take_in(
            &mut self.core,
            plan,
            &self.rules,
            &self.found,
            &self.notes,
            self.starved,
            &event,
        );
        self.notes.note(event);
    }

    /// Notes an event that is allowed, in room that was taken. Where there is no memory for the bytes that it
    /// carries, it is no event of the run: the room is given back, and the link is used no more.
    pub fn take(&mut self, plan: &Plan, event: Event) -> Result<(), NoMemory>
        requires plan { plan.now ≡ self.old.plan }
        requires fed { self.old.starved ≡ false }
        requires allowed { may_take self.old event ≡ true }
        requires room { left_in self.old.plan
            (core_after self.old.rules self.old.plan event (core_of_run self.old)) + 1 ≤ self.old.room }
        requires spare { left_in self.old.plan (core_of_run self.old) + 1 ≤ self.old.room }
        ensures ok { OnOk result (self.new ≡ with_event event self.old) }
        ensures wants { OnErr result (self.new ≡ starving self.old) }
    {
        let few = self.notes.count();
        match take_in(
            &mut self.core,
            plan,
            &self.rules,
            &self.found,
            &self.notes,
            self.starved,
            &event,
        ) {
            Ok(()) => {
                self.notes.note(event);
                Ok(())
            }
            Err(fault) => {
                self.starved = true;
                self.notes.narrow();
                Err(fault)
            }
        }
    }

    /// The lowest unit that is claimed and has no outcome.
    pub fn unfinished(&self, plan: &Plan) -> Option<u16>
        requires { plan.now ≡ self.now.plan }
        ensures { IsUnfinished self.now result }
    {
        for unit in 0..plan.units() {
            if self.is_open(plan, unit) {
                return Some(unit);
            }
        }
        None
    }

    /// Whether the unit is claimed and has no outcome.
    pub fn is_open(&self, plan: &Plan, unit: u16) -> bool
        requires { plan.now ≡ self.now.plan }
        ensures { result ≡ is_open self.now unit }
    {
        is_open_in(
            &self.core,
            plan,
            &self.rules,
            &self.found,
            &self.notes,
            self.starved,
            unit,
        )
    }

    /// What is next in the unit's conversation, as it is kept: where the run was stopped for want of memory, an
    /// attempt that was under way starts again.
    pub(crate) fn ask(&self, plan: &Plan, unit: u16) -> Ask
        requires plan { plan.now ≡ self.now.plan }
        requires within { unit < count_of plan.now }
        ensures { result ≡ seen_ask self.now unit }
    {
        let session = conversation_in(
            &self.core,
            plan,
            &self.rules,
            &self.found,
            &self.notes,
            self.starved,
            unit,
        );
        session.next(plan.unit(unit))
    }

    /// A disk fault, where an append for the unit failed, and else what stopped the run.
    pub(crate) fn stop_for(&self, plan: &Plan, unit: u16) -> Outcome
        requires plan { plan.now ≡ self.now.plan }
        requires within { unit < count_of plan.now }
        ensures { result ≡ stop_for self.now unit }
    {
        if has_faulted_in(
            &self.core,
            plan,
            &self.rules,
            &self.found,
            &self.notes,
            self.starved,
            unit,
        ) {
            return Outcome::DiskFault;
        }
        if self.starved {
            return Outcome::NoMemory;
        }
        stop_or(self.core.stop())
    }

    /// Whether the event is allowed now.
    pub fn may_take(&self, plan: &Plan, event: &Event) -> bool
        requires { plan.now ≡ self.now.plan }
        ensures { result ≡ may_take self.now event.now }
    {
        if !may_still(self.starved, event) {
            return false;
        }
        may_take_in(
            &self.core,
            plan,
            &self.rules,
            &self.found,
            &self.notes,
            self.starved,
            event,
        )
    }

    /// There is no memory to go on with: the link is used no more, and what was under way ends so.
    pub fn starve(&mut self, plan: &Plan)
        requires plan { plan.now ≡ self.old.plan }
        requires fed { self.old.starved ≡ false }
        ensures { self.new ≡ record self.old { starved = true } }
    {
        starve_in(
            &mut self.core,
            plan,
            &self.rules,
            &self.found,
            &self.notes,
            self.starved,
        );
        self.starved = true;
    }
}
