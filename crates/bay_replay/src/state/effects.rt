ghost use Rattle.std.specs.Prelude.{◌≡◌, ◌<◌, ◌^◌, length, true, false, IsOk, OnOk, OnErr};
ghost use Rattle.bay_core.specs.Legal.{is_allowed, may_claim, may_begin, may_send, may_collect, may_tend, may_mark, may_finish, may_record, may_end};
ghost use Rattle.flash_plan.specs.Plan.{count_of, plan_of};
ghost use Rattle.unit_session.specs.Session.{IsOf, talk_of};
ghost use Rattle.bay_replay.specs.Bytes.{brings_bytes, tends_bytes, has_bytes};
ghost use Rattle.bay_replay.specs.Hears.{told_heard};
ghost use Rattle.bay_replay.specs.Held.{Told, Holds, HoldsBody, told_own, told_emptied};
ghost use Rattle.bay_replay.specs.Units.{unit_of};

use super::Core;
use crate::links::lose;
use crate::sessions;
use bay_core::{Event, Heard, Tend};
use flash_base::{Bytes, NoMemory};
use flash_plan::{Entry, Outcome, Plan};

/// What each allowed event does to its own unit, to the link and to the board, before a loss and the stop are
/// looked at. Nothing is tested again here.
impl Core {
    /// Takes up a unit. Its conversation stands at its first request already.
    pub(super) fn take_up(&mut self, plan: &Plan, unit: u16)
        ghost told: { Told }
        requires holds { Holds plan.now self.old told }
        requires allowed { may_claim plan.now told.core unit ≡ true }
        ensures { HoldsBody plan.now self.new (told_own plan.now (Event.Claimed unit) told) }
    {
        plan.is_accepted();
        self.board.take_up(unit);
        self.units.at_mut(unit).claimed = true;
    }

    fn begin(&mut self, plan: &Plan, unit: u16)
        ghost told: { Told }
        requires holds { Holds plan.now self.old told }
        requires allowed { may_begin plan.now told.core unit ≡ true }
        ensures { HoldsBody plan.now self.new (told_own plan.now (Event.Began unit) told) }
    {
        plan.is_accepted();
        let kept = self.units.at_mut(unit);
        kept.begun = true;
        kept.session.begun();
    }

    fn send(&mut self, plan: &Plan, unit: u16, _place: u32, lost: bool)
        ghost told: { Told }
        requires holds { Holds plan.now self.old told }
        requires allowed { may_send plan.now told.core unit _place ≡ true }
        ensures { HoldsBody plan.now self.new (told_own plan.now (Event.Sent unit _place lost) told) }
    {
        let tick = self.link.ticks();
        self.units.at_mut(unit).session.sent(tick);
        lose(&mut self.link, lost);
    }

    /// Takes the oldest message of a unit that waits, if there is one, and the unit hears it.
    fn hear(&mut self, plan: &Plan, unit: u16)
        requires within { unit < count_of plan.now }
        requires size { length self.old.units ≡ count_of plan.now }
        requires fits { IsOf (plan_of plan.now unit) (unit_of self.old.units unit).session }
        requires waits { (talk_of (plan_of plan.now unit)
            (unit_of self.old.units unit).session).awaiting ≡ true }
        ensures { (told : Told) → HoldsBody plan.now self.old told → (told.core.slots unit).claimed ≡ true
            → HoldsBody plan.now self.new (told_heard plan.now unit told) }
    {
        plan.is_accepted();
        let Some(message) = self.link.take(plan.unit(unit).address) else {
            return;
        };
        let tick = self.link.ticks();
        let kept = self.units.at_mut(unit);
        sessions::hear(&mut kept.session, plan.unit(unit), &message, tick);
    }

    fn collect_kept(&mut self, plan: &Plan, unit: u16)
        ghost told: { Told }
        requires holds { Holds plan.now self.old told }
        requires allowed { may_collect plan.now told.core unit Heard.Kept ≡ true }
        ensures { HoldsBody plan.now self.new (told_own plan.now (Event.Collected unit Heard.Kept) told) }
    {
        self.hear(plan, unit);
    }

    fn collect_quiet(&mut self, plan: &Plan, unit: u16)
        ghost told: { Told }
        requires holds { Holds plan.now self.old told }
        requires ticks { told.core.link.ticks < 2 ^ 63 }
        requires allowed { may_collect plan.now told.core unit Heard.Quiet ≡ true }
        ensures { HoldsBody plan.now self.new (told_own plan.now (Event.Collected unit Heard.Quiet) told) }
    {
        self.link.quiet();
        let tick = self.link.ticks();
        self.units.at_mut(unit).session.quiet(tick);
    }

    fn collect_piece(&mut self, plan: &Plan, unit: u16, bytes: &Bytes) -> Result<(), NoMemory>
        ghost told: { Told }
        requires holds { Holds plan.now self.old told }
        requires allowed { may_collect plan.now told.core unit (Heard.Piece bytes.now) ≡ true }
        ensures ok { OnOk result (HoldsBody plan.now self.new
            (told_own plan.now (Event.Collected unit (Heard.Piece bytes.now)) told)) }
        ensures err { OnErr result (HoldsBody plan.now self.new (told_emptied told)) }
    {
        self.link.piece(bytes.as_slice())?;
        self.hear(plan, unit);
        Ok(())
    }

    fn collect_lost(&mut self, plan: &Plan, unit: u16)
        ghost told: { Told }
        requires holds { Holds plan.now self.old told }
        requires allowed { may_collect plan.now told.core unit Heard.Lost ≡ true }
        ensures { HoldsBody plan.now self.new (told_own plan.now (Event.Collected unit Heard.Lost) told) }
    {
        self.link.drop_it();
    }

    fn collect(&mut self, plan: &Plan, unit: u16, got: &Heard) -> Result<(), NoMemory>
        ghost told: { Told }
        requires holds { Holds plan.now self.old told }
        requires ticks { told.core.link.ticks < 2 ^ 63 }
        requires allowed { may_collect plan.now told.core unit got.now ≡ true }
        ensures ok { OnOk result (HoldsBody plan.now self.new
            (told_own plan.now (Event.Collected unit got.now) told)) }
        ensures err { OnErr result (HoldsBody plan.now self.new (told_emptied told)) }
        ensures free { brings_bytes got.now ≡ false → IsOk result }
    {
        match got {
            Heard::Kept => self.collect_kept(plan, unit),
            Heard::Quiet => self.collect_quiet(plan, unit),
            Heard::Piece(bytes) => self.collect_piece(plan, unit, bytes)?,
            Heard::Lost => self.collect_lost(plan, unit),
        }
        Ok(())
    }

    /// A receive while the activation is awaited.
    fn poll(&mut self, plan: &Plan, got: &Heard) -> Result<(), NoMemory>
        ghost told: { Told }
        requires holds { Holds plan.now self.old told }
        requires ticks { told.core.link.ticks < 2 ^ 63 }
        requires allowed { may_tend told.core (Tend.Polled got.now) ≡ true }
        ensures ok { OnOk result (HoldsBody plan.now self.new
            (told_own plan.now (Event.Tended (Tend.Polled got.now)) told)) }
        ensures err { OnErr result (HoldsBody plan.now self.new (told_emptied told)) }
        ensures free { brings_bytes got.now ≡ false → IsOk result }
    {
        match got {
            Heard::Kept => {}
            Heard::Quiet => self.link.quiet(),
            Heard::Piece(bytes) => self.link.piece(bytes.as_slice())?,
            Heard::Lost => self.link.drop_it(),
        }
        Ok(())
    }

    fn tend(&mut self, plan: &Plan, step: &Tend) -> Result<(), NoMemory>
        ghost told: { Told }
        requires holds { Holds plan.now self.old told }
        requires ticks { told.core.link.ticks < 2 ^ 63 }
        requires allowed { may_tend told.core step.now ≡ true }
        ensures ok { OnOk result (HoldsBody plan.now self.new
            (told_own plan.now (Event.Tended step.now) told)) }
        ensures err { OnErr result (HoldsBody plan.now self.new (told_emptied told)) }
        ensures free { tends_bytes step.now ≡ false → IsOk result }
    {
        match step {
            Tend::Dialed { lost } => self.link.dialed(*lost),
            Tend::Asked { lost } => self.link.asked(*lost),
            Tend::Said { lost } => self.link.said(*lost),
            Tend::Polled(got) => self.poll(plan, got)?,
        }
        Ok(())
    }

    fn mark(&mut self, plan: &Plan, unit: u16, _segment: u16)
        ghost told: { Told }
        requires holds { Holds plan.now self.old told }
        requires allowed { may_mark plan.now told.core unit _segment ≡ true }
        ensures { HoldsBody plan.now self.new (told_own plan.now (Event.Marked unit _segment) told) }
    {
        plan.is_accepted();
        self.units.at_mut(unit).session.marked();
    }

    fn finish(&mut self, plan: &Plan, unit: u16)
        ghost told: { Told }
        requires holds { Holds plan.now self.old told }
        requires allowed { may_finish plan.now told.core unit ≡ true }
        ensures { HoldsBody plan.now self.new (told_own plan.now (Event.Completed unit) told) }
    {
        self.board.complete(unit);
    }

    fn fail(&mut self, plan: &Plan, unit: u16, _entry: Entry)
        ghost told: { Told }
        requires holds { Holds plan.now self.old told }
        requires allowed { may_record plan.now told.core unit _entry ≡ true }
        ensures { HoldsBody plan.now self.new (told_own plan.now (Event.DiskFailed unit _entry) told) }
    {
        self.units.at_mut(unit).faulted = true;
    }

    fn end(&mut self, plan: &Plan, unit: u16, outcome: Outcome)
        ghost told: { Told }
        requires holds { Holds plan.now self.old told }
        requires allowed { may_end plan.now told.core unit outcome ≡ true }
        ensures { HoldsBody plan.now self.new (told_own plan.now (Event.Ended unit outcome) told) }
    {
        plan.is_accepted();
        self.board.end(unit, outcome);
    }

    /// An allowed event, before a loss and the stop are looked at.
    pub(super) fn own(&mut self, plan: &Plan, event: &Event) -> Result<(), NoMemory>
        ghost told: { Told }
        requires holds { Holds plan.now self.old told }
        requires ticks { told.core.link.ticks < 2 ^ 63 }
        requires allowed { is_allowed plan.now told.core event.now ≡ true }
        ensures ok { OnOk result (HoldsBody plan.now self.new (told_own plan.now event.now told)) }
        ensures err { OnErr result (HoldsBody plan.now self.new (told_emptied told)) }
        ensures free { has_bytes event.now ≡ false → IsOk result }
    {
        match event {
            Event::Claimed { unit } => self.take_up(plan, *unit),
            Event::Began { unit } => self.begin(plan, *unit),
            Event::Sent { unit, place, lost } => self.send(plan, *unit, *place, *lost),
            Event::Collected { unit, got } => self.collect(plan, *unit, got)?,
            Event::Tended { step } => self.tend(plan, step)?,
            Event::Marked { unit, segment } => self.mark(plan, *unit, *segment),
            Event::Completed { unit } => self.finish(plan, *unit),
            Event::DiskFailed { unit, entry } => self.fail(plan, *unit, *entry),
            Event::Ended { unit, outcome } => self.end(plan, *unit, *outcome),
        }
        Ok(())
    }
}
