ghost use Rattle.std.specs.Prelude.{◌≡◌, ◌<◌, ◌&&◌, not, ◌^◌, List, [], take, length, true, false, IfOk, IsOk, OnOk, OnErr};
ghost use Rattle.bay_core.specs.Legal.{is_allowed};
ghost use Rattle.flash_plan.specs.Plan.{count_of, plan_of};
ghost use Rattle.flash_plan.specs.declared.unit.UnitPlan.{UnitPlan};
ghost use Rattle.link_state.specs.State.{Shows};
ghost use Rattle.run_model.specs.Link.{is_up};
ghost use Rattle.bay_replay.specs.Held.{Told, Holds, HoldsBody, Takes, Claims, IsSessionSeen, IsConversation, IsBoardOf, told_after, told_settled, told_lost, told_down, told_shut};
ghost use Rattle.bay_replay.specs.Bytes.{has_bytes};
ghost use Rattle.bay_replay.specs.Replays.{told_by, TakesAt};

use crate::halt::Halt;
use crate::links::{addresses, is_up, stop_by};
use crate::units::Units;
use barrier_board::{Board, Claimed};
use bay_core::{Event, Events};
use flash_base::NoMemory;
use flash_plan::{Entries, LinkRules, Outcome, Plan};
use link_state::LinkState;
use std::alloc::Global;
use unit_session::UnitSession;

mod allowed;
mod effects;

/// What a list of events makes of a run: contracts see by `Holds` what it holds of the core's definition.
///
/// The tests (`may_begin`, `may_send`, ..) say which events are allowed now. The effect of an allowed one is
/// `take`, and `step` is the test followed by it.
#[derive(Debug, Drop)]
pub struct Core {
    board: Board,
    units: Units,
    link: LinkState,
    halt: Halt,
    /// How it stood before the failed appends that stand directly before, which are those of one group.
    before: Halt,
}

impl Core {
    /// The board: who was claimed, and the outcome of each unit.
    pub fn board(&self) -> &Board
        ensures { (plan : List UnitPlan) (told : Told) → Holds plan self.now told
            → IsBoardOf plan told.core result.now }
    {
        &self.board
    }

    /// The board alone.
    pub fn into_board(self) -> Board
        ensures { (plan : List UnitPlan) (told : Told) → Holds plan self told
            → IsBoardOf plan told.core result }
    {
        let Core {
            board,
            units: _units,
            link: _link,
            halt: _halt,
            before: _before,
        } = self;
        board
    }

    /// The conversation of a unit of the plan, or `None` where it was never claimed.
    pub fn session(&self, unit: u16) -> Option<UnitSession>
        ensures { (plan : List UnitPlan) (told : Told) → Holds plan self.now told → unit < count_of plan
            → IsSessionSeen (plan_of plan unit) (told.core.slots unit) result }
    {
        if unit as usize >= self.units.len() {
            return None;
        }
        let kept = self.units.at(unit);
        if kept.claimed {
            Some(kept.session)
        } else {
            None
        }
    }

    /// The conversation of a unit of the plan as it is kept, also where the unit was never claimed.
    pub fn conversation(&self, plan: &Plan, unit: u16) -> UnitSession
        ghost told: { Told }
        requires holds { Holds plan.now self.now told }
        requires within { unit < count_of plan.now }
        ensures { IsConversation (plan_of plan.now unit) (told.core.slots unit) result }
    {
        self.units.at(unit).session
    }

    /// Whether an append for the unit failed.
    pub fn has_faulted(&self, plan: &Plan, unit: u16) -> bool
        ghost told: { Told }
        requires holds { Holds plan.now self.now told }
        requires within { unit < count_of plan.now }
        ensures { result ≡ (told.core.slots unit).faulted }
    {
        self.units.at(unit).faulted
    }

    /// The link: phase, ticks, losses, inboxes, and whether it owes an alive answer.
    pub fn link(&self) -> &LinkState
        ensures { (plan : List UnitPlan) (told : Told) → Holds plan self.now told
            → Shows result.now told.core.link }
    {
        &self.link
    }

    /// The outcome of what first stopped the run, or `None` where it is not stopped.
    pub fn stop(&self) -> Option<Outcome>
        ensures { (plan : List UnitPlan) (told : Told) → Holds plan self.now told
            → result ≡ told.core.halt.stop }
    {
        self.halt.stop
    }

    /// Whether an append has failed.
    pub fn has_failed(&self) -> bool
        ensures { (plan : List UnitPlan) (told : Told) → Holds plan self.now told
            → result ≡ told.core.halt.failed }
    {
        self.halt.failed
    }

    /// Whether the link is up and owes no alive answer.
    pub fn is_linked(&self) -> bool
        ensures { (plan : List UnitPlan) (told : Told) → Holds plan self.now told
            → result ≡ (is_up told.core.link.phase && not told.core.link.owes) }
    {
        is_up(&self.link) && !self.link.owes()
    }

    /// The state before any event.
    pub fn start(
        alloc: Global,
        plan: &Plan,
        rules: LinkRules,
        found: &Entries,
    ) -> Result<Core, NoMemory>
        ensures { IfOk result (λ k. Holds plan.now k (told_by rules plan.now found.now [])) }
    {
        plan.is_accepted();
        let all = addresses(alloc, plan)?;
        Ok(Core {
            board: Board::new(alloc, plan, found)?,
            units: Units::new(alloc, plan, found)?,
            link: LinkState::new(alloc, rules.tester, all.as_slice())?,
            halt: Halt::none(),
            before: Halt::none(),
        })
    }

    /// Where the link was lost since, each attempt starts again.
    fn lose_units(&mut self, plan: &Plan, before: u32)
        ghost told: { Told }
        requires { HoldsBody plan.now self.old told }
        ensures { HoldsBody plan.now self.new (told_lost plan.now before told) }
    {
        if self.link.losses() > before {
            self.units.lose(plan);
        }
    }

    /// Looks at a loss since, and whether the event stops the run.
    fn settle(&mut self, plan: &Plan, rules: &LinkRules, event: &Event, before: u32)
        ghost told: { Told }
        requires body { HoldsBody plan.now self.old told }
        requires rules { told.rules ≡ rules.now }
        ensures { HoldsBody plan.now self.new (told_settled plan.now event.now before told) }
    {
        self.lose_units(plan, before);
        if self.halt.stop.is_none() {
            self.halt.stop = stop_by(&self.link, rules, event);
        }
        if let Event::DiskFailed { .. } = event {
            self.halt.failed = true;
        } else {
            self.before = self.halt;
        }
    }

    /// The link is used no more, and each attempt starts again.
    fn shut(&mut self, plan: &Plan)
        ghost told: { Told }
        requires { HoldsBody plan.now self.old told }
        ensures { HoldsBody plan.now self.new (told_down plan.now told) }
    {
        self.link.shut();
        self.units.lose(plan);
    }

    /// There is no memory to go on with: the link is used no more, no message and no byte of it is kept, and each
    /// attempt starts again.
    pub fn starve(&mut self, plan: &Plan)
        ghost told: { Told }
        requires { Holds plan.now self.old told }
        ensures { Holds plan.now self.new (told_shut plan.now told) }
    {
        self.link.empty();
        self.shut(plan);
    }

    /// Takes an event that is allowed. It wants memory only for bytes that a receive brought. Where there is
    /// none for them, the link is shut and each attempt starts again: the receive is no event of the run.
    pub fn take(&mut self, plan: &Plan, rules: &LinkRules, event: &Event) -> Result<(), NoMemory>
        ghost told: { Told }
        requires holds { Holds plan.now self.old told }
        requires rules { told.rules ≡ rules.now }
        requires ticks { told.core.link.ticks < 2 ^ 63 }
        requires allowed { is_allowed plan.now told.core event.now ≡ true }
        ensures holds { OnOk result (Holds plan.now self.new (told_after plan.now event.now told)) }
        ensures wants { OnErr result (Holds plan.now self.new (told_shut plan.now told)) }
        ensures free { has_bytes event.now ≡ false → IsOk result }
    {
        let before = self.link.losses();
        match self.own(plan, event) {
            Ok(()) => {
                self.settle(plan, rules, event, before);
                Ok(())
            }
            Err(fault) => {
                self.shut(plan);
                Err(fault)
            }
        }
    }

    /// Takes up the lowest unit that is ready, where the run is not stopped.
    pub fn claim_next(&mut self, plan: &Plan, rules: &LinkRules) -> Claimed
        ghost told: { Told }
        requires holds { Holds plan.now self.old told }
        requires rules { told.rules ≡ rules.now }
        ensures { Claims plan.now told self.old result self.new }
    {
        let Some(unit) = self.next_claim(plan) else {
            return Claimed::Nothing;
        };
        let before = self.link.losses();
        self.take_up(plan, unit);
        self.settle(plan, rules, &Event::Claimed { unit }, before);
        Claimed::Unit(unit)
    }

    /// Takes an event where it is allowed, and changes nothing where it is not.
    pub fn step(&mut self, plan: &Plan, rules: &LinkRules, event: &Event) -> Result<bool, NoMemory>
        ghost told: { Told }
        requires holds { Holds plan.now self.old told }
        requires rules { told.rules ≡ rules.now }
        requires ticks { told.core.link.ticks < 2 ^ 63 }
        ensures takes { IfOk result (λ ok. Takes plan.now event.now told self.old ok self.new) }
        ensures wants { OnErr result (Holds plan.now self.new (told_shut plan.now told)) }
        ensures free { has_bytes event.now ≡ false → IsOk result }
    {
        if !self.may_take(plan, event) {
            return Ok(false);
        }
        self.take(plan, rules, event)?;
        Ok(true)
    }

    /// Takes the event with this number, where it is allowed after those before it.
    pub(crate) fn step_at(
        &mut self,
        plan: &Plan,
        rules: &LinkRules,
        found: &Entries,
        events: &Events,
        i: usize,
    ) -> Result<bool, NoMemory>
        ghost told: { Told }
        requires within { i < length events.now }
        requires few { i < 2 ^ 63 }
        requires told { told ≡ told_by rules.now plan.now found.now (take i events.now) }
        requires holds { Holds plan.now self.old told }
        ensures { IfOk result (λ ok. TakesAt rules.now plan.now found.now events.now i ok self.new) }
    {
        self.step(plan, rules, events.at(i))
    }
}
