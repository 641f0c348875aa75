//! Where the conversation of a unit stands, and what it waits for.
ghost use Rattle.std.specs.Prelude.{◌≡◌, ◌<◌, false};
ghost use Rattle.bay_replay.specs.Held.{IsConversation};
ghost use Rattle.flash_plan.specs.Plan.{count_of, plan_of};
ghost use Rattle.flash_run.specs.Run.{core_of_run};
ghost use Rattle.flash_plan.specs.declared.unit.UnitPlan.{UnitPlan as AUnitPlan};
ghost use Rattle.flash_run.specs.Waiting.{waiting_in, waiting_of};
ghost use Rattle.unit_session.specs.Session.{talk_of};
ghost use Rattle.unit_session.specs.Spots.{IsSpotOf};

use crate::run::Run;
use crate::steps::conversation_in;
use flash_plan::Plan;
use unit_session::{Spot, UnitSession};

/// How many responses pending have come to the last request; `None` where no answer is awaited.
fn waiting_of(session: &UnitSession) -> Option<u8>
    ensures { (u : AUnitPlan) → result ≡ waiting_of (talk_of u session.now) }
{
    if session.is_awaiting() {
        Some(session.pendings())
    } else {
        None
    }
}

impl Run {
    /// The conversation of the unit.
    fn conversation(&self, plan: &Plan, unit: u16) -> UnitSession
        requires plan { plan.now ≡ self.now.plan }
        requires within { unit < count_of plan.now }
        requires fed { self.now.starved ≡ false }
        ensures { IsConversation (plan_of self.now.plan unit) ((core_of_run self.now).slots unit) result }
    {
        conversation_in(
            &self.core,
            plan,
            &self.rules,
            &self.found,
            &self.notes,
            self.starved,
            unit,
        )
    }

    /// Where the conversation of the unit stands, by numbers.
    pub fn spot(&self, plan: &Plan, unit: u16) -> Spot
        requires plan { plan.now ≡ self.now.plan }
        requires within { unit < count_of plan.now }
        requires fed { self.now.starved ≡ false }
        ensures { IsSpotOf (plan_of self.now.plan unit)
            ((core_of_run self.now).slots unit).talk.place result }
    {
        plan.is_accepted();
        self.conversation(plan, unit).spot()
    }

    /// How many final answers the unit's attempt has: the number of its next request, from 0.
    pub fn number(&self, plan: &Plan, unit: u16) -> u32
        requires plan { plan.now ≡ self.now.plan }
        requires within { unit < count_of plan.now }
        requires fed { self.now.starved ≡ false }
        ensures { result ≡ ((core_of_run self.now).slots unit).talk.number }
    {
        self.conversation(plan, unit).number()
    }

    /// How many responses pending have come to the unit's last request; `None` where no answer is awaited.
    pub fn waiting(&self, plan: &Plan, unit: u16) -> Option<u8>
        requires plan { plan.now ≡ self.now.plan }
        requires within { unit < count_of plan.now }
        requires fed { self.now.starved ≡ false }
        ensures { result ≡ waiting_in self.now unit }
    {
        waiting_of(&self.conversation(plan, unit))
    }
}
