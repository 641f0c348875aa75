//! What the units without outcome get at the end of a run.
ghost use Rattle.std.specs.Prelude.{◌≡◌, ◌<◌, ℕ, true, false, IfSome};
ghost use Rattle.flash_plan.specs.Plan.{count_of};
ghost use Rattle.flash_run.specs.Ending.{AllEnded, EndsNow, EndsSome, Finishes, IsBlocking, IsOver, NoneReady, lacks_outcome};
ghost use Rattle.flash_run.specs.Run.{is_open, is_stopped};

use crate::run::Run;
use bay_core::Event;
use flash_plan::{Outcome, Plan};

impl Run {
    /// Whether the unit has no outcome.
    fn lacks_outcome(&self, plan: &Plan, unit: u16) -> bool
        requires plan { plan.now ≡ self.now.plan }
        requires within { unit < count_of plan.now }
        ensures { result ≡ lacks_outcome self.now unit }
    {
        let outcome = Outcome::NoMemory;
        self.may_take(plan, &Event::Ended { unit, outcome })
    }

    /// That the unit is blocked, where one that is to be complete before it has an outcome and is not.
    fn blocked(&self, plan: &Plan, unit: u16) -> Option<Outcome>
        requires plan { plan.now ≡ self.now.plan }
        requires within { unit < count_of plan.now }
        ensures { IsBlocking self.now unit result }
    {
        let after = plan.unit(unit).after.as_slice();
        for i in 0..after.len() {
            let outcome = Outcome::Blocked { by: after[i] };
            if self.may_take(plan, &Event::Ended { unit, outcome }) {
                return Some(outcome);
            }
        }
        None
    }

    /// What the unit gets now: nothing where it has its outcome, or waits for one that has none.
    fn end_now(&self, plan: &Plan, unit: u16) -> Option<Outcome>
        requires plan { plan.now ≡ self.now.plan }
        requires within { unit < count_of plan.now }
        requires over { IsOver self.now }
        ensures { EndsNow self.now unit result }
    {
        if !self.lacks_outcome(plan, unit) {
            return None;
        }
        if self.is_stopped() {
            return Some(self.stop_for(plan, unit));
        }
        self.blocked(plan, unit)
    }

    /// The lowest unit that gets its outcome now, and that outcome.
    fn next_end(&self, plan: &Plan) -> Option<(u16, Outcome)>
        requires plan { plan.now ≡ self.now.plan }
        requires over { IsOver self.now }
        ensures { EndsSome self.now result }
    {
        for unit in 0..plan.units() {
            if let Some(outcome) = self.end_now(plan, unit) {
                return Some((unit, outcome));
            }
        }
        None
    }

    /// Gives each unit without outcome what is left for it: what stopped the run, or that it is blocked, in an order
    /// that respects which units are to be complete before which. It wants no memory.
    pub fn finish(&mut self, plan: &Plan)
        requires plan { plan.now ≡ self.old.plan }
        requires over { IsOver self.old }
        ensures finishes { Finishes self.old self.new }
        ensures ended { AllEnded self.new }
    {
        while let Some(next) = self.next_end(plan) {
            let (unit, outcome) = next;
            self.is_kept();
            self.note(plan, Event::Ended { unit, outcome });
        }
        self.is_kept();
    }
}
