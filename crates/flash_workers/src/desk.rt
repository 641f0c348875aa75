//! The bay in a box.
ghost use Rattle.std.specs.Prelude.{◌≡◌, ◌<◌, length, true, false, IfSome, IfOk, IfErr};
ghost use Rattle.flash_bay.specs.Calls.{Grows};
ghost use Rattle.flash_bay.specs.Sending.{IsReadyFor};
ghost use Rattle.flash_plan.specs.Plan.{count_of, plan_of};
ghost use Rattle.flash_run.specs.Run.{is_open};
ghost use Rattle.flash_workers.specs.Crew.{ClaimsBy, HasUnit};
ghost use Rattle.flash_workers.specs.Openings.{opening_of};
ghost use Rattle.unit_session.specs.Spots.{IsAsking};

use crate::holding::{Stand, claim_at, step_at};
use bay_core::Event;
use flash_bay::{Bay, Opening};
use flash_plan::Plan;
use shop_model::Shop;
use std::alloc::{AllocFailed, Global};
use std::marker::Model;
use turn_lock::Logged;
use unit_session::Ready;

/// The bay as the turn has it: in a box, so that a take and a give move a pointer. Contracts see it as the bay.
pub struct Desk<S: Shop> {
    pub bay: Box<Bay<S>>,
}

impl<S: Shop> Model for Desk<S> {
    ghost use Rattle.flash_bay.specs.State.{BayState};

    ghost Value = { BayState S };

    ghost view = { λ d. d.bay.value };
}

impl<S: Shop> Logged for Desk<S> {
    type Opening = Opening<S>;

    type Entry = Event;

    ghost opening = { λ b. opening_of b };

    ghost entries = { λ b. b.run.events };

    fn count(&self) -> u64 {
        self.bay.count()
    }
}

impl<S: Shop> Desk<S> {
    /// The bay in a box; where there is no memory for one it comes back.
    pub fn new(alloc: Global, bay: Bay<S>) -> Result<Desk<S>, Bay<S>>
        ensures ok { IfOk result (λ d. d ≡ bay) }
        ensures err { IfErr result (λ b. b ≡ bay) }
    {
        match Box::new(alloc, bay) {
            Ok(bay) => Ok(Desk { bay }),
            Err(failed) => {
                let AllocFailed { value } = failed;
                Err(value)
            }
        }
    }

    /// The bay out of its box.
    pub fn into_bay(self) -> Bay<S>
        ensures { result ≡ self }
    {
        let Desk { bay } = self;
        Box::into_inner(bay)
    }

    /// Claims the lowest unit that is ready, if there is one.
    pub fn claim(&mut self, plan: &Plan) -> Option<u16>
        requires { plan.now ≡ self.old.run.plan }
        ensures grows { Grows self.old self.new }
        ensures claims { ClaimsBy (opening_of self.old) self.old.run.events result self.new.run.events }
        ensures unit { HasUnit plan.now result }
    {
        claim_at(plan, &mut self.bay)
    }

    /// One step of the unit, and how it stands then.
    pub fn step(&mut self, alloc: Global, plan: &Plan, unit: u16, ready: Option<&Ready>) -> Stand
        requires plan { plan.now ≡ self.old.run.plan }
        requires within { unit < count_of plan.now }
        requires ready { IfSome ready (λ r. IsReadyFor self.old.run unit r.now) }
        ensures gone { result.made ≡ is_open self.old.run unit }
        ensures rest { result.made ≡ false → self.new ≡ self.old }
        ensures grows { Grows self.old self.new }
        ensures event { result.made ≡ true → length self.old.run.events < length self.new.run.events }
        ensures tester { result.tester ≡ self.old.run.rules.tester }
        ensures next { IfSome result.next (IsAsking (plan_of plan.now unit)) }
    {
        step_at(alloc, plan, &mut self.bay, unit, ready)
    }
}
