//! What a worker does while it holds the bay, and what it makes of that afterwards.
ghost use Rattle.std.specs.Prelude.{◌≡◌, ◌<◌, length, true, false, IfSome};
ghost use Rattle.flash_bay.specs.Calls.{Grows};
ghost use Rattle.flash_bay.specs.Sending.{IsReadyFor};
ghost use Rattle.flash_plan.specs.Plan.{count_of, plan_of};
ghost use Rattle.flash_run.specs.Run.{is_open};
ghost use Rattle.flash_workers.specs.Crew.{ClaimsBy, HasUnit, IsMade, unit_of};
ghost use Rattle.flash_workers.specs.Openings.{opening_of};
ghost use Rattle.unit_session.specs.Spots.{IsAsking};

use crate::unit_step::step;
use barrier_board::Claimed;
use flash_bay::{Bay, Need};
use flash_plan::Plan;
use shop_model::Shop;
use std::alloc::Global;
use unit_session::{Ready, Spot, prepare};

/// How a unit stands after a step.
#[derive(Clone, Copy)]
pub struct Stand {
    /// Whether a step was made; else the unit has its outcome, or was not claimed.
    pub made: bool,
    /// The unit waited before the step, and waits again: for an answer, or for the link.
    pub waits: bool,
    /// The address from which requests are sent.
    pub tester: u16,
    /// Where the conversation stands, if its next request is due.
    pub next: Option<Spot>,
}

/// Whether the call only looks for what comes from the vehicle.
fn is_waiting(need: Need) -> bool {
    match need {
        Need::Collect | Need::Tend => true,
        Need::Gone | Need::Complete | Need::End | Need::Mark | Need::Begin | Need::Send => false,
    }
}

/// Where the conversation of the unit stands, if its next request is due.
pub(crate) fn next_spot<S: Shop>(plan: &Plan, bay: &Bay<S>, unit: u16) -> Option<Spot>
    requires plan { plan.now ≡ bay.now.run.plan }
    requires within { unit < count_of plan.now }
    ensures { IfSome result (IsAsking (plan_of plan.now unit)) }
{
    match bay.need(plan, unit) {
        Need::Send => Some(bay.spot(plan, unit)),
        Need::Gone
        | Need::Complete
        | Need::End
        | Need::Mark
        | Need::Tend
        | Need::Begin
        | Need::Collect => None,
    }
}

/// The unit that was claimed, if one was.
fn unit_of(claimed: Claimed) -> Option<u16>
    ensures { result ≡ unit_of claimed }
{
    match claimed {
        Claimed::Unit(unit) => Some(unit),
        Claimed::Nothing => None,
    }
}

/// Claims the lowest unit that is ready, if there is one.
pub fn claim_at<S: Shop>(plan: &Plan, bay: &mut Bay<S>) -> Option<u16>
    requires { plan.now ≡ bay.old.run.plan }
    ensures grows { Grows bay.old bay.new }
    ensures claims { ClaimsBy (opening_of bay.old) bay.old.run.events result bay.new.run.events }
    ensures unit { HasUnit plan.now result }
{
    unit_of(bay.claim(plan))
}

/// One step of the unit, and how it stands then.
pub fn step_at<S: Shop>(
    alloc: Global,
    plan: &Plan,
    bay: &mut Bay<S>,
    unit: u16,
    ready: Option<&Ready>,
) -> Stand
    requires plan { plan.now ≡ bay.old.run.plan }
    requires within { unit < count_of plan.now }
    requires ready { IfSome ready (λ r. IsReadyFor bay.old.run unit r.now) }
    ensures gone { result.made ≡ is_open bay.old.run unit }
    ensures rest { result.made ≡ false → bay.new ≡ bay.old }
    ensures grows { Grows bay.old bay.new }
    ensures event { result.made ≡ true → length bay.old.run.events < length bay.new.run.events }
    ensures tester { result.tester ≡ bay.old.run.rules.tester }
    ensures next { IfSome result.next (IsAsking (plan_of plan.now unit)) }
{
    let tester = bay.tester();
    let before = is_waiting(bay.need(plan, unit));
    let made = step(alloc, plan, bay, unit, ready);
    let after = is_waiting(bay.need(plan, unit));
    Stand {
        made,
        waits: before && after,
        tester,
        next: next_spot(plan, bay, unit),
    }
}

/// The next request of the unit, made while nobody need wait for it. None where none is due, or there is no
/// memory for it: then the step makes it.
pub fn ready_at(alloc: Global, plan: &Plan, unit: u16, stand: Stand) -> Option<Ready>
    requires within { unit < count_of plan.now }
    requires next { IfSome stand.next (IsAsking (plan_of plan.now unit)) }
    ensures { IfSome result (IsMade stand.tester plan.now unit) }
{
    plan.is_accepted();
    let spot = stand.next?;
    prepare(alloc, stand.tester, plan.unit(unit), unit, spot).ok()
}
