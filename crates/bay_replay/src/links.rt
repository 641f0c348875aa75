ghost use Rattle.std.specs.Prelude.{◌≡◌, ◌<◌, ◌^◌, None, IfOk};
ghost use Rattle.flash_plan.specs.Plan.{plan_of};
ghost use Rattle.link_state.specs.State.{Shows, SameLabels, AreDistinct, loss_count};
ghost use Rattle.run_model.specs.Link as model;
ghost use Rattle.run_model.specs.Link.{Link, lost_or};
ghost use Rattle.bay_core.specs.Core.{addresses_of, link_stop, stop_after};

use bay_core::Event;
use flash_base::NoMemory;
use flash_plan::{LinkRules, Outcome, Plan};
use link_state::{LinkState, Phase};
use std::alloc::Global;

/// The addresses of a plan's units.
pub fn addresses(alloc: Global, plan: &Plan) -> Result<Vec<u16>, NoMemory>
    ensures { IfOk result (λ v. v.items ≡ addresses_of plan.now) }
{
    let mut all = Vec::new(alloc);
    for n in 0..plan.units() {
        all.push(plan.unit(n).address)?;
    }
    Ok(all)
}

/// Whether there is no connection.
pub fn is_down(link: &LinkState) -> bool
    ensures { (l : Link) → Shows link.now l → result ≡ model.is_down l.phase }
{
    matches!(link.phase(), Phase::Down)
}

/// Whether the connection is new.
pub fn is_dialed(link: &LinkState) -> bool
    ensures { (l : Link) → Shows link.now l → result ≡ model.is_dialed l.phase }
{
    matches!(link.phase(), Phase::Dialed)
}

/// Whether the activation is awaited.
pub fn is_asked(link: &LinkState) -> bool
    ensures { (l : Link) → Shows link.now l → result ≡ model.is_asked l.phase }
{
    matches!(link.phase(), Phase::Asked)
}

/// Whether the activation was accepted.
pub fn is_up(link: &LinkState) -> bool
    ensures { (l : Link) → Shows link.now l → result ≡ model.is_up l.phase }
{
    matches!(link.phase(), Phase::Up)
}

/// The connection is lost, if `lost`.
pub fn lose(link: &mut LinkState, lost: bool)
    requires { loss_count link.old < 2 ^ 31 }
    ensures shows { (l : Link) → Shows link.old l → Shows link.new (lost_or lost l) }
    ensures labels { SameLabels link.old link.new }
{
    if lost {
        link.drop_it();
    }
}

/// What the link stops a run with: more losses than the rules make anew, or a denied activation.
fn cause(link: &LinkState, rules: &LinkRules) -> Option<Outcome>
    ensures { (l : Link) → Shows link.now l → result ≡ link_stop rules.now l }
{
    let times = link.losses();
    if times > u32::from(rules.relinks) {
        return Some(Outcome::LinkLost { times });
    }
    match link.phase() {
        Phase::Refused { code } => Some(Outcome::LinkRefused { code }),
        Phase::Down | Phase::Dialed | Phase::Asked | Phase::Up => None,
    }
}

/// What an event stops a run with that was not stopped before it.
pub fn stop_by(link: &LinkState, rules: &LinkRules, event: &Event) -> Option<Outcome>
    ensures { (l : Link) → Shows link.now l → result ≡ stop_after None event.now rules.now l }
{
    match event {
        Event::DiskFailed { .. } => Some(Outcome::DiskFault),
        Event::Claimed { .. }
        | Event::Began { .. }
        | Event::Sent { .. }
        | Event::Collected { .. }
        | Event::Tended { .. }
        | Event::Marked { .. }
        | Event::Completed { .. }
        | Event::Ended { .. } => cause(link, rules),
    }
}
