//! How far a unit has come.
ghost use Rattle.std.specs.Prelude.{◌≡◌, ◌<◌};
ghost use Rattle.flash_plan.specs.Plan.{count_of};

use crate::watcher::Watcher;
use flash_bay::{Bay, Need};
use flash_plan::{Plan, UnitPlan};
use shop_model::Shop;
use unit_session::Spot;

/// How many bytes of the unit's segments stand before a spot of its conversation.
pub fn bytes_before(unit: &UnitPlan, spot: Spot) -> u64 {
    if spot.step < 4 {
        return 0;
    }
    let mut bytes: u64 = 0;
    for i in 0..unit.segments.len() {
        if spot.step == 4 && i >= usize::from(spot.part) {
            return bytes.saturating_add(u64::from(spot.offset));
        }
        bytes = bytes.saturating_add(unit.segments.at(i).body.len() as u64);
    }
    bytes
}

/// Tells a watcher where the unit stands, if its next request is due.
pub(crate) fn tell<S: Shop, W: Watcher>(plan: &Plan, bay: &Bay<S>, unit: u16, watcher: &W)
    requires plan { plan.now ≡ bay.now.run.plan }
    requires within { unit < count_of plan.now }
{
    match bay.need(plan, unit) {
        Need::Send => watcher.stands(plan, unit, bay.spot(plan, unit)),
        Need::Gone
        | Need::Complete
        | Need::End
        | Need::Mark
        | Need::Tend
        | Need::Begin
        | Need::Collect => {}
    }
}
