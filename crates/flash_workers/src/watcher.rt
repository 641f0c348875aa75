//! Who is told how far a run has come.
ghost use Rattle.std.specs.Prelude.{◌<◌};
ghost use Rattle.flash_plan.specs.Plan.{count_of};

use flash_plan::Plan;
use unit_session::Spot;

/// Told of the progress of a run while the bay is not held, by any worker. No contract speaks of it.
pub trait Watcher {
    /// The units of this plan are worked on from now on.
    fn begins(&self, plan: &Plan);

    /// The next request of the unit is due at this spot. [`bytes_before`](crate::bytes_before) says how many
    /// bytes of its segments stand before it.
    fn stands(&self, plan: &Plan, unit: u16, spot: Spot)
        requires { unit < count_of plan.now };

    /// The unit has its outcome.
    fn ended(&self, plan: &Plan, unit: u16)
        requires { unit < count_of plan.now };

    /// No unit is worked on any more. The outcomes are printed after this.
    fn ends(&self, plan: &Plan);
}

/// Nobody looks.
pub struct Unwatched;

impl Watcher for Unwatched {
    fn begins(&self, _plan: &Plan) {}

    fn stands(&self, _plan: &Plan, _unit: u16, _spot: Spot) {}

    fn ended(&self, _plan: &Plan, _unit: u16) {}

    fn ends(&self, _plan: &Plan) {}
}
