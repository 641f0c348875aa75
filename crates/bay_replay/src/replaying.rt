ghost use Rattle.bay_replay.specs.Replays.{Replays};

use crate::fault::ReplayFault;
use crate::state::Core;
use bay_core::Events;
use flash_plan::{Entries, LinkRules, Plan};
use std::alloc::Global;

/// What the events of a run of this plan make of it, from the entries that its journal had: the
/// state behind them, or the place of the first that is not allowed after those before it.
pub fn replay(
    alloc: Global,
    plan: &Plan,
    rules: &LinkRules,
    found: &Entries,
    events: &Events,
) -> Result<Core, ReplayFault>
    ensures { Replays rules.now plan.now found.now events.now result }
{
    let mut core = Core::start(alloc, plan, *rules, found)?;
    for i in 0..events.as_slice().len() {
        if !core.step_at(plan, rules, found, events, i)? {
            return Err(ReplayFault::FirstBad { place: i as u64 });
        }
    }
    Ok(core)
}
