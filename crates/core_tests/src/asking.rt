ghost use Rattle.std.specs.Prelude.{◌≡◌};
ghost use Rattle.bay_replay.specs.Held.{Told, Holds, Claims};

use crate::replays::smallest;
use barrier_board::Claimed;
use bay_replay::Core;
use flash_base::Items;
use flash_plan::{Entries, LinkRules, Outcome, Plan};
use std::test::Fail;

/// The tester 0E80, and no connection made anew.
const RULES: LinkRules = LinkRules {
    tester: 0x0E80,
    relinks: 0,
};

/// Claims, for a caller that knows with which entries the run began.
fn claimed(core: &mut Core, plan: &Plan, rules: &LinkRules, found: &Entries) -> Claimed
    ghost told: { Told }
    requires holds { Holds plan.now core.old told }
    requires rules { told.rules ≡ rules.now }
    ensures { Claims plan.now told core.old result core.new }
{
    core.claim_next(plan, rules)
}

/// Whether the unit is open, may be recorded begun, may be sent its first request, and may end for want of memory.
fn asked(core: &Core, plan: &Plan, rules: &LinkRules, found: &Entries, unit: u16) -> [bool; 4]
    ghost told: { Told }
    requires { Holds plan.now core.now told }
{
    [
        core.is_open(plan, unit),
        core.may_begin(plan, unit),
        core.may_send(plan, unit, 0),
        core.may_end(plan, unit, Outcome::NoMemory),
    ]
}

/// The first unit is claimed and open then; without a connection nothing is recorded or sent for it, but its part
/// may end for want of memory.
#[test]
fn asked_first(rt: HostRuntime) -> Result<(), Fail> {
    let alloc = rt.alloc();
    let plan = smallest(alloc)?;
    let found: Entries = Items::new(alloc);
    let mut core = Core::start(alloc, &plan, RULES, &found)?;
    let Claimed::Unit(unit) = claimed(&mut core, &plan, &RULES, &found) else {
        return Err("no unit".into());
    };
    assert_eq!(rt; unit, 0);
    let answers = asked(&core, &plan, &RULES, &found, unit);
    assert_eq!(rt; answers, [true, false, false, true]);
    let board = core.into_board();
    assert_eq!(rt; board.next_free(), None);
    Ok(())
}
