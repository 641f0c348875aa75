//! The calls of the kept state, each beside the plan, the rules, the entries and the events that it is the state of.
ghost use Rattle.std.specs.Prelude.{◌≡◌, ◌<◌, ◌^◌, false, true, IsOk, OnErr, OnOk};
ghost use Rattle.bay_core.specs.Legal.{has_message, is_allowed, is_open_unit};
ghost use Rattle.bay_replay.specs.Bytes.{has_bytes};
ghost use Rattle.bay_replay.specs.Held.{Claims, Holds, IsConversation, Told, told_after, told_shut};
ghost use Rattle.flash_plan.specs.Plan.{count_of, plan_of};

use crate::notes::Notes;
use barrier_board::Claimed;
use bay_core::Event;
use bay_replay::Core;
use flash_base::NoMemory;
use flash_plan::{Entries, LinkRules, Plan};
use unit_session::UnitSession;

/// Takes up the lowest unit that is ready.
pub(crate) fn claim_in(
    core: &mut Core,
    plan: &Plan,
    rules: &LinkRules,
    found: &Entries,
    notes: &Notes,
    starved: bool,
) -> Claimed
    ghost told: { Told }
    requires holds { Holds plan.now core.old told }
    requires rules { told.rules ≡ rules.now }
    ensures { Claims plan.now told core.old result core.new }
{
    core.claim_next(plan, rules)
}

/// Takes an event that is allowed.
pub(crate) fn take_in(
    core: &mut Core,
    plan: &Plan,
    rules: &LinkRules,
    found: &Entries,
    notes: &Notes,
    starved: bool,
    event: &Event,
) -> Result<(), NoMemory>
    ghost told: { Told }
    requires holds { Holds plan.now core.old told }
    requires rules { told.rules ≡ rules.now }
    requires ticks { told.core.link.ticks < 2 ^ 63 }
    requires allowed { is_allowed plan.now told.core event.now ≡ true }
    ensures holds { OnOk result (Holds plan.now core.new (told_after plan.now event.now told)) }
    ensures wants { OnErr result (Holds plan.now core.new (told_shut plan.now told)) }
    ensures free { has_bytes event.now ≡ false → IsOk result }
{
    core.take(plan, rules, event)
}

/// Whether the event is allowed now.
pub(crate) fn may_take_in(
    core: &Core,
    plan: &Plan,
    rules: &LinkRules,
    found: &Entries,
    notes: &Notes,
    starved: bool,
    event: &Event,
) -> bool
    ghost told: { Told }
    requires { Holds plan.now core.now told }
    ensures { result ≡ is_allowed plan.now told.core event.now }
{
    core.may_take(plan, event)
}

/// Whether the unit is claimed and has no outcome.
pub(crate) fn is_open_in(
    core: &Core,
    plan: &Plan,
    rules: &LinkRules,
    found: &Entries,
    notes: &Notes,
    starved: bool,
    unit: u16,
) -> bool
    ghost told: { Told }
    requires { Holds plan.now core.now told }
    ensures { result ≡ is_open_unit plan.now told.core unit }
{
    core.is_open(plan, unit)
}

/// The conversation of a unit of the plan.
pub(crate) fn conversation_in(
    core: &Core,
    plan: &Plan,
    rules: &LinkRules,
    found: &Entries,
    notes: &Notes,
    starved: bool,
    unit: u16,
) -> UnitSession
    ghost told: { Told }
    requires holds { Holds plan.now core.now told }
    requires within { unit < count_of plan.now }
    ensures { IsConversation (plan_of plan.now unit) (told.core.slots unit) result }
{
    core.conversation(plan, unit)
}

/// Whether an append for the unit failed.
pub(crate) fn has_faulted_in(
    core: &Core,
    plan: &Plan,
    rules: &LinkRules,
    found: &Entries,
    notes: &Notes,
    starved: bool,
    unit: u16,
) -> bool
    ghost told: { Told }
    requires holds { Holds plan.now core.now told }
    requires within { unit < count_of plan.now }
    ensures { result ≡ (told.core.slots unit).faulted }
{
    core.has_faulted(plan, unit)
}

/// The link is used no more, and each attempt starts again.
pub(crate) fn starve_in(
    core: &mut Core,
    plan: &Plan,
    rules: &LinkRules,
    found: &Entries,
    notes: &Notes,
    starved: bool,
)
    ghost told: { Told }
    requires { Holds plan.now core.old told }
    ensures { Holds plan.now core.new (told_shut plan.now told) }
{
    core.starve(plan);
}

/// Whether a message of the unit is in its inbox.
pub(crate) fn has_message_in(
    core: &Core,
    plan: &Plan,
    rules: &LinkRules,
    found: &Entries,
    notes: &Notes,
    starved: bool,
    unit: u16,
) -> bool
    ghost told: { Told }
    requires holds { Holds plan.now core.now told }
    requires within { unit < count_of plan.now }
    ensures { result ≡ has_message plan.now told.core unit }
{
    core.has_message(plan, unit)
}
