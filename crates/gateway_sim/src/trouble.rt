//! Which trouble acts on an activation request or on a message, and what remains behind it.

ghost use Rattle.std.specs.Prelude.{◌≡◌, Option, None};
ghost use Rattle.gateway_sim.specs.Acting.{turn_of, how, code_for, nack_for, lowered_activation, lowered_message, remains, counted_activation, counted_message, is_at, alive_of};
ghost use Rattle.unit_model.specs.Poll.{has_tick};

use crate::spec::GatewayTrouble;

/// How an activation request is answered.
#[derive(Clone, Copy, Debug)]
pub(crate) enum Answer {
    /// Routing is activated.
    Accept,
    /// With another code.
    Deny { code: u8 },
    /// Not at all.
    Ignore,
}

/// The code of routing that is activated (ISO 13400-2:2019, payload type 0x0006).
pub(crate) const ACTIVATED: u8 = 0x10;

/// How the next activation request is answered, if the trouble stands for it. To say that routing is activated is none.
fn turn_of(trouble: &GatewayTrouble) -> Option<Answer>
    ensures { result ≡ turn_of trouble.now }
{
    match trouble {
        GatewayTrouble::Deny { nth, code } => {
            if *nth != 1 {
                return None;
            }
            if *code == ACTIVATED {
                return Some(Answer::Accept);
            }
            Some(Answer::Deny { code: *code })
        }
        GatewayTrouble::Silent { nth } => {
            if *nth != 1 {
                return None;
            }
            Some(Answer::Ignore)
        }
        GatewayTrouble::Nack { .. } => None,
        GatewayTrouble::Alive { .. } => None,
    }
}

/// How the next activation request is answered.
pub(crate) fn how(troubles: &[GatewayTrouble]) -> Answer
    ensures { result ≡ how troubles.now }
{
    for trouble in troubles {
        if let Some(answer) = turn_of(trouble) {
            return answer;
        }
    }
    Answer::Accept
}

/// The code with which the next message to the unit is refused, if the trouble stands for it.
fn code_for(trouble: &GatewayTrouble, target: u16) -> Option<u8>
    ensures { result ≡ code_for target trouble.now }
{
    match trouble {
        GatewayTrouble::Nack { unit, nth, code } => {
            if *unit != target {
                return None;
            }
            if *nth != 1 {
                return None;
            }
            Some(*code)
        }
        GatewayTrouble::Deny { .. } => None,
        GatewayTrouble::Silent { .. } => None,
        GatewayTrouble::Alive { .. } => None,
    }
}

/// The code with which the next message to the unit is refused, if it is.
pub(crate) fn nack_for(troubles: &[GatewayTrouble], target: u16) -> Option<u8>
    ensures { result ≡ nack_for target troubles.now }
{
    for trouble in troubles {
        if let Some(code) = code_for(trouble, target) {
            return Some(code);
        }
    }
    None
}

fn lowered_activation(trouble: GatewayTrouble) -> GatewayTrouble
    ensures { result ≡ lowered_activation trouble }
{
    match trouble {
        GatewayTrouble::Deny { nth, code } => GatewayTrouble::Deny {
            nth: nth.saturating_sub(1),
            code,
        },
        GatewayTrouble::Silent { nth } => GatewayTrouble::Silent {
            nth: nth.saturating_sub(1),
        },
        GatewayTrouble::Nack { unit, nth, code } => GatewayTrouble::Nack { unit, nth, code },
        GatewayTrouble::Alive { tick } => GatewayTrouble::Alive { tick },
    }
}

fn lowered_message(trouble: GatewayTrouble, target: u16) -> GatewayTrouble
    ensures { result ≡ lowered_message target trouble }
{
    match trouble {
        GatewayTrouble::Nack { unit, nth, code } => {
            if unit != target {
                return GatewayTrouble::Nack { unit, nth, code };
            }
            GatewayTrouble::Nack {
                unit,
                nth: nth.saturating_sub(1),
                code,
            }
        }
        GatewayTrouble::Deny { nth, code } => GatewayTrouble::Deny { nth, code },
        GatewayTrouble::Silent { nth } => GatewayTrouble::Silent { nth },
        GatewayTrouble::Alive { tick } => GatewayTrouble::Alive { tick },
    }
}

fn lower_activation(trouble: &mut GatewayTrouble)
    ensures { trouble.new ≡ lowered_activation trouble.old }
{
    *trouble = lowered_activation(*trouble);
}

fn lower_message(trouble: &mut GatewayTrouble, target: u16)
    ensures { trouble.new ≡ lowered_message target trouble.old }
{
    *trouble = lowered_message(*trouble, target);
}

/// It is not over: its number is at least 1.
fn remains(trouble: &GatewayTrouble) -> bool
    ensures { result ≡ remains trouble.now }
{
    match trouble {
        GatewayTrouble::Deny { nth, .. } => *nth > 0,
        GatewayTrouble::Silent { nth } => *nth > 0,
        GatewayTrouble::Nack { nth, .. } => *nth > 0,
        GatewayTrouble::Alive { .. } => true,
    }
}

/// Each of the list counts an activation request, whichever acted; what is over goes.
pub(crate) fn count_activation(troubles: &mut Vec<GatewayTrouble>)
    ensures { troubles.new.items ≡ counted_activation troubles.old.items }
{
    for i in 0..troubles.len() {
        lower_activation(&mut troubles[i]);
    }
    troubles.retain(|t| remains(t));
}

/// Each of the list counts a message to the unit.
pub(crate) fn count_message(troubles: &mut Vec<GatewayTrouble>, target: u16)
    ensures { troubles.new.items ≡ counted_message target troubles.old.items }
{
    for i in 0..troubles.len() {
        lower_message(&mut troubles[i], target);
    }
    troubles.retain(|t| remains(t));
}

fn is_at(trouble: &GatewayTrouble, now: u64) -> bool
    ensures { result ≡ is_at now trouble.now }
{
    match trouble {
        GatewayTrouble::Alive { tick } => *tick == now,
        GatewayTrouble::Deny { .. } => false,
        GatewayTrouble::Silent { .. } => false,
        GatewayTrouble::Nack { .. } => false,
    }
}

/// Whether an alive check is listed for this tick.
pub(crate) fn has_alive(troubles: &[GatewayTrouble], now: u64) -> bool
    ensures { result ≡ has_tick now (alive_of troubles.now) }
{
    for trouble in troubles {
        if is_at(trouble, now) {
            return true;
        }
    }
    false
}
