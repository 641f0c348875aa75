//! The troubles that remain, as a gateway is made with them again.

ghost use Rattle.std.specs.Prelude.{◌≡◌, ◌++◌, IfOk, OnOk};
ghost use Rattle.gateway_sim.specs.Saving.{left_in, left_at};

use crate::spec::GatewayTrouble;
use flash_base::{Items, NoMemory};
use std::alloc::Global;

/// What is left of a trouble: an alive check that was sent is over; the tick of another is lowered by the present one.
fn left(trouble: GatewayTrouble, now: u64) -> Option<GatewayTrouble>
    ensures { result ≡ left_in now trouble }
{
    match trouble {
        GatewayTrouble::Deny { nth, code } => Some(GatewayTrouble::Deny { nth, code }),
        GatewayTrouble::Silent { nth } => Some(GatewayTrouble::Silent { nth }),
        GatewayTrouble::Nack { unit, nth, code } => Some(GatewayTrouble::Nack { unit, nth, code }),
        GatewayTrouble::Alive { tick } => {
            if tick <= now {
                return None;
            }
            Some(GatewayTrouble::Alive { tick: tick - now })
        }
    }
}

/// What is left of each at a tick.
pub(crate) fn remaining(
    alloc: Global,
    troubles: &[GatewayTrouble],
    now: u64,
) -> Result<Items<GatewayTrouble>, NoMemory>
    ensures { IfOk result (λ made. made ≡ left_at now troubles.now) }
{
    let mut made = Items::new(alloc);
    for trouble in troubles {
        if let Some(one) = left(*trouble, now) {
            made.push(one)?;
        }
    }
    Ok(made)
}
