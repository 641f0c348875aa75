//! The troubles of a gateway.

ghost use Rattle.std.specs.Prelude.{◌≡◌, ◌⊎◌, ◌-◌, Err};
ghost use Rattle.serde_json.specs.Find.{as_str};
ghost use Rattle.serde_json.specs.View.{view, items_view};
ghost use Rattle.gateway_sim.specs.Troubles.{LAST_TICK};
ghost use Rattle.vehicle_file.specs.Fields.{◌>=>◌, whole};
ghost use Rattle.vehicle_file.specs.Troubles.{alive, deny, few_troubles, gate_deed, gate_deed_in, gate_members, gate_trouble, gate_trouble_members, gate_troubles, is_gate_member, nack, silent};
ghost use Rattle.vehicle_file.specs.declared.fault.Refused.{Refused};

use crate::fault::Refused;
use crate::forms::{Four, Two, Whole};
use crate::reading::{Members, Reader, bad, entries, needed, object_of, of_form};
use crate::trouble::Nth;
use flash_base::Items;
use gateway_sim::GatewayTrouble;
use serde_json::Value;
use std::alloc::Global;

/// The most troubles of a gateway.
const MOST_TROUBLES: usize = 1000;

/// What a gateway does.
#[derive(Clone, Copy, Debug)]
pub(crate) enum GateDeed {
    Deny,
    Silent,
    Nack,
    Alive,
}

fn gate_deed_in(text: &str) -> Option<GateDeed>
    ensures { result ≡ gate_deed_in text.now }
{
    if text == "deny" {
        Some(GateDeed::Deny)
    } else if text == "silent" {
        Some(GateDeed::Silent)
    } else if text == "nack" {
        Some(GateDeed::Nack)
    } else if text == "alive" {
        Some(GateDeed::Alive)
    } else {
        None
    }
}

fn gate_deed_of(value: &Value) -> Option<GateDeed>
    ensures { result ≡ (as_str (view value.now) >=> gate_deed_in) }
{
    gate_deed_in(value.as_str()?)
}

struct GateDeedNamed;

impl Reader for GateDeedNamed {
    type Value = GateDeed;

    ghost reading = { λ _ d. gate_deed d };

    fn read(&self, alloc: Global, value: &Value) -> Result<GateDeed, Refused> {
        of_form(alloc, gate_deed_of(value))
    }
}

fn deny(alloc: Global, value: &Value) -> Result<GatewayTrouble, Refused>
    ensures { (result ≡ Err Refused.NoMemory) ⊎ (result ≡ deny (view value.now)) }
{
    let nth = needed(alloc, value, "nth", &Nth)?;
    let code = needed(alloc, value, "code", &Two)?;
    Ok(GatewayTrouble::Deny { nth, code })
}

fn silent(alloc: Global, value: &Value) -> Result<GatewayTrouble, Refused>
    ensures { (result ≡ Err Refused.NoMemory) ⊎ (result ≡ silent (view value.now)) }
{
    let nth = needed(alloc, value, "nth", &Nth)?;
    Ok(GatewayTrouble::Silent { nth })
}

fn nack(alloc: Global, value: &Value) -> Result<GatewayTrouble, Refused>
    ensures { (result ≡ Err Refused.NoMemory) ⊎ (result ≡ nack (view value.now)) }
{
    let unit = needed(alloc, value, "unit", &Four)?;
    let nth = needed(alloc, value, "nth", &Nth)?;
    let code = needed(alloc, value, "code", &Two)?;
    Ok(GatewayTrouble::Nack { unit, nth, code })
}

/// The tick of an alive check.
const TICK: Whole = Whole {
    least: 0,
    most: 0x7fff_ffff_ffff_ffff,
};

fn alive(alloc: Global, value: &Value) -> Result<GatewayTrouble, Refused>
    ensures { (result ≡ Err Refused.NoMemory) ⊎ (result ≡ alive (view value.now)) }
{
    let tick = needed(alloc, value, "tick", &TICK)?;
    Ok(GatewayTrouble::Alive { tick })
}

#[derive(Clone, Copy)]
struct GateMembers {
    deed: GateDeed,
}

impl Members for GateMembers {
    type Value = GatewayTrouble;

    ghost has = { λ s name. is_gate_member s.deed name };

    ghost reading = { λ s d. gate_members s.deed d };

    fn is_member(&self, name: &str) -> bool {
        match self.deed {
            GateDeed::Deny => name == "nth" || name == "do" || name == "code",
            GateDeed::Silent => name == "nth" || name == "do",
            GateDeed::Nack => name == "unit" || name == "nth" || name == "do" || name == "code",
            GateDeed::Alive => name == "tick" || name == "do",
        }
    }

    fn read(&self, alloc: Global, value: &Value) -> Result<GatewayTrouble, Refused> {
        match self.deed {
            GateDeed::Deny => deny(alloc, value),
            GateDeed::Silent => silent(alloc, value),
            GateDeed::Nack => nack(alloc, value),
            GateDeed::Alive => alive(alloc, value),
        }
    }
}

fn gate_trouble_members(alloc: Global, value: &Value) -> Result<GatewayTrouble, Refused>
    ensures { (result ≡ Err Refused.NoMemory) ⊎ (result ≡ gate_trouble_members (view value.now)) }
{
    let deed = needed(alloc, value, "do", &GateDeedNamed)?;
    object_of(alloc, value, &GateMembers { deed })
}

struct GateTrouble;

impl Reader for GateTrouble {
    type Value = GatewayTrouble;

    ghost reading = { λ _ d. gate_trouble d };

    fn read(&self, alloc: Global, value: &Value) -> Result<GatewayTrouble, Refused> {
        if !value.is_object() {
            return Err(bad(alloc));
        }
        gate_trouble_members(alloc, value)
    }
}

#[tactic(auto, using(crate::proofs::Steps::count_of))]
fn few_troubles(alloc: Global, list: &[Value]) -> Result<Items<GatewayTrouble>, Refused>
    ensures { (result ≡ Err Refused.NoMemory) ⊎ (result ≡ few_troubles (items_view list.now)) }
{
    if list.len() > MOST_TROUBLES {
        return Err(bad(alloc));
    }
    entries(alloc, list, &GateTrouble)
}

/// The troubles of a gateway, at most 1,000.
pub(crate) struct GateTroubles;

impl Reader for GateTroubles {
    type Value = Items<GatewayTrouble>;

    ghost reading = { λ _ d. gate_troubles d };

    fn read(&self, alloc: Global, value: &Value) -> Result<Items<GatewayTrouble>, Refused> {
        match value.as_array() {
            Some(list) => few_troubles(alloc, list.as_slice()),
            None => Err(bad(alloc)),
        }
    }
}
