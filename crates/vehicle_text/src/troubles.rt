//! The troubles of a unit and of a gateway.

ghost use Rattle.std.specs.Prelude.{◌≡◌, ◌<◌, OnOk};
ghost use Rattle.unit_model.specs.declared.spec.Act.TheVariants.{Pending};
ghost use Rattle.vehicle_text.specs.Objects.{put_all};
ghost use Rattle.vehicle_text.specs.Ranges.{FitsAct, FitsGate, FitsTrouble, FitsUntil};
ghost use Rattle.vehicle_text.specs.Troubles.{act_fields, gate_fields, pair_fields, trouble_fields, until_fields};

use crate::forms::{put_bytes, put_four, put_number, put_two, put_whole, put_words};
use crate::lists::{Form, put_object};
use crate::out::Out;
use flash_base::NoMemory;
use gateway_sim::GatewayTrouble;
use std::alloc::Global;
use unit_model::{Act, TroubleSpec, Until};

/// A unit that has to hear a service.
struct HeardForm;

impl Form for HeardForm {
    type Item = (u16, u8);

    ghost fields = { pair_fields };

    ghost fits = { λ p. (p.0 < 65536) × (p.1 < 256) };

    fn write(&self, alloc: Global, out: &mut Out, item: &(u16, u8)) -> Result<(), NoMemory> {
        put_four(alloc, out, "unit", item.0)?;
        put_two(alloc, out, "sid", item.1)
    }
}

fn put_until(alloc: Global, out: &mut Out, until: Until) -> Result<(), NoMemory>
    ensures is { OnOk result (out.new ≡ put_all (until_fields until) out.old) }
    ensures fits { OnOk result (FitsUntil until) }
{
    match until {
        Until::Times(times) => put_whole(out, "times", u64::from(times)),
        Until::Heard { unit, sid } => put_object(alloc, out, "until", &(unit, sid), &HeardForm),
    }
}

fn put_pending(alloc: Global, out: &mut Out, ticks: u32, until: Until) -> Result<(), NoMemory>
    ensures is { OnOk result (out.new ≡ put_all (act_fields (Pending ticks until)) out.old) }
    ensures fits { OnOk result (FitsAct (Pending ticks until)) }
{
    put_words(out, "do", "pending")?;
    put_number(out, "ticks", ticks)?;
    put_until(alloc, out, until)
}

fn put_act(alloc: Global, out: &mut Out, act: &Act) -> Result<(), NoMemory>
    ensures is { OnOk result (out.new ≡ put_all (act_fields act.now) out.old) }
    ensures fits { OnOk result (FitsAct act.now) }
{
    match act {
        Act::Refuse { nrc } => {
            put_words(out, "do", "refuse")?;
            put_two(alloc, out, "nrc", *nrc)
        }
        Act::Odd { bytes } => {
            put_words(out, "do", "odd")?;
            put_bytes(alloc, out, "hex", bytes.as_slice())
        }
        Act::Fail { status } => {
            put_words(out, "do", "fail")?;
            put_two(alloc, out, "status", *status)
        }
        Act::Mute => put_words(out, "do", "mute"),
        Act::Delay { ticks } => {
            put_words(out, "do", "delay")?;
            put_number(out, "ticks", *ticks)
        }
        Act::Busy { times } => {
            put_words(out, "do", "busy")?;
            put_whole(out, "times", u64::from(*times))
        }
        Act::Pending { ticks, until } => put_pending(alloc, out, *ticks, *until),
    }
}

/// A trouble of a unit.
pub(crate) struct TroubleForm;

impl Form for TroubleForm {
    type Item = TroubleSpec;

    ghost fields = { trouble_fields };

    ghost fits = { FitsTrouble };

    fn write(&self, alloc: Global, out: &mut Out, item: &TroubleSpec) -> Result<(), NoMemory> {
        put_two(alloc, out, "sid", item.sid)?;
        put_number(out, "nth", item.nth)?;
        put_act(alloc, out, &item.act)
    }
}

fn put_gate(alloc: Global, out: &mut Out, trouble: GatewayTrouble) -> Result<(), NoMemory>
    ensures is { OnOk result (out.new ≡ put_all (gate_fields trouble) out.old) }
    ensures fits { OnOk result (FitsGate trouble) }
{
    match trouble {
        GatewayTrouble::Deny { nth, code } => {
            put_number(out, "nth", nth)?;
            put_words(out, "do", "deny")?;
            put_two(alloc, out, "code", code)
        }
        GatewayTrouble::Silent { nth } => {
            put_number(out, "nth", nth)?;
            put_words(out, "do", "silent")
        }
        GatewayTrouble::Nack { unit, nth, code } => {
            put_four(alloc, out, "unit", unit)?;
            put_number(out, "nth", nth)?;
            put_words(out, "do", "nack")?;
            put_two(alloc, out, "code", code)
        }
        GatewayTrouble::Alive { tick } => {
            put_whole(out, "tick", tick)?;
            put_words(out, "do", "alive")
        }
    }
}

/// A trouble of a gateway.
pub(crate) struct GateForm;

impl Form for GateForm {
    type Item = GatewayTrouble;

    ghost fields = { gate_fields };

    ghost fits = { FitsGate };

    fn write(&self, alloc: Global, out: &mut Out, item: &GatewayTrouble) -> Result<(), NoMemory> {
        put_gate(alloc, out, *item)
    }
}
