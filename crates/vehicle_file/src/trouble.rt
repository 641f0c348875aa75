//! The troubles of a unit.

ghost use Rattle.std.specs.Prelude.{◌≡◌, ◌⊎◌, Err, codes};
ghost use Rattle.serde_json.specs.Find.{as_str};
ghost use Rattle.serde_json.specs.View.{view};
ghost use Rattle.unit_model.specs.Troubles.{MOST_TICKS, MOST_TIMES};
ghost use Rattle.vehicle_file.specs.Fields.{◌>=>◌, LAST_NTH, whole};
ghost use Rattle.vehicle_file.specs.Troubles.{act_in, act_of, deed, deed_in, has, is_further, is_trouble_member, is_until_member, is_waiting, pending, times, trouble, trouble_members, trouble_of, until, until_members, waits};
ghost use Rattle.vehicle_file.specs.declared.fault.Refused.{Refused};

use crate::fault::Refused;
use crate::forms::{BytesTo, Four, Two, Whole};
use crate::reading::{Members, Reader, bad, bad_at, needed, object_of, of_form};
use serde_json::Value;
use std::alloc::Global;
use unit_model::{Act, TroubleSpec, Until};

/// What a unit does.
#[derive(Clone, Copy, Debug)]
pub(crate) enum Deed {
    Refuse,
    Odd,
    Fail,
    Mute,
    Delay,
    Busy,
    Pending,
}

/// The number of a request, from 1.
pub(crate) struct Nth;

impl Reader for Nth {
    type Value = u32;

    ghost reading = { λ _ d. whole 1 LAST_NTH d };

    fn read(&self, alloc: Global, value: &Value) -> Result<u32, Refused> {
        let number = Whole {
            least: 1,
            most: 0xffff_ffff,
        }
        .read(alloc, value)?;
        Ok(number as u32)
    }
}

/// How many ticks.
#[derive(Clone, Copy)]
struct Ticks {
    least: u64,
}

impl Reader for Ticks {
    type Value = u32;

    ghost reading = { λ s d. whole s.least MOST_TICKS d };

    fn read(&self, alloc: Global, value: &Value) -> Result<u32, Refused> {
        let number = Whole {
            least: self.least,
            most: 1_000_000,
        }
        .read(alloc, value)?;
        Ok(number as u32)
    }
}

/// How often.
struct Times;

impl Reader for Times {
    type Value = u16;

    ghost reading = { λ _ d. times d };

    fn read(&self, alloc: Global, value: &Value) -> Result<u16, Refused> {
        let number = Whole {
            least: 1,
            most: 1000,
        }
        .read(alloc, value)?;
        Ok(number as u16)
    }
}

fn deed_in(text: &str) -> Option<Deed>
    ensures { result ≡ deed_in text.now }
{
    if text == "refuse" {
        Some(Deed::Refuse)
    } else if text == "odd" {
        Some(Deed::Odd)
    } else if text == "fail" {
        Some(Deed::Fail)
    } else if text == "mute" {
        Some(Deed::Mute)
    } else if text == "delay" {
        Some(Deed::Delay)
    } else if text == "busy" {
        Some(Deed::Busy)
    } else if text == "pending" {
        Some(Deed::Pending)
    } else {
        None
    }
}

fn deed_of(value: &Value) -> Option<Deed>
    ensures { result ≡ (as_str (view value.now) >=> deed_in) }
{
    deed_in(value.as_str()?)
}

struct DeedNamed;

impl Reader for DeedNamed {
    type Value = Deed;

    ghost reading = { λ _ d. deed d };

    fn read(&self, alloc: Global, value: &Value) -> Result<Deed, Refused> {
        of_form(alloc, deed_of(value))
    }
}

struct UntilMembers;

impl Members for UntilMembers {
    type Value = Until;

    ghost has = { λ _ name. is_until_member name };

    ghost reading = { λ _ d. until_members d };

    fn is_member(&self, name: &str) -> bool {
        name == "unit" || name == "sid"
    }

    fn read(&self, alloc: Global, value: &Value) -> Result<Until, Refused> {
        let unit = needed(alloc, value, "unit", &Four)?;
        let sid = needed(alloc, value, "sid", &Two)?;
        Ok(Until::Heard { unit, sid })
    }
}

struct UntilHeard;

impl Reader for UntilHeard {
    type Value = Until;

    ghost reading = { λ _ d. until d };

    fn read(&self, alloc: Global, value: &Value) -> Result<Until, Refused> {
        object_of(alloc, value, &UntilMembers)
    }
}

fn has(value: &Value, name: &str) -> bool
    ensures { result ≡ has name.now (view value.now) }
{
    value.get(name).is_some()
}

fn waits(alloc: Global, value: &Value) -> Result<Until, Refused>
    ensures { (result ≡ Err Refused.NoMemory) ⊎ (result ≡ waits (view value.now)) }
{
    if has(value, "times") {
        let times = needed(alloc, value, "times", &Times)?;
        return Ok(Until::Times(times));
    }
    if has(value, "until") {
        return needed(alloc, value, "until", &UntilHeard);
    }
    Err(bad_at(alloc, "times"))
}

fn pending(alloc: Global, value: &Value) -> Result<Act, Refused>
    ensures { (result ≡ Err Refused.NoMemory) ⊎ (result ≡ pending (view value.now)) }
{
    let ticks = needed(alloc, value, "ticks", &Ticks { least: 1 })?;
    let until = waits(alloc, value)?;
    Ok(Act::Pending { ticks, until })
}

fn refuse(alloc: Global, value: &Value) -> Result<Act, Refused>
    ensures { (result ≡ Err Refused.NoMemory) ⊎ (result ≡ act_of Deed.Refuse (view value.now)) }
{
    let nrc = needed(alloc, value, "nrc", &Two)?;
    Ok(Act::Refuse { nrc })
}

fn odd(alloc: Global, value: &Value) -> Result<Act, Refused>
    ensures { (result ≡ Err Refused.NoMemory) ⊎ (result ≡ act_of Deed.Odd (view value.now)) }
{
    let bytes = needed(alloc, value, "hex", &BytesTo { most: 4096 })?;
    Ok(Act::Odd { bytes })
}

fn fail(alloc: Global, value: &Value) -> Result<Act, Refused>
    ensures { (result ≡ Err Refused.NoMemory) ⊎ (result ≡ act_of Deed.Fail (view value.now)) }
{
    let status = needed(alloc, value, "status", &Two)?;
    Ok(Act::Fail { status })
}

fn delay(alloc: Global, value: &Value) -> Result<Act, Refused>
    ensures { (result ≡ Err Refused.NoMemory) ⊎ (result ≡ act_of Deed.Delay (view value.now)) }
{
    let ticks = needed(alloc, value, "ticks", &Ticks { least: 0 })?;
    Ok(Act::Delay { ticks })
}

fn busy(alloc: Global, value: &Value) -> Result<Act, Refused>
    ensures { (result ≡ Err Refused.NoMemory) ⊎ (result ≡ act_of Deed.Busy (view value.now)) }
{
    let times = needed(alloc, value, "times", &Times)?;
    Ok(Act::Busy { times })
}

/// What is done, and whether `times` is there.
#[derive(Clone, Copy)]
struct ActMembers {
    deed: Deed,
    counts: bool,
}

fn is_waiting(counts: bool, name: &str) -> bool
    ensures { result ≡ is_waiting counts name.now }
{
    if counts {
        name == "ticks" || name == "times"
    } else {
        name == "ticks" || name == "until"
    }
}

fn is_further(deed: Deed, counts: bool, name: &str) -> bool
    ensures { result ≡ is_further deed counts name.now }
{
    match deed {
        Deed::Refuse => name == "nrc",
        Deed::Odd => name == "hex",
        Deed::Fail => name == "status",
        Deed::Mute => false,
        Deed::Delay => name == "ticks",
        Deed::Busy => name == "times",
        Deed::Pending => is_waiting(counts, name),
    }
}

impl Members for ActMembers {
    type Value = Act;

    ghost has = { λ s name. is_trouble_member s.deed s.counts name };

    ghost reading = { λ s d. act_of s.deed d };

    fn is_member(&self, name: &str) -> bool {
        name == "sid" || name == "nth" || name == "do" || is_further(self.deed, self.counts, name)
    }

    fn read(&self, alloc: Global, value: &Value) -> Result<Act, Refused> {
        match self.deed {
            Deed::Refuse => refuse(alloc, value),
            Deed::Odd => odd(alloc, value),
            Deed::Fail => fail(alloc, value),
            Deed::Mute => Ok(Act::Mute),
            Deed::Delay => delay(alloc, value),
            Deed::Busy => busy(alloc, value),
            Deed::Pending => pending(alloc, value),
        }
    }
}

fn act_in(alloc: Global, deed: Deed, value: &Value) -> Result<Act, Refused>
    ensures { (result ≡ Err Refused.NoMemory) ⊎ (result ≡ act_in deed (view value.now)) }
{
    let members = ActMembers {
        deed,
        counts: has(value, "times"),
    };
    object_of(alloc, value, &members)
}

fn trouble_of(
    alloc: Global,
    sid: u8,
    nth: u32,
    deed: Deed,
    value: &Value,
) -> Result<TroubleSpec, Refused>
    ensures { (result ≡ Err Refused.NoMemory) ⊎ (result ≡ trouble_of sid nth deed (view value.now)) }
{
    let act = act_in(alloc, deed, value)?;
    Ok(TroubleSpec { sid, nth, act })
}

fn trouble_members(alloc: Global, value: &Value) -> Result<TroubleSpec, Refused>
    ensures { (result ≡ Err Refused.NoMemory) ⊎ (result ≡ trouble_members (view value.now)) }
{
    let sid = needed(alloc, value, "sid", &Two)?;
    let nth = needed(alloc, value, "nth", &Nth)?;
    let deed = needed(alloc, value, "do", &DeedNamed)?;
    trouble_of(alloc, sid, nth, deed, value)
}

/// A trouble of a unit.
#[derive(Clone, Copy)]
pub(crate) struct Trouble;

impl Reader for Trouble {
    type Value = TroubleSpec;

    ghost reading = { λ _ d. trouble d };

    fn read(&self, alloc: Global, value: &Value) -> Result<TroubleSpec, Refused> {
        if !value.is_object() {
            return Err(bad(alloc));
        }
        trouble_members(alloc, value)
    }
}
