ghost use Rattle.std.specs.Prelude.{◌≡◌, ◌<◌, ◌≤◌, ◌++◌, IfOk, OnOk, length, flat_map};
ghost use Rattle.flash_base.specs.Lists.{Each};
ghost use Rattle.flash_base.specs.Numbers.{big_endian};
ghost use Rattle.flash_plan.specs.Canonical.{canonical, counted, key_bytes, plan_front, segment_bytes, segment_head, unit_bytes, unit_front, unit_head, wanted_bytes};
ghost use Rattle.flash_plan.specs.Plan.{IsAccepted, IsAcceptedUnit, IsKeyRule, IsWanted};

use crate::unit::{Segment, UnitPlan, Wanted};
use flash_base::{Bytes, Items, KeyRule, NoMemory};
use std::alloc::Global;

/// Puts the last `size` bytes of a number, the greatest first.
fn put_number(out: &mut Bytes, size: u8, x: u64) -> Result<(), NoMemory>
    ensures { OnOk result (out.new ≡ out.old ++ big_endian size x) }
{
    if size == 0 {
        return Ok(());
    }
    put_number(out, size - 1, x / 256)?;
    out.push((x % 256) as u8)
}

/// Puts the length in one byte, and the bytes.
fn put_counted(out: &mut Bytes, bytes: &[u8]) -> Result<(), NoMemory>
    requires { length bytes.now < 256 }
    ensures { OnOk result (out.new ≡ out.old ++ counted bytes.now) }
{
    out.push(bytes.len() as u8)?;
    out.extend(bytes)
}

/// What stands before a segment's bytes.
pub(crate) fn put_segment_head(out: &mut Bytes, segment: &Segment) -> Result<(), NoMemory>
    ensures { OnOk result (out.new ≡ out.old ++ segment_head segment.now) }
{
    put_number(out, 8, segment.at)?;
    put_number(out, 4, segment.body.len() as u64)?;
    Ok(())
}

fn put_segment(out: &mut Bytes, segment: &Segment) -> Result<(), NoMemory>
    ensures { OnOk result (out.new ≡ out.old ++ segment_bytes segment.now) }
{
    put_segment_head(out, segment)?;
    out.extend(segment.body.as_slice())?;
    Ok(())
}

fn put_segments(out: &mut Bytes, segments: &Items<Segment>) -> Result<(), NoMemory>
    ensures { OnOk result (out.new ≡ out.old ++ flat_map segment_bytes segments.now) }
{
    for segment in segments.as_slice().iter() {
        put_segment(out, segment)?;
    }
    Ok(())
}

fn put_values(out: &mut Bytes, values: &Items<Bytes>) -> Result<(), NoMemory>
    requires { Each (λ v. (1 ≤ length v) × (length v ≤ 64)) values.now }
    ensures { OnOk result (out.new ≡ out.old ++ flat_map counted values.now) }
{
    for value in values.as_slice().iter() {
        put_counted(out, value.as_slice())?;
    }
    Ok(())
}

fn put_wanted(out: &mut Bytes, wanted: &Wanted) -> Result<(), NoMemory>
    requires { IsWanted wanted.now }
    ensures { OnOk result (out.new ≡ out.old ++ wanted_bytes wanted.now) }
{
    put_number(out, 2, wanted.did as u64)?;
    out.push(wanted.values.len() as u8)?;
    put_values(out, &wanted.values)
}

fn put_idents(out: &mut Bytes, idents: &Items<Wanted>) -> Result<(), NoMemory>
    requires { Each IsWanted idents.now }
    ensures { OnOk result (out.new ≡ out.old ++ flat_map wanted_bytes idents.now) }
{
    for wanted in idents.as_slice().iter() {
        put_wanted(out, wanted)?;
    }
    Ok(())
}

fn put_after(out: &mut Bytes, after: &Items<u16>) -> Result<(), NoMemory>
    ensures { OnOk result (out.new ≡ out.old ++ flat_map (big_endian 2) after.now) }
{
    for number in after.as_slice().iter() {
        put_number(out, 2, *number as u64)?;
    }
    Ok(())
}

fn put_key(out: &mut Bytes, key: &KeyRule) -> Result<(), NoMemory>
    requires { IsKeyRule key.now }
    ensures { OnOk result (out.new ≡ out.old ++ key_bytes key.now) }
{
    match key {
        KeyRule::Free => out.push(0),
        KeyRule::Xor { level, mask } => {
            out.extend(&[1, *level])?;
            put_counted(out, mask.as_slice())
        }
        KeyRule::Digest {
            level,
            length,
            secret,
        } => {
            out.extend(&[2, *level, *length])?;
            put_counted(out, secret.as_slice())
        }
    }
}

/// What stands before a unit's lists.
fn put_head(out: &mut Bytes, unit: &UnitPlan) -> Result<(), NoMemory>
    requires { IsAcceptedUnit unit.now }
    ensures { OnOk result (out.new ≡ out.old ++ unit_head unit.now) }
{
    put_number(out, 2, unit.address as u64)?;
    put_counted(out, unit.name.as_str().as_bytes())?;
    out.push(unit.width.size * 16 + unit.width.at)?;
    put_number(out, 2, unit.check as u64)?;
    put_key(out, &unit.key)
}

/// What stands before a unit's segments.
pub(crate) fn put_front(out: &mut Bytes, unit: &UnitPlan) -> Result<(), NoMemory>
    requires { IsAcceptedUnit unit.now }
    ensures { OnOk result (out.new ≡ out.old ++ unit_front unit.now) }
{
    put_head(out, unit)?;
    out.push(unit.idents.len() as u8)?;
    put_idents(out, &unit.idents)?;
    out.push(unit.after.len() as u8)?;
    put_after(out, &unit.after)?;
    put_number(out, 2, unit.segments.len() as u64)?;
    Ok(())
}

fn put_unit(out: &mut Bytes, unit: &UnitPlan) -> Result<(), NoMemory>
    requires { IsAcceptedUnit unit.now }
    ensures { OnOk result (out.new ≡ out.old ++ unit_bytes unit.now) }
{
    put_front(out, unit)?;
    put_segments(out, &unit.segments)?;
    Ok(())
}

fn put_units(out: &mut Bytes, units: &Items<UnitPlan>) -> Result<(), NoMemory>
    requires { IsAccepted units.now }
    ensures { OnOk result (out.new ≡ out.old ++ flat_map unit_bytes units.now) }
{
    for unit in units.as_slice().iter() {
        put_unit(out, unit)?;
    }
    Ok(())
}

/// What stands before the units of a plan.
pub(crate) fn plan_front(alloc: Global, units: &Items<UnitPlan>) -> Result<Bytes, NoMemory>
    requires { IsAccepted units.now }
    ensures { IfOk result (λ b. b ≡ plan_front units.now) }
{
    let mut out = Bytes::from_slice(alloc, b"ODXFPLAN\x01")?;
    put_number(&mut out, 2, units.len() as u64)?;
    Ok(out)
}

/// The canonical bytes of a plan.
pub fn plan_bytes(alloc: Global, units: &Items<UnitPlan>) -> Result<Bytes, NoMemory>
    requires { IsAccepted units.now }
    ensures { IfOk result (λ b. b ≡ canonical units.now) }
{
    let mut out = plan_front(alloc, units)?;
    put_units(&mut out, units)?;
    Ok(out)
}
