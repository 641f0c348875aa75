//! The order: a task for each unit, in groups of four, each after the whole group before it.
ghost use Rattle.std.specs.Prelude.{◌≡◌, ◌<◌, ◌≤◌, IfOk, OnOk, codes, map};
ghost use Rattle.std.specs.List.{range_with_len};
ghost use Rattle.bench_gen.specs.Order.{address_text, dids, key, name, order_data, task, tasks};
ghost use Rattle.bench_gen.specs.Sizes.{before, numbered};
ghost use Rattle.serde_json.specs.Data.{put, string};
ghost use Rattle.serde_json.specs.View.{members_view, view};

use crate::elements::{put_member, put_text};
use crate::names::{address, numbered};
use crate::sizes::units;
use flash_base::NoMemory;
use serde_json::{Map, Value, json};
use std::alloc::Global;

/// The name of unit `k`.
fn name(alloc: Global, k: u16) -> Result<Value, NoMemory>
    requires { k < 100 }
    ensures { IfOk result (λ v. view v ≡ name k) }
{
    Ok(Value::String(numbered(alloc, "U", k)?))
}

/// The names of the four units of a group.
fn group(alloc: Global, first: u16) -> Result<Vec<Value>, NoMemory>
    requires { first ≤ 96 }
    ensures { IfOk result (λ vs. map view vs.items ≡ map name (range_with_len first 4)) }
{
    let mut made = Vec::new(alloc);
    for i in 0..4u16 {
        let one = name(alloc, first + i)?;
        made.push(one)?;
    }
    Ok(made)
}

/// The names of the units that come before unit `k`.
fn before(alloc: Global, k: u16) -> Result<Vec<Value>, NoMemory>
    requires { k < 100 }
    ensures { IfOk result (λ vs. map view vs.items ≡ map name (before k)) }
{
    if k < 4 {
        return Ok(Vec::new(alloc));
    }
    group(alloc, k / 4 * 4 - 4)
}

pub(crate) fn key(alloc: Global) -> Result<Value, NoMemory>
    ensures { IfOk result (λ v. view v ≡ key) }
{
    Ok(json!(in alloc; {"rule": "xor", "level": "01", "mask": "5A"})?)
}

fn dids(alloc: Global) -> Result<Value, NoMemory>
    ensures { IfOk result (λ v. view v ≡ dids) }
{
    Ok(json!(in alloc; {"SWNR": "F195"})?)
}

/// Puts the name of unit `k`, its session and its address.
fn put_names(alloc: Global, members: &mut Map<String, Value>, k: u16) -> Result<(), NoMemory>
    requires { k < 100 }
    ensures { OnOk result (members_view members.new.entries
        ≡ put (codes "unit") (string (address_text k))
        (put (codes "session") (string (numbered (codes "S") k))
        (put (codes "name") (name k) (members_view members.old.entries)))) }
{
    let name = name(alloc, k)?;
    put_member(alloc, members, "name", name)?;
    let session = Value::String(numbered(alloc, "S", k)?);
    put_member(alloc, members, "session", session)?;
    let unit = Value::String(address(alloc, k)?);
    put_member(alloc, members, "unit", unit)
}

fn task(alloc: Global, k: u16) -> Result<Value, NoMemory>
    requires { k < 100 }
    ensures { IfOk result (λ v. view v ≡ task k) }
{
    let mut members = Map::new(alloc);
    put_names(alloc, &mut members, k)?;
    put_text(alloc, &mut members, "width", "44")?;
    put_text(alloc, &mut members, "check", "0202")?;
    let key = key(alloc)?;
    put_member(alloc, &mut members, "key", key)?;
    let dids = dids(alloc)?;
    put_member(alloc, &mut members, "dids", dids)?;
    let after = Value::Array(before(alloc, k)?);
    put_member(alloc, &mut members, "after", after)?;
    Ok(Value::Object(members))
}

fn tasks(alloc: Global, units: u16) -> Result<Vec<Value>, NoMemory>
    requires { units ≤ 100 }
    ensures { IfOk result (λ vs. map view vs.items ≡ tasks units) }
{
    let mut made = Vec::new(alloc);
    for k in 0..units {
        let one = task(alloc, k)?;
        made.push(one)?;
    }
    Ok(made)
}

/// The order of a drill.
pub fn order(alloc: Global, n: u32) -> Result<Value, NoMemory>
    requires { n ≤ 999999 }
    ensures { IfOk result (λ v. view v ≡ order_data n) }
{
    let tasks = Value::Array(tasks(alloc, units(n))?);
    Ok(json!(in alloc; {
        "tester": "0E80",
        "relinks": 1u8,
        "catalogue": "cat.json",
        "tasks": tasks
    })?)
}
