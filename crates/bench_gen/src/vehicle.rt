//! The vehicle: obedient units, each with one region where its image goes.
ghost use Rattle.std.specs.Prelude.{◌≡◌, ◌<◌, ◌≤◌, ◌∷◌, [], IfOk, OnOk, codes, map};
ghost use Rattle.std.specs.List.{range_with_len};
ghost use Rattle.bench_gen.specs.Vehicle.{idents, region, unit, vehicle_data};
ghost use Rattle.serde_json.specs.Data.{number, put, string, unsigned};
ghost use Rattle.serde_json.specs.View.{members_view, view};

use crate::elements::{put_member, put_text};
use crate::names::address;
use crate::order::key;
use crate::sizes::{size, units};
use flash_base::NoMemory;
use serde_json::{Map, Value, json};
use std::alloc::Global;

/// The region of every unit, with so many bytes.
fn region(alloc: Global, size: u32) -> Result<Value, NoMemory>
    ensures { IfOk result (λ v. view v ≡ region size) }
{
    Ok(json!(in alloc; {"at": "00010000", "size": size, "fill": "FF"})?)
}

/// The regions of every unit: one.
fn regions(alloc: Global, size: u32) -> Result<Vec<Value>, NoMemory>
    ensures { IfOk result (λ vs. map view vs.items ≡ region size ∷ []) }
{
    let one = region(alloc, size)?;
    Ok(vec![in alloc; one]?)
}

fn idents(alloc: Global) -> Result<Value, NoMemory>
    ensures { IfOk result (λ v. view v ≡ idents) }
{
    Ok(json!(in alloc; {"F195": "4F4C44"})?)
}

/// Puts the forms of every unit: its seed, the bytes that it takes in one request, its check routine.
fn put_forms(alloc: Global, members: &mut Map<String, Value>) -> Result<(), NoMemory>
    ensures { OnOk result (members_view members.new.entries
        ≡ put (codes "check") (string (codes "0202"))
        (put (codes "block") (number (unsigned 4095))
        (put (codes "seed") (string (codes "1234")) (members_view members.old.entries)))) }
{
    put_text(alloc, members, "seed", "1234")?;
    let block = json!(in alloc; 4095u16)?;
    put_member(alloc, members, "block", block)?;
    put_text(alloc, members, "check", "0202")
}

fn unit(alloc: Global, size: u32, k: u16) -> Result<Value, NoMemory>
    requires { k < 100 }
    ensures { IfOk result (λ v. view v ≡ unit size k) }
{
    let mut members = Map::new(alloc);
    put_forms(alloc, &mut members)?;
    let address = Value::String(address(alloc, k)?);
    put_member(alloc, &mut members, "address", address)?;
    let regions = Value::Array(regions(alloc, size)?);
    put_member(alloc, &mut members, "regions", regions)?;
    let idents = idents(alloc)?;
    put_member(alloc, &mut members, "idents", idents)?;
    let key = key(alloc)?;
    put_member(alloc, &mut members, "key", key)?;
    Ok(Value::Object(members))
}

fn all_units(alloc: Global, size: u32, units: u16) -> Result<Vec<Value>, NoMemory>
    requires { units ≤ 100 }
    ensures { IfOk result (λ vs. map view vs.items ≡ map (unit size) (range_with_len 0 units)) }
{
    let mut made = Vec::new(alloc);
    for k in 0..units {
        let one = unit(alloc, size, k)?;
        made.push(one)?;
    }
    Ok(made)
}

/// The vehicle of a drill.
pub fn vehicle(alloc: Global, n: u32) -> Result<Value, NoMemory>
    requires { n ≤ 999999 }
    ensures { IfOk result (λ v. view v ≡ vehicle_data n) }
{
    let units = Value::Array(all_units(alloc, size(n), units(n))?);
    Ok(json!(in alloc; {"entity": "4000", "units": units})?)
}
