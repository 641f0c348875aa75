ghost use Rattle.std.specs.Prelude.{◌≡◌, ◌<◌, ◌≤◌, false, IfOk, OnOk, codes, length};
ghost use Rattle.std.specs.FinMap as map;
ghost use Rattle.rec_text.specs.Cutting.{IsLow};
ghost use Rattle.serde_json.specs.Data.{depth};
ghost use Rattle.serde_json.specs.View.{view};
ghost use Rattle.serde_json.specs.Written.{has_float};
ghost use Rattle.span_store.specs.ByteMap.{over};
ghost use Rattle.bench_gen.specs.Catalogue.{catalogue_data};
ghost use Rattle.bench_gen.specs.Files.{AddsHexFiles, AreFiles, IsHexFile, IsTextOf};
ghost use Rattle.bench_gen.specs.Order.{order_data};
ghost use Rattle.bench_gen.specs.Sizes.{base, units_of};
ghost use Rattle.bench_gen.specs.Vehicle.{vehicle_data};

use crate::catalogue::catalogue;
use crate::image::image;
use crate::names::hex_name;
use crate::order::order;
use crate::sizes::units;
use crate::vehicle::vehicle;
use flash_base::{Bytes, Files, NoMemory, Text};
use serde_json::Value;
use span_store::Spans;
use std::alloc::Global;

/// Where every image begins.
const BASE: u64 = 0x0001_0000;

/// The bytes as they stand from address 00010000 on.
fn spans_of(alloc: Global, bytes: &Bytes) -> Result<Spans, NoMemory>
    requires few { length bytes.now ≤ 1048576 }
    ensures are { IfOk result (λ m. m ≡ over map.empty base bytes.now) }
    ensures low { IfOk result IsLow }
{
    let mut spans = Spans::new(alloc);
    match spans.put(BASE, bytes.as_slice()) {
        Ok(()) => Ok(spans),
        Err(_) => Err(NoMemory),
    }
}

/// The file of unit `k`: its image in Intel HEX.
fn hex_file(alloc: Global, n: u32, k: u16) -> Result<(Text, Bytes), NoMemory>
    requires number { n ≤ 999999 }
    requires unit { k < 100 }
    ensures { IfOk result (IsHexFile n k) }
{
    let bytes = image(alloc, n, k)?;
    let spans = spans_of(alloc, &bytes)?;
    let text = hex_rec::write(alloc, &spans)?;
    let name = hex_name(alloc, k)?;
    Ok((Text::from_string(name), text))
}

/// The text of a value.
fn text_of(alloc: Global, value: &Value) -> Result<Bytes, NoMemory>
    requires plain { has_float (view value.now) ≡ false }
    requires flat { depth (view value.now) ≤ 127 }
    ensures { IfOk result (IsTextOf (view value.now)) }
{
    let text = value.to_string(alloc)?;
    let bytes = Bytes::from_slice(alloc, text.as_str().as_bytes())?;
    Ok(bytes)
}

fn order_file(alloc: Global, n: u32) -> Result<(Text, Bytes), NoMemory>
    requires { n ≤ 999999 }
    ensures name { IfOk result (λ file. file.0 ≡ codes "drill.json") }
    ensures text { IfOk result (λ file. IsTextOf (order_data n) file.1) }
{
    let order = order(alloc, n)?;
    let text = text_of(alloc, &order)?;
    Ok((Text::from_str(alloc, "drill.json")?, text))
}

fn catalogue_file(alloc: Global, n: u32) -> Result<(Text, Bytes), NoMemory>
    requires { n ≤ 999999 }
    ensures name { IfOk result (λ file. file.0 ≡ codes "cat.json") }
    ensures text { IfOk result (λ file. IsTextOf (catalogue_data n) file.1) }
{
    let catalogue = catalogue(alloc, n)?;
    let text = text_of(alloc, &catalogue)?;
    Ok((Text::from_str(alloc, "cat.json")?, text))
}

/// Puts the files of all units.
fn put_hex_files(alloc: Global, files: &mut Files, n: u32) -> Result<(), NoMemory>
    requires { n ≤ 999999 }
    ensures { OnOk result (AddsHexFiles n (units_of n) files.old files.new) }
{
    for k in 0..units(n) {
        let file = hex_file(alloc, n, k)?;
        files.push(file)?;
    }
    Ok(())
}

/// The files of a drill: the order `drill.json`, the catalogue `cat.json`, and an Intel HEX file
/// `u00.hex` and so on for each unit.
pub fn files(alloc: Global, n: u32) -> Result<Files, NoMemory>
    requires { n ≤ 999999 }
    ensures { IfOk result (AreFiles n) }
{
    let mut files = Files::new(alloc);
    let order = order_file(alloc, n)?;
    files.push(order)?;
    let catalogue = catalogue_file(alloc, n)?;
    files.push(catalogue)?;
    put_hex_files(alloc, &mut files, n)?;
    Ok(files)
}

/// The vehicle of a drill, as the text of its file: obedient units, each with one region of FF
/// where its image goes.
pub fn vehicle_text(alloc: Global, n: u32) -> Result<Bytes, NoMemory>
    requires { n ≤ 999999 }
    ensures { IfOk result (IsTextOf (vehicle_data n)) }
{
    let vehicle = vehicle(alloc, n)?;
    text_of(alloc, &vehicle)
}

/// What a drill is made of.
#[derive(Debug, Drop)]
pub struct Drill {
    /// The order, the catalogue and the flash data.
    pub files: Files,
    /// The vehicle, as the text of its file.
    pub vehicle: Bytes,
}

/// The drill of a number: what it runs, over which vehicle. Its journal is empty.
pub fn make(alloc: Global, n: u32) -> Result<Drill, NoMemory>
    requires { n ≤ 999999 }
    ensures files { IfOk result (λ drill. AreFiles n drill.files) }
    ensures vehicle { IfOk result (λ drill. IsTextOf (vehicle_data n) drill.vehicle) }
{
    let files = files(alloc, n)?;
    let vehicle = vehicle_text(alloc, n)?;
    Ok(Drill { files, vehicle })
}
