//! The catalogue: a session, a datablock and flash data for each unit.
ghost use Rattle.std.specs.Prelude.{◌≡◌, ◌<◌, ◌≤◌, ◌∷◌, [], IfOk, codes, decimal, map};
ghost use Rattle.bench_gen.specs.Catalogue.{catalogue_data, datablock, datablock_refs, datafile, dataformat, each, expected, expected_idents, flashdata, flashdata_ref, mem, segment, segments, session, short_name};
ghost use Rattle.bench_gen.specs.Elements.{leaf, node};
ghost use Rattle.serde_json.specs.View.{view};

use crate::elements::{around, leaf, marked, node, pair, pointing, triple};
use crate::names::{hex_name, numbered};
use crate::sizes::{size, units};
use flash_base::NoMemory;
use itoa::Buffer;
use serde_json::Value;
use std::alloc::Global;

/// The ident that a unit has to have before it is programmed.
fn expected(alloc: Global) -> Result<Value, NoMemory>
    ensures { IfOk result (λ v. view v ≡ expected) }
{
    let value = leaf(alloc, "IDENT-VALUE", "OLD")?;
    let values = around(alloc, "IDENT-VALUES", value)?;
    let name = leaf(alloc, "SHORT-NAME", "SWNR")?;
    let kids = pair(alloc, name, values)?;
    node(alloc, "EXPECTED-IDENT", kids)
}

fn expected_idents(alloc: Global) -> Result<Value, NoMemory>
    ensures { IfOk result (λ v. view v ≡ expected_idents) }
{
    let one = expected(alloc)?;
    around(alloc, "EXPECTED-IDENTS", one)
}

fn datablock_refs(alloc: Global, k: u16) -> Result<Value, NoMemory>
    requires { k < 100 }
    ensures { IfOk result (λ v. view v ≡ datablock_refs k) }
{
    let id = numbered(alloc, "D", k)?;
    let to = pointing(alloc, "DATABLOCK-REF", "ID-REF", id.as_str())?;
    around(alloc, "DATABLOCK-REFS", to)
}

fn session_kids(alloc: Global, id: &str, k: u16) -> Result<Vec<Value>, NoMemory>
    requires { k < 100 }
    ensures { IfOk result (λ vs. map view vs.items
        ≡ short_name id.now ∷ expected_idents ∷ datablock_refs k ∷ []) }
{
    let name = leaf(alloc, "SHORT-NAME", id)?;
    let idents = expected_idents(alloc)?;
    let refs = datablock_refs(alloc, k)?;
    triple(alloc, name, idents, refs)
}

fn session(alloc: Global, k: u16) -> Result<Value, NoMemory>
    requires { k < 100 }
    ensures { IfOk result (λ v. view v ≡ session k) }
{
    let id = numbered(alloc, "S", k)?;
    let kids = session_kids(alloc, id.as_str(), k)?;
    marked(alloc, "SESSION", "ID", id.as_str(), kids)
}

/// How many bytes the segment has.
fn size_of(alloc: Global, size: u32) -> Result<Value, NoMemory>
    ensures { IfOk result (λ v. view v ≡ leaf (codes "UNCOMPRESSED-SIZE") (decimal size)) }
{
    let mut buffer = Buffer::new();
    leaf(alloc, "UNCOMPRESSED-SIZE", buffer.format(size))
}

/// The segment that every datablock has, with so many bytes.
fn segment(alloc: Global, size: u32) -> Result<Value, NoMemory>
    ensures { IfOk result (λ v. view v ≡ segment size) }
{
    let start = leaf(alloc, "SOURCE-START-ADDRESS", "00010000")?;
    let length = size_of(alloc, size)?;
    let kids = pair(alloc, start, length)?;
    node(alloc, "SEGMENT", kids)
}

fn segments(alloc: Global, size: u32) -> Result<Value, NoMemory>
    ensures { IfOk result (λ v. view v ≡ segments size) }
{
    let one = segment(alloc, size)?;
    around(alloc, "SEGMENTS", one)
}

fn flashdata_ref(alloc: Global, k: u16) -> Result<Value, NoMemory>
    requires { k < 100 }
    ensures { IfOk result (λ v. view v ≡ flashdata_ref k) }
{
    let id = numbered(alloc, "F", k)?;
    pointing(alloc, "FLASHDATA-REF", "ID-REF", id.as_str())
}

fn datablock_kids(alloc: Global, id: &str, size: u32, k: u16) -> Result<Vec<Value>, NoMemory>
    requires { k < 100 }
    ensures { IfOk result (λ vs. map view vs.items
        ≡ short_name id.now ∷ flashdata_ref k ∷ segments size ∷ []) }
{
    let name = leaf(alloc, "SHORT-NAME", id)?;
    let to = flashdata_ref(alloc, k)?;
    let segments = segments(alloc, size)?;
    triple(alloc, name, to, segments)
}

fn datablock(alloc: Global, size: u32, k: u16) -> Result<Value, NoMemory>
    requires { k < 100 }
    ensures { IfOk result (λ v. view v ≡ datablock size k) }
{
    let id = numbered(alloc, "D", k)?;
    let kids = datablock_kids(alloc, id.as_str(), size, k)?;
    marked(alloc, "DATABLOCK", "ID", id.as_str(), kids)
}

fn datafile(alloc: Global, k: u16) -> Result<Value, NoMemory>
    requires { k < 100 }
    ensures { IfOk result (λ v. view v ≡ datafile k) }
{
    let file = hex_name(alloc, k)?;
    leaf(alloc, "DATAFILE", file.as_str())
}

fn flashdata_kids(alloc: Global, k: u16) -> Result<Vec<Value>, NoMemory>
    requires { k < 100 }
    ensures { IfOk result (λ vs. map view vs.items ≡ dataformat ∷ datafile k ∷ []) }
{
    let format = pointing(alloc, "DATAFORMAT", "SELECTION", "INTEL-HEX")?;
    let data = datafile(alloc, k)?;
    pair(alloc, format, data)
}

fn flashdata(alloc: Global, k: u16) -> Result<Value, NoMemory>
    requires { k < 100 }
    ensures { IfOk result (λ v. view v ≡ flashdata k) }
{
    let id = numbered(alloc, "F", k)?;
    let kids = flashdata_kids(alloc, k)?;
    marked(alloc, "FLASHDATA", "ID", id.as_str(), kids)
}

fn sessions(alloc: Global, units: u16) -> Result<Vec<Value>, NoMemory>
    requires { units ≤ 100 }
    ensures { IfOk result (λ vs. map view vs.items ≡ each session units) }
{
    let mut made = Vec::new(alloc);
    for k in 0..units {
        let one = session(alloc, k)?;
        made.push(one)?;
    }
    Ok(made)
}

fn datablocks(alloc: Global, size: u32, units: u16) -> Result<Vec<Value>, NoMemory>
    requires { units ≤ 100 }
    ensures { IfOk result (λ vs. map view vs.items ≡ each (datablock size) units) }
{
    let mut made = Vec::new(alloc);
    for k in 0..units {
        let one = datablock(alloc, size, k)?;
        made.push(one)?;
    }
    Ok(made)
}

fn flashdatas(alloc: Global, units: u16) -> Result<Vec<Value>, NoMemory>
    requires { units ≤ 100 }
    ensures { IfOk result (λ vs. map view vs.items ≡ each flashdata units) }
{
    let mut made = Vec::new(alloc);
    for k in 0..units {
        let one = flashdata(alloc, k)?;
        made.push(one)?;
    }
    Ok(made)
}

fn sessions_of(alloc: Global, units: u16) -> Result<Value, NoMemory>
    requires { units ≤ 100 }
    ensures { IfOk result (λ v. view v ≡ node (codes "SESSIONS") (each session units)) }
{
    let all = sessions(alloc, units)?;
    node(alloc, "SESSIONS", all)
}

fn datablocks_of(alloc: Global, size: u32, units: u16) -> Result<Value, NoMemory>
    requires { units ≤ 100 }
    ensures { IfOk result (λ v. view v ≡ node (codes "DATABLOCKS") (each (datablock size) units)) }
{
    let all = datablocks(alloc, size, units)?;
    node(alloc, "DATABLOCKS", all)
}

fn flashdatas_of(alloc: Global, units: u16) -> Result<Value, NoMemory>
    requires { units ≤ 100 }
    ensures { IfOk result (λ v. view v ≡ node (codes "FLASHDATAS") (each flashdata units)) }
{
    let all = flashdatas(alloc, units)?;
    node(alloc, "FLASHDATAS", all)
}

fn mem(alloc: Global, units: u16, size: u32) -> Result<Value, NoMemory>
    requires { units ≤ 100 }
    ensures { IfOk result (λ v. view v ≡ mem units size) }
{
    let sessions = sessions_of(alloc, units)?;
    let datablocks = datablocks_of(alloc, size, units)?;
    let flashdatas = flashdatas_of(alloc, units)?;
    let kids = triple(alloc, sessions, datablocks, flashdatas)?;
    node(alloc, "MEM", kids)
}

/// The catalogue of a drill.
pub fn catalogue(alloc: Global, n: u32) -> Result<Value, NoMemory>
    requires { n ≤ 999999 }
    ensures { IfOk result (λ v. view v ≡ catalogue_data n) }
{
    let mem = mem(alloc, units(n), size(n))?;
    around(alloc, "ECU-MEM", mem)
}
