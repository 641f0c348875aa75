//! How values are printed.
ghost use Rattle.std.specs.Prelude.{◌≡◌, ◌++◌, OnOk, map};
ghost use Rattle.std.specs.List.{flat_map};
ghost use Rattle.hex.specs.Hex.{encode_lower, encode_upper};
ghost use Rattle.run_report.specs.Forms.{path_text, place_text, shown, shown_byte, task_text, ten};

use crate::text::put_decimal;
use flash_base::{Bytes, Items, NoMemory};
use std::alloc::Global;

/// Puts bytes as hexadecimal digits in upper case.
pub fn put_upper(alloc: Global, out: &mut Bytes, bytes: &[u8]) -> Result<(), NoMemory>
    ensures { OnOk result (out.new ≡ out.old ++ encode_upper bytes.now) }
{
    let digits = hex::encode_upper(alloc, bytes)?;
    out.extend(digits.as_str().as_bytes())
}

/// Puts bytes as hexadecimal digits in lower case, as digests and checksums are printed.
pub fn put_lower(alloc: Global, out: &mut Bytes, bytes: &[u8]) -> Result<(), NoMemory>
    ensures { OnOk result (out.new ≡ out.old ++ encode_lower bytes.now) }
{
    let digits = hex::encode(alloc, bytes)?;
    out.extend(digits.as_str().as_bytes())
}

/// Puts an address of memory as ten hexadecimal digits.
pub fn put_ten(alloc: Global, out: &mut Bytes, n: u64) -> Result<(), NoMemory>
    ensures { OnOk result (out.new ≡ out.old ++ ten n) }
{
    let second = n / 256;
    let third = second / 256;
    let fourth = third / 256;
    let fifth = fourth / 256;
    let bytes = [
        (fifth % 256) as u8,
        (fourth % 256) as u8,
        (third % 256) as u8,
        (second % 256) as u8,
        (n % 256) as u8,
    ];
    put_upper(alloc, out, &bytes[..])
}

fn shown(b: u8) -> u8
    ensures { result ≡ shown_byte b }
{
    if b < 32 { b'?' } else { b }
}

/// Puts a name that comes from a file, `?` for each byte below 20 (hexadecimal).
pub fn put_shown(out: &mut Bytes, name: &str) -> Result<(), NoMemory>
    ensures { OnOk result (out.new ≡ out.old ++ shown name.now) }
{
    let bytes = name.as_bytes();
    put_all_shown(out, bytes)
}

fn put_all_shown(out: &mut Bytes, bytes: &[u8]) -> Result<(), NoMemory>
    ensures { OnOk result (out.new ≡ out.old ++ map shown_byte bytes.now) }
{
    for b in bytes {
        out.push(shown(*b))?;
    }
    Ok(())
}

fn put_place(out: &mut Bytes, place: u64) -> Result<(), NoMemory>
    ensures { OnOk result (out.new ≡ out.old ++ place_text place) }
{
    out.extend(b"/")?;
    put_decimal(out, place)
}

/// Puts the path of an element: `/` for the root, else each position on the way to it, from 0,
/// behind a `/`.
pub fn put_path(out: &mut Bytes, path: &Items<u64>) -> Result<(), NoMemory>
    ensures { OnOk result (out.new ≡ out.old ++ path_text path.now) }
{
    let places = path.as_slice();
    if places.is_empty() {
        return out.extend(b"/");
    }
    put_places(out, places)
}

fn put_places(out: &mut Bytes, places: &[u64]) -> Result<(), NoMemory>
    ensures { OnOk result (out.new ≡ out.old ++ flat_map place_text places.now) }
{
    for place in places {
        put_place(out, *place)?;
    }
    Ok(())
}

/// Puts a task's number, from 0, or `-` for what belongs to no task.
pub fn put_task(out: &mut Bytes, task: Option<u16>) -> Result<(), NoMemory>
    ensures { OnOk result (out.new ≡ out.old ++ task_text task) }
{
    match task {
        None => out.extend(b"-"),
        Some(n) => put_decimal(out, n as u64),
    }
}
