//! Numbers at each width, and a routine on a range. The values are the program's own, since they are asked for by
//! conditions.
ghost use Rattle.std.specs.Prelude.{◌≡◌, ◌≤◌, ◌<◌};
ghost use Rattle.flash_base.specs.Numbers.{pow256};

use flash_base::{NoMemory, Width};
use std::alloc::Global;
use test_rows::put_digits;
use uds_codec::{get_number, put_number, write};

/// Puts the bytes that a number is written as, and the number that they are read as.
fn put<const N: usize>(out: &mut String, value: u64) -> Result<(), NoMemory>
    requires some { 1 ≤ N }
    requires few { N ≤ 5 }
    requires fits { value < pow256 N }
{
    let bytes = put_number::<N>(value);
    let read = get_number::<N>(&bytes);
    put_digits(out, &bytes)?;
    Ok(write!(out, "={read:x} ")?)
}

/// Each number with its bytes.
pub fn answer(out: &mut String) -> Result<(), NoMemory> {
    put::<1>(out, 0xab)?;
    put::<1>(out, 0xff)?;
    put::<2>(out, 0xabcd)?;
    put::<2>(out, 0x100)?;
    put::<3>(out, 0x1_0000)?;
    put::<3>(out, 0x1_0203)?;
    put::<4>(out, 0x0102_0304)?;
    put::<4>(out, 0xffff_ffff)?;
    put::<5>(out, 0x01_0203_0405)?;
    put::<5>(out, 0x1_0000_0000)
}

/// A routine on a range, without and with a digest after it.
pub fn answer_ranges(alloc: Global, out: &mut String) -> Result<(), NoMemory> {
    let width = Width { size: 4, at: 5 };
    let bytes = write::routine_on(alloc, 0xff00, width, 0x1_0000_0000, 3, &[])?;
    put_digits(out, bytes.as_slice())?;
    out.push(' ')?;
    put_short_range(alloc, out)
}

fn put_short_range(alloc: Global, out: &mut String) -> Result<(), NoMemory> {
    let bytes = write::routine_on(alloc, 0x0202, Width { size: 1, at: 1 }, 7, 9, b"abc")?;
    put_digits(out, bytes.as_slice())
}
