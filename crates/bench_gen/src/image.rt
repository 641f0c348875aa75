//! The bytes that a unit is given.
ghost use Rattle.std.specs.Prelude.{◌≡◌, ◌+◌, ◌*◌, ◌<◌, ◌≤◌, ◌%◌, [], IfOk, OnOk, length, map, slice_range};
ghost use Rattle.std.specs.List.{range_with_len};
ghost use Rattle.bench_gen.specs.Sizes.{image_byte, image_of, rows_of};

use crate::sizes::rows;
use flash_base::{Bytes, NoMemory};
use std::alloc::Global;

/// 0 to 255, twice.
fn twice() -> [u8; 512]
    ensures { result ≡ map (λ i. i % 256) (range_with_len 0 512) }
{
    let mut table = [0u8; 512];
    for i in 0..512usize {
        table[i] = (i % 256) as u8;
    }
    table
}

/// 256 bytes from a place on.
fn window(table: &[u8], start: usize) -> &[u8]
    requires { start + 256 ≤ length table.now }
    ensures { result.now ≡ slice_range table.now start (start + 256) }
{
    &table[start..start + 256]
}

/// Row `row` of the image of unit `k`: 256 bytes, each one more than the one before, modulo 256.
fn row_of(table: &[u8], n: u32, k: u16, row: u32) -> &[u8]
    requires table { table.now ≡ map (λ i. i % 256) (range_with_len 0 512) }
    requires number { n ≤ 999999 }
    requires unit { k < 100 }
    requires row { row < 4096 }
    ensures { result.now ≡ map (image_byte n k) (range_with_len (row * 256) 256) }
{
    let start = ((row + 31 * k as u32 + n) % 256) as usize;
    window(table, start)
}

/// Puts the first rows of the image of unit `k`.
fn put_rows(out: &mut Bytes, table: &[u8], n: u32, k: u16) -> Result<(), NoMemory>
    requires table { table.now ≡ map (λ i. i % 256) (range_with_len 0 512) }
    requires number { n ≤ 999999 }
    requires unit { k < 100 }
    requires none { out.old ≡ [] }
    ensures { OnOk result (out.new ≡ map (image_byte n k) (range_with_len 0 (rows_of n * 256))) }
{
    for row in 0..rows(n) {
        out.extend(row_of(table, n, k, row))?;
    }
    Ok(())
}

/// The image of unit `k`: byte `i` is `(i + i / 256 + 31 * k + n) % 256`.
pub fn image(alloc: Global, n: u32, k: u16) -> Result<Bytes, NoMemory>
    requires number { n ≤ 999999 }
    requires unit { k < 100 }
    ensures is { IfOk result (λ bytes. bytes ≡ image_of n k) }
    ensures few { IfOk result (λ bytes. length bytes ≤ 1048576) }
{
    let table = twice();
    let room = Vec::with_capacity(alloc, 256 * rows(n) as usize)?;
    let mut out = Bytes::from_vec(room);
    put_rows(&mut out, &table[..], n, k)?;
    Ok(out)
}
