//! Times the reading and writing of record texts.
//!
//! `time` prints the microseconds of generated texts of both formats, of images that double, and of the same
//! records in other orders. `make` writes the texts of an image of 16 MiB to `image.hex` and `image.srec`.
//! `binary PATH` reads a text of either format, and writes its bytes without the gaps to `out.bin`.
//! `texts PATH` reads one, and writes it anew in both formats to `out.hex` and `out.srec`.

ghost use Rattle.std.specs.Prelude.{◌<◌, ◌≤◌, ◌^◌};

mod files;
mod making;

use files::{to_binary, to_texts};
use making::{Order, hex_text, srec_text};
use span_store::Spans;
use std::alloc::Global;
use std::time::{Clock, Instant};
use std::{fs, io};

/// The number of bytes that were read, as far as they stand in one run; 0 where the text was refused.
fn size_read(alloc: Global, text: &[u8]) -> u64 {
    match files::read(alloc, text) {
        Ok(spans) => first_size(&spans),
        Err(_) => 0,
    }
}

fn first_size(spans: &Spans) -> u64 {
    if spans.extents() == 1 {
        let (_, size) = spans.extent(0);
        size
    } else {
        0
    }
}

/// The microseconds since a moment.
fn since(clock: &impl Clock, start: Instant) -> io::Result<u64> {
    let took = start.elapsed(clock)?.as_micros();
    if took > 1_000_000_000 {
        return Ok(0);
    }
    Ok(took as u64)
}

/// Reads a text, and answers the microseconds, or 0 where it was refused.
fn timed(clock: &impl Clock, alloc: Global, text: &[u8]) -> io::Result<u64> {
    let start = Instant::now(clock)?;
    let read = files::read(alloc, text);
    let took = since(clock, start)?;
    Ok(if read.is_err() { 0 } else { took })
}

/// The microseconds of a text of so many records.
fn timed_hex(clock: &impl Clock, alloc: Global, records: u32, order: Order) -> io::Result<u64>
    requires { records < 2 ^ 28 }
{
    match hex_text(alloc, records, order) {
        Ok(text) => timed(clock, alloc, text.as_slice()),
        Err(_) => Ok(0),
    }
}

/// The same of S-records with so many bytes each.
fn timed_srec(
    clock: &impl Clock,
    alloc: Global,
    records: u32,
    size: usize,
    order: Order,
) -> io::Result<u64>
    requires records { records < 2 ^ 28 }
    requires size { size ≤ 16 }
{
    match srec_text(alloc, records, size, order) {
        Ok(text) => timed(clock, alloc, text.as_slice()),
        Err(_) => Ok(0),
    }
}

/// Prints the times of reading.
fn print_times(rt: &HostRuntime) -> io::Result<()> {
    let alloc = rt.alloc();
    let once = timed_hex(rt, alloc, 524_288, Order::Ascending)?;
    let twice = timed_hex(rt, alloc, 1_048_576, Order::Ascending)?;
    println!(rt; "Intel HEX: 8 MiB {once} us, 16 MiB {twice} us")?;
    let once = timed_srec(rt, alloc, 524_288, 16, Order::Ascending)?;
    let twice = timed_srec(rt, alloc, 1_048_576, 16, Order::Ascending)?;
    println!(rt; "S-records: 8 MiB {once} us, 16 MiB {twice} us")?;
    for order in Order::ALL {
        let name = order.name();
        let hex = timed_hex(rt, alloc, 1_524_000, order)?;
        let long = timed_srec(rt, alloc, 1_427_000, 16, order)?;
        let short = timed_srec(rt, alloc, 3_947_000, 1, order)?;
        println!(rt;
            "64 MiB of text {name}: Intel HEX {hex} us, S-records of 16 bytes {long} us, of 1 byte {short} us"
        )?;
    }
    Ok(())
}

/// Writes the texts of an image of 16 MiB.
fn make(rt: &HostRuntime) -> io::Result<()> {
    if let Ok(text) = hex_text(rt.alloc(), 1_048_576, Order::Ascending) {
        fs::write(rt, "image.hex", text.as_slice())?;
    }
    if let Ok(text) = srec_text(rt.alloc(), 1_048_576, 16, Order::Ascending) {
        fs::write(rt, "image.srec", text.as_slice())?;
    }
    Ok(())
}

fn print_size(rt: &HostRuntime, format: &str, order: Order, text: &[u8]) -> io::Result<()> {
    let name = order.name();
    let size = size_read(rt.alloc(), text);
    println!(rt; "{format} {name}: {size} bytes")
}

/// Reads small texts in each order, and prints what was read.
pub fn read_small(rt: &HostRuntime) -> io::Result<()> {
    for order in Order::ALL {
        if let Ok(text) = hex_text(rt.alloc(), 4096, order) {
            print_size(rt, "Intel HEX", order, text.as_slice())?;
        }
        if let Ok(text) = srec_text(rt.alloc(), 4096, 16, order) {
            print_size(rt, "S-records", order, text.as_slice())?;
        }
    }
    Ok(())
}

/// One command, and the path that it may have.
pub fn run(rt: &HostRuntime, word: &str, path: &str) -> io::Result<()> {
    match word {
        "time" => print_times(rt),
        "make" => make(rt),
        "binary" => to_binary(rt, path),
        _ => to_texts(rt, path),
    }
}
