//! A simulated vehicle: what it takes beside a plain copy of the bytes that it is sent, and its file beside `serde_json`.
//!
//! - Transfers of 4,093 bytes, framed and fed one by one, the answers polled and cut; beside a copy of the same bytes in the
//!   same pieces.
//! - Many small requests, fed one by one or all at once before the first answer is polled, in two numbers.
//! - A file of a vehicle with many bytes, read and saved; beside `serde_json` alone on it.

ghost use Rattle.std.specs.Prelude.{◌<◌};

mod files;
mod requests;
mod serving;

use crate::copying::copy_into;
use crate::print_beside;
use flash_base::{Bytes, NoMemory};
use requests::{SMALL, TRANSFER, opening, small, transfers};
use serving::{Came, drained, fed, served};
use std::alloc::{AllocError, Global};
use std::io;
use std::time::{Clock, Instant};
use vehicle_world::World;

/// A vehicle behind its activation, with a download in hand of so many transfers.
fn downloading(alloc: Global, count: u32) -> Result<World, NoMemory> {
    let size = count.wrapping_mul(4093);
    let mut world = crate::vehicles::world(alloc, 1, size, "", "")?;
    let stream = opening(alloc, size)?;
    fed(&mut world, stream.as_slice(), stream.len().max(1));
    Ok(world)
}

/// What came of a stream, and the microseconds of it and of a copy.
#[derive(Clone, Copy)]
struct Times {
    came: Came,
    took: u128,
    copy_took: u128,
}

/// Feeds a stream, and copies it into memory that is there.
fn timed<R: Clock + Alloc<A = Global>>(
    rt: &R,
    world: &mut World,
    stream: &[u8],
    copy: &mut Vec<u8>,
) -> io::Result<Times> {
    let start = Instant::now(rt)?;
    let came = served(rt.alloc(), world, stream, TRANSFER);
    let took = start.elapsed(rt)?.as_micros();
    let start = Instant::now(rt)?;
    copy_into(copy, stream, TRANSFER)?;
    let copy_took = start.elapsed(rt)?.as_micros();
    Ok(Times {
        came,
        took,
        copy_took,
    })
}

/// Prints what came of a stream, and where `is_timed` the time beside that of a copy.
fn measure<R: Print + Clock + Alloc<A = Global>>(
    rt: &R,
    world: &mut World,
    stream: &[u8],
    is_timed: bool,
) -> io::Result<()> {
    let mut copy = Vec::with_capacity(rt.alloc(), stream.len())?;
    copy_into(&mut copy, stream, TRANSFER)?;
    let times = timed(rt, world, stream, &mut copy)?;
    let (length, Came { frames, taken }) = (stream.len(), times.came);
    println!(rt; "transfers of {length} bytes: {frames} frames, {taken} taken")?;
    if is_timed {
        print_beside(rt, times.took, "a copy", times.copy_took)?;
    }
    Ok(())
}

/// A stream of so many transfers, to a vehicle.
fn measure_stream<R: Print + Clock + Alloc<A = Global>>(
    rt: &R,
    world: &mut World,
    count: u32,
    is_timed: bool,
) -> io::Result<()> {
    match transfers(rt.alloc(), count) {
        Ok(stream) => measure(rt, world, stream.as_slice(), is_timed),
        Err(_) => Err(AllocError)?,
    }
}

/// So many transfers.
fn measure_transfers<R: Print + Clock + Alloc<A = Global>>(
    rt: &R,
    count: u32,
    is_timed: bool,
) -> io::Result<()> {
    match downloading(rt.alloc(), count) {
        Ok(mut world) => measure_stream(rt, &mut world, count, is_timed),
        Err(_) => Err(AllocError)?,
    }
}

/// Feeds small requests in pieces of so many bytes, and prints how many frames answer them, and where `is_timed` the times
/// of feeding them, and of polling and cutting all answers then.
fn measure_requests<R: Print + Clock + Alloc<A = Global>>(
    rt: &R,
    world: &mut World,
    stream: &[u8],
    piece: usize,
    is_timed: bool,
) -> io::Result<()>
    requires { 0 < piece }
{
    let start = Instant::now(rt)?;
    fed(world, stream, piece);
    let feeding = start.elapsed(rt)?.as_micros();
    let start = Instant::now(rt)?;
    let Came { frames, .. } = drained(rt.alloc(), world);
    let polling = start.elapsed(rt)?.as_micros();
    let count = stream.len() / SMALL;
    println!(rt; "{count} small requests in pieces of {piece}: {frames} frames")?;
    if is_timed {
        println!(rt; "  fed in {feeding} us, answers polled and cut in {polling} us")?;
    }
    Ok(())
}

/// A stream of so many small requests, to a vehicle: one by one, and all at once.
fn measure_small<R: Print + Clock + Alloc<A = Global>>(
    rt: &R,
    world: &mut World,
    count: u32,
    is_timed: bool,
) -> io::Result<()> {
    match small(rt.alloc(), count) {
        Ok(stream) => {
            let size = stream.len().max(1);
            measure_requests(rt, world, stream.as_slice(), SMALL, is_timed)?;
            measure_requests(rt, world, stream.as_slice(), size, is_timed)
        }
        Err(_) => Err(AllocError)?,
    }
}

/// So many small requests.
fn measure_many<R: Print + Clock + Alloc<A = Global>>(
    rt: &R,
    count: u32,
    is_timed: bool,
) -> io::Result<()> {
    match downloading(rt.alloc(), 1) {
        Ok(mut world) => measure_small(rt, &mut world, count, is_timed),
        Err(_) => Err(AllocError)?,
    }
}

/// A short form, which prints the same in every run.
fn run_short<R: Print + Clock + Alloc<A = Global>>(rt: &R) -> io::Result<()> {
    measure_transfers(rt, 100, false)?;
    measure_many(rt, 300, false)?;
    files::run(rt, 10_000, false)
}

/// Each part, and the first and the last of them three times.
fn run_timed<R: Print + Clock + Alloc<A = Global>>(rt: &R) -> io::Result<()> {
    for _ in 0..3 {
        measure_transfers(rt, 16_396, true)?;
    }
    for count in [100_000u32, 200_000] {
        measure_many(rt, count, true)?;
    }
    for _ in 0..3 {
        files::run(rt, 30_000_000, true)?;
    }
    Ok(())
}

/// The three parts.
pub fn run<R: Print + Clock + Alloc<A = Global>>(rt: &R, is_timed: bool) -> io::Result<()> {
    if is_timed {
        run_timed(rt)
    } else {
        run_short(rt)
    }
}
