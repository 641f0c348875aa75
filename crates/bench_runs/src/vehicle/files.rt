//! Files of a vehicle.

use crate::print_beside;
use flash_base::{Bytes, NoMemory};
use serde_json::Value;
use std::alloc::{AllocError, Global};
use std::io;
use std::time::{Clock, Instant};
use vehicle_world::World;

const DIGITS: &[u8; 16] = b"0123456789ABCDEF";

/// What stands before the digits: a vehicle of one unit with a region of so many bytes.
fn head(alloc: Global, size: u32) -> Result<String, AllocError> {
    format!(in alloc;
        "{{\"entity\":\"4000\",\"units\":[{{\"address\":\"1001\",\"check\":\"0202\",\"regions\":[{{\"at\":\"1000\",\"fill\":\"FF\",\"size\":{size}}}],\"bytes\":[{{\"at\":\"1000\",\"hex\":\""
    )
}

/// The digits of so many bytes that look like noise.
fn push_digits(text: &mut Bytes, size: u32) -> Result<(), NoMemory> {
    let mut state = 1u32;
    for _ in 0..size {
        state = state.wrapping_mul(1_664_525).wrapping_add(1_013_904_223);
        let byte = (state / 0x100_0000) as u8;
        text.push(DIGITS[usize::from(byte / 16)])?;
        text.push(DIGITS[usize::from(byte % 16)])?;
    }
    Ok(())
}

/// The file of a vehicle of one unit with so many bytes.
fn text(alloc: Global, size: u32) -> Result<Bytes, NoMemory> {
    let head = head(alloc, size)?;
    let mut text = Bytes::from_slice(alloc, head.as_str().as_bytes())?;
    push_digits(&mut text, size)?;
    text.extend(b"\"}]}]}")?;
    Ok(text)
}

/// The microseconds of saving a vehicle, and the bytes of its file.
fn saved<R: Clock + Alloc<A = Global>>(rt: &R, world: &World) -> io::Result<(u128, usize)> {
    let start = Instant::now(rt)?;
    match world_file::save(rt.alloc(), world) {
        Ok(text) => Ok((start.elapsed(rt)?.as_micros(), text.len())),
        Err(_) => Err(AllocError)?,
    }
}

/// The microseconds of `serde_json` alone, which makes a value and drops it.
fn parsed<R: Clock + Alloc<A = Global>>(rt: &R, text: &[u8]) -> io::Result<u128> {
    let start = Instant::now(rt)?;
    let value = Value::from_slice(rt.alloc(), text);
    drop(value);
    Ok(start.elapsed(rt)?.as_micros())
}

/// Saves a vehicle that was read, and prints the sizes, and where `is_timed` the times.
fn measure_save<R: Print + Clock + Alloc<A = Global>>(
    rt: &R,
    world: &World,
    length: usize,
    took: u128,
    is_timed: bool,
) -> io::Result<()> {
    let (save_took, size) = saved(rt, world)?;
    println!(rt; "a file of {length} bytes is read, and one of {size} is saved")?;
    if is_timed {
        print_beside(rt, save_took, "reading", took)?;
    }
    Ok(())
}

/// Reads a file and saves its vehicle.
fn measure<R: Print + Clock + Alloc<A = Global>>(
    rt: &R,
    text: &[u8],
    is_timed: bool,
) -> io::Result<u128> {
    let start = Instant::now(rt)?;
    match world_file::read(rt.alloc(), text) {
        Ok(world) => {
            let took = start.elapsed(rt)?.as_micros();
            measure_save(rt, &world, text.len(), took, is_timed)?;
            Ok(took)
        }
        Err(_) => Err(AllocError)?,
    }
}

/// Reads and saves a file, and then reads it by `serde_json` alone.
fn measure_both<R: Print + Clock + Alloc<A = Global>>(
    rt: &R,
    text: &[u8],
    is_timed: bool,
) -> io::Result<()> {
    let took = measure(rt, text, is_timed)?;
    if !is_timed {
        return Ok(());
    }
    let parse_took = parsed(rt, text)?;
    print_beside(rt, took, "serde_json", parse_took)
}

/// The file of a vehicle with so many bytes.
pub(crate) fn run<R: Print + Clock + Alloc<A = Global>>(
    rt: &R,
    size: u32,
    is_timed: bool,
) -> io::Result<()> {
    match text(rt.alloc(), size) {
        Ok(text) => measure_both(rt, text.as_slice(), is_timed),
        Err(_) => Err(AllocError)?,
    }
}
