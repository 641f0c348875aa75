//! Simulated vehicles: each row has a vehicle file and steps, and what comes of them.
//!
//! The form of the table is that of `test_rows`. The call `vehicle` has two inputs. The first is the file, the second the
//! steps, parted by blanks: `send:HEX` sends these bytes; `polls:N` polls so many times, and each piece that comes is written
//! as the tick and its bytes; `redial` makes the connection new; `again` saves the vehicle and reads it again; `save` writes
//! the text of the save; `twice` writes whether the save of what the save says is the same text.
//!
//! The call `link` is that of a tester 0E80 of the units 1001 and 1002, over a shop with the vehicle of the first input.
//! The second is `-`, or parts that are parted by blanks: `fails:N` for a link call that fails, `brings:N:HEX` for a
//! receive that brings these bytes instead of what is due, `brings:N:SIZE:HEX` for receives from this one on that bring
//! them in pieces of this size. The third is the steps. Each writes a word:
//!
//! - `dial`, `ask`, `say` and `send:UNIT:HEX` call the link; `lost` where the call failed.
//! - `poll` writes what it brought: the bytes, `quiet`, or `lost` with the bytes that ended the connection.
//! - `polls:N` polls so many times, or until the link is lost, and writes how often, and how often bytes came.
//! - `take:UNIT` writes the oldest message of the unit: `reply` with its bytes, `nack` with its code, or `none`.
//! - `state` writes where the link stands, its ticks, its losses, and whether it owes the answer to an alive check.
//! - `frames` writes what the vehicle was sent.
//!
//! A step that the link does not allow is not made, and writes `no`.
#![tactic(auto)]

ghost use Rattle.std.specs.Thread.{IsSync};

mod link;
mod setup;
mod tester;

use flash_base::{Bytes, NoMemory};
use std::alloc::Global;
use std::io;
use std::thread::Threads;
use test_rows::{Calls, bytes_of_digits, first, number, put_bytes, put_digits, show_tables};
use unit_model::Got;
use vehicle_world::World;
use world_file::BenchFault;

/// No tick is counted beyond.
const LAST: u64 = 1 << 62;

/// Parts are written with blanks between them.
pub fn put_blank(out: &mut String) -> Result<(), NoMemory> {
    if !out.is_empty() {
        out.push(' ')?;
    }
    Ok(())
}

fn send(alloc: Global, world: &mut World, digits: &str) -> Result<(), NoMemory> {
    let bytes = bytes_of_digits(alloc, digits)?;
    if world.tick() < LAST {
        world.feed(bytes.as_slice())?;
    }
    Ok(())
}

fn put_piece(world: &World, piece: &[u8], out: &mut String) -> Result<(), NoMemory> {
    let tick = world.tick();
    put_blank(out)?;
    write!(out, "{tick}:")?;
    put_digits(out, piece)
}

fn poll(world: &mut World, out: &mut String) -> Result<(), NoMemory> {
    let mut room = [0u8; 4096];
    if world.tick() >= LAST {
        return Ok(());
    }
    match world.poll(&mut room[..])? {
        Got::Quiet => Ok(()),
        Got::Bytes(n) => put_piece(world, &room[..n.min(4096)], out),
    }
}

fn polls(world: &mut World, times: u64, out: &mut String) -> Result<(), NoMemory> {
    for _ in 0..times {
        poll(world, out)?;
    }
    Ok(())
}

/// The vehicle that a save says; where it cannot be read, the vehicle stays as it is.
fn again(alloc: Global, world: &mut World) -> Result<(), NoMemory> {
    let text = world_file::save(alloc, world)?;
    match world_file::read(alloc, text.as_slice()) {
        Ok(read) => *world = read,
        Err(_) => {}
    }
    Ok(())
}

fn put_save(alloc: Global, world: &World, out: &mut String) -> Result<(), NoMemory> {
    let text = world_file::save(alloc, world)?;
    put_blank(out)?;
    put_bytes(out, text.as_slice())
}

fn is_same(alloc: Global, text: &Bytes) -> Result<bool, NoMemory> {
    match world_file::read(alloc, text.as_slice()) {
        Ok(world) => Ok(world_file::save(alloc, &world)?.as_slice() == text.as_slice()),
        Err(_) => Ok(false),
    }
}

fn put_twice(alloc: Global, world: &World, out: &mut String) -> Result<(), NoMemory> {
    let text = world_file::save(alloc, world)?;
    let same = is_same(alloc, &text)?;
    put_blank(out)?;
    Ok(out.push_str(if same { "same" } else { "another" })?)
}

fn take(alloc: Global, world: &mut World, step: &str, out: &mut String) -> Result<(), NoMemory> {
    let (what, rest) = step.split_once(':').unwrap_or((step, ""));
    match what {
        "send" => send(alloc, world, rest),
        "polls" => polls(world, number(rest), out),
        "again" => again(alloc, world),
        "save" => put_save(alloc, world, out),
        "twice" => put_twice(alloc, world, out),
        "redial" => {
            world.redial();
            Ok(())
        }
        _ => Ok(write!(out, "no such step: {what}")?),
    }
}

fn take_all(
    alloc: Global,
    world: &mut World,
    steps: &str,
    out: &mut String,
) -> Result<(), NoMemory> {
    for step in steps.split(' ') {
        take(alloc, world, step, out)?;
    }
    Ok(())
}

pub fn put_fault(fault: &BenchFault, out: &mut String) -> Result<(), NoMemory> {
    match fault {
        BenchFault::BadField { path } => {
            out.push_str("bad field ")?;
            Ok(out.push_str(path.as_str())?)
        }
        BenchFault::NotJson => Ok(out.push_str("not json")?),
        BenchFault::TooMany => Ok(out.push_str("too many")?),
        BenchFault::NoMemory => Err(NoMemory),
    }
}

/// The call `vehicle`: a vehicle file, and the steps.
fn drive(alloc: Global, inputs: &str, out: &mut String) -> Result<(), NoMemory> {
    let (text, steps) = first(inputs);
    match world_file::read(alloc, text.as_bytes()) {
        Ok(mut world) => take_all(alloc, &mut world, steps, out),
        Err(fault) => put_fault(&fault, out),
    }
}

#[derive(Drop)]
struct Vehicles;

impl Calls for Vehicles {
    fn answer<R: Threads + Alloc<A = Global> + Sync>(
        &self,
        rt: &R,
        call: &str,
        inputs: &str,
        out: &mut String,
    ) -> Result<(), NoMemory>
        requires { IsSync R.row }
    {
        match call {
            "link" => link::answer(rt.alloc(), inputs, out),
            _ => drive(rt.alloc(), inputs, out),
        }
    }
}

fn main(rt: HostRuntime) -> io::Result<()> {
    show_tables(&rt, &Vehicles, &["troubles", "links"])
}
