//! One row.

use crate::text::put;
use crate::turns::{Trial, in_turn};
use crate::vehicle::vehicle_of;
use crate::{setup, steps};
use flash_base::{Bytes, Files, NoMemory};
use std::alloc::Global;
use std::sync::Wait;
use std::thread::Threads;

/// The parts of a row behind its name.
#[derive(Clone, Copy)]
struct Row<'a> {
    vehicle: &'a str,
    troubles: &'a str,
    setup: &'a str,
    steps: &'a str,
}

/// The parts of a text.
fn parts(text: &str) -> Option<Row<'_>> {
    let (vehicle, rest) = text.split_once(" | ")?;
    let (troubles, rest) = rest.split_once(" | ")?;
    let (setup, steps) = rest.split_once(" | ")?;
    Some(Row {
        vehicle,
        troubles,
        setup,
        steps,
    })
}

/// A table of failures: `WHAT STATUS COMMAND`.
fn table<R: Threads + Wait + Sync>(
    rt: &R,
    alloc: Global,
    files: &Files,
    vehicle: &[u8],
    setup: &str,
    text: &str,
    out: &mut Bytes,
) -> Result<(), NoMemory> {
    let (what, rest) = text.split_once(' ').unwrap_or((text, ""));
    let (status, command) = rest.split_once(": ").unwrap_or((rest, ""));
    let trial = Trial {
        vehicle,
        setup,
        command,
        status,
    };
    in_turn(rt, alloc, files, what, trial, out)
}

/// The steps of a row over its shop.
fn steps_of<R: Threads + Wait + Sync>(
    rt: &R,
    alloc: Global,
    files: &Files,
    row: Row<'_>,
    vehicle: &[u8],
    out: &mut Bytes,
) -> Result<(), NoMemory> {
    let setup = setup::read(alloc, row.setup)?;
    match setup::shop_of(alloc, vehicle, &setup)? {
        Some(shop) => steps::all(rt, alloc, files, row.steps, shop, out),
        None => put(out, " no vehicle"),
    }
}

/// Puts what a row says.
fn put_parts<R: Threads + Wait + Sync>(
    rt: &R,
    alloc: Global,
    files: &Files,
    row: Row<'_>,
    out: &mut Bytes,
) -> Result<(), NoMemory> {
    let vehicle = vehicle_of(alloc, files, row.vehicle, row.troubles)?;
    match row.steps.strip_prefix("each ") {
        Some(rest) => table(rt, alloc, files, vehicle.as_slice(), row.setup, rest, out),
        None => steps_of(rt, alloc, files, row, vehicle.as_slice(), out),
    }
}

/// Puts a row behind its name.
pub fn put_row<R: Threads + Wait + Sync>(
    rt: &R,
    alloc: Global,
    files: &Files,
    line: &str,
    out: &mut Bytes,
) -> Result<(), NoMemory> {
    let (name, rest) = line.split_once(" | ").unwrap_or((line, ""));
    put(out, name)?;
    put(out, ":")?;
    match parts(rest) {
        Some(row) => put_parts(rt, alloc, files, row, out),
        None => put(out, " no row"),
    }
}
