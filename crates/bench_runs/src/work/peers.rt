//! What a run is measured beside.

use flash_plan::Plan;
use sha2::{Digest, Sha256};
use std::alloc::{AllocError, Global};
use std::io;
use std::time::{Clock, Instant};

/// SHA-256 over the bytes of a plan.
fn hash(plan: &Plan) -> u8 {
    let mut hasher = Sha256::new();
    for number in 0..plan.units() {
        let segments = &plan.unit(number).segments;
        for segment in segments.as_slice() {
            hasher.update(segment.body.as_slice());
        }
    }
    hasher.finalize()[0]
}

/// A copy of the bytes of a plan, in place of what the list had.
fn copy(plan: &Plan, copy: &mut Vec<u8>) -> Result<(), AllocError> {
    copy.clear();
    for number in 0..plan.units() {
        let segments = &plan.unit(number).segments;
        for segment in segments.as_slice() {
            copy.extend_from_slice(segment.body.as_slice())?;
        }
    }
    Ok(())
}

/// The microseconds of both, once.
fn once<R: Clock>(rt: &R, plan: &Plan, copied: &mut Vec<u8>) -> io::Result<u128> {
    let start = Instant::now(rt)?;
    for _ in 0..2 {
        hash(plan);
    }
    for _ in 0..5 {
        copy(plan, copied)?;
    }
    Ok(start.elapsed(rt)?.as_micros())
}

/// The fewest microseconds of so many rounds.
fn took_by<R: Clock + Alloc<A = Global>>(rt: &R, plan: &Plan, rounds: u32) -> io::Result<u128> {
    let mut copied = Vec::new(rt.alloc());
    copy(plan, &mut copied)?;
    let mut best = once(rt, plan, &mut copied)?;
    for _ in 1..rounds {
        best = best.min(once(rt, plan, &mut copied)?);
    }
    Ok(best)
}

/// The microseconds of SHA-256 twice over the bytes of a plan, and of five copies of them into memory that is there: the fewest
/// of so many rounds.
pub(crate) fn fastest<R: Clock + Alloc<A = Global>>(
    rt: &R,
    units: u16,
    size: u32,
    rounds: u32,
) -> io::Result<u128> {
    match crate::plans::plan(rt.alloc(), units, size, size) {
        Ok(plan) => took_by(rt, &plan, rounds),
        Err(_) => Err(AllocError)?,
    }
}
