//! Runs of a case, and what is printed of them.
use crate::turn::case::Case;
use crate::turn::{by_mutex, by_turn};
use std::alloc::{AllocError, Global};
use std::io;
use std::sync::Wait;
use std::thread::Threads;
use std::time::{Clock, Instant};
use turn_lock::Logged;

const ROUNDS: usize = 7;

/// Prints how many entries each log has.
pub fn count<R: Threads + Wait + Sync + Print + Alloc<A = Global>>(
    rt: &R,
    case: &Case,
) -> io::Result<()> {
    let turn = by_turn::run(rt, rt.alloc(), case)?;
    let mutex = by_mutex::run(rt, rt.alloc(), case)?;
    let (workers, block) = (case.workers, case.block);
    let (turn, mutex) = (turn.count(), mutex.count());
    println!(rt; "workers {workers} block {block} entries {turn} by turn, {mutex} by mutex")?;
    Ok(())
}

/// Runs both locks in turns, and prints the median time of one entry under each, the least, and the ratio of the medians.
pub fn compare<R: Threads + Wait + Sync + Print + Clock + Alloc<A = Global>>(
    rt: &R,
    case: &Case,
) -> io::Result<()> {
    let mut turns = [0u64; ROUNDS];
    let mut mutexes = [0u64; ROUNDS];
    for round in 0..ROUNDS {
        let start = Instant::now(rt)?;
        by_turn::run(rt, rt.alloc(), case)?;
        turns[round] = nanos_since(rt, start)?;
        let start = Instant::now(rt)?;
        by_mutex::run(rt, rt.alloc(), case)?;
        mutexes[round] = nanos_since(rt, start)?;
    }
    turns.sort_unstable();
    mutexes.sort_unstable();
    let (workers, block) = (case.workers, case.block);
    let entries = case.entries().max(1);
    let (turn, mutex) = (turns[ROUNDS / 2], mutexes[ROUNDS / 2]);
    let hundredths = turn.saturating_mul(100) / mutex.max(1);
    let (whole, part) = (hundredths / 100, hundredths % 100);
    let (turn, mutex) = (turn / entries, mutex / entries);
    let (least_turn, least_mutex) = (turns[0] / entries, mutexes[0] / entries);
    println!(rt;
        "workers {workers} block {block}: turn {turn} ns (least {least_turn}), mutex {mutex} ns (least {least_mutex}), ratio {whole}.{part:02}"
    )?;
    Ok(())
}

fn nanos_since<R: Clock>(rt: &R, start: Instant) -> io::Result<u64> {
    Ok(u64::try_from(start.elapsed(rt)?.as_nanos()).unwrap_or(u64::MAX))
}
