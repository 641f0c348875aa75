//! A turn beside a plain `Mutex` on the same work.
//!
//! Workers take a log in turns and append their number to it. In some runs each of them also reads a block of bytes
//! while it holds the log, as a worker would that has something to do there.
//!
//! Without times it prints how many entries the logs have, which is the same in every run. With them it runs each case
//! several times, one lock after the other, and prints the times of a turn and the ratio of the two locks' medians.

mod by_mutex;
mod by_turn;
mod case;
mod entries;
mod timing;

use case::Case;
use std::alloc::Global;
use std::io;
use std::sync::Wait;
use std::thread::Threads;
use std::time::Clock;

/// Runs each case.
pub fn run<R: Threads + Wait + Sync + Print + Clock + Alloc<A = Global>>(
    rt: &R,
    is_timed: bool,
) -> io::Result<()> {
    let cases = [
        Case {
            workers: 1,
            turns: 1_000_000,
            block: 0,
        },
        Case {
            workers: 4,
            turns: 100_000,
            block: 0,
        },
        Case {
            workers: 1,
            turns: 100_000,
            block: 4096,
        },
        Case {
            workers: 4,
            turns: 25_000,
            block: 4096,
        },
    ];
    for case in &cases {
        if is_timed {
            timing::compare(rt, case)?;
        } else {
            timing::count(rt, &case.shortened())?;
        }
    }
    Ok(())
}
