//! The work under a `Mutex`.
ghost use Rattle.std.specs.Thread.{IsSync};

use crate::turn::case::Case;
use crate::turn::entries::Entries;
use std::alloc::{AllocError, Global};
use std::sync::{Mutex, Wait};
use std::thread;
use std::thread::Threads;

fn work<R: Wait>(rt: &R, lock: &Mutex<Entries>, block: &[u8], number: u64, turns: u64) {
    for _ in 0..turns {
        lock.lock(rt).work(block, number);
    }
}

// This thread works beside `count` others.
fn crew<R: Threads + Wait + Sync>(
    rt: &R,
    lock: &Mutex<Entries>,
    block: &[u8],
    count: u64,
    turns: u64,
) {
    if count == 0 {
        return work(rt, lock, block, 0, turns);
    }
    let rest = count - 1;
    thread::join(
        rt,
        move ||
            requires { IsSync R.row }
        { crew(rt, lock, block, rest, turns) },
        move || work(rt, lock, block, count, turns),
    );
}

/// The log afterwards.
pub fn run<R: Threads + Wait + Sync>(
    rt: &R,
    alloc: Global,
    case: &Case,
) -> Result<Entries, AllocError> {
    let block = vec![in alloc; 7u8; case.block]?;
    let lock = Mutex::new(Entries::new(alloc, case.entries())?);
    crew(rt, &lock, block.as_slice(), case.workers - 1, case.turns);
    Ok(lock.into_inner())
}
