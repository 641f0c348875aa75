//! The work under a turn.
ghost use Rattle.std.specs.Prelude.{◌≡◌, ◌+◌, ◌<◌, ◌≤◌, true, false};
ghost use Rattle.std.specs.Thread.{IsSync};

use crate::turn::case::Case;
use crate::turn::entries::Entries;
use std::alloc::{AllocError, Global};
use std::sync::Wait;
use std::thread;
use std::thread::Threads;
use turn_lock::{Pass, Turn};

fn work<R: Wait>(
    rt: &R,
    turn: &Turn<Entries>,
    mut pass: Pass<Entries>,
    block: &[u8],
    number: u64,
    turns: u64,
) -> Pass<Entries>
    requires turn { (pass.turn ≡ turn.now) × (pass.holds ≡ false) }
    ensures turn { (result.turn ≡ pass.turn) × (result.holds ≡ false) × (result.first ≡ pass.first) × (result.others ≡ pass.others) }
{
    for _ in 0..turns {
        let mut entries = turn.take(rt, &mut pass);
        entries.work(block, number);
        turn.give(&mut pass, entries);
    }
    pass
}

// The first pass works beside `count` others.
fn crew<R: Threads + Wait + Sync>(
    rt: &R,
    turn: &Turn<Entries>,
    mut first: Pass<Entries>,
    block: &[u8],
    count: u64,
    turns: u64,
) -> Pass<Entries>
    requires turn { (first.turn ≡ turn.now) × (first.holds ≡ false) }
    requires first { (first.first ≡ true) × (first.others + count < 65536) }
    ensures turn { (result.turn ≡ first.turn) × (result.holds ≡ false) × (result.first ≡ true) × (result.others ≡ first.others) }
{
    if count == 0 {
        return work(rt, turn, first, block, 0, turns);
    }
    let rest = count - 1;
    let pass = turn.split(&mut first);
    let (mut first, pass) = thread::join(
        rt,
        move ||
            requires { IsSync R.row × (first.turn ≡ turn.now) × (first.holds ≡ false) × (first.first ≡ true) × (first.others + rest < 65536) }
            ensures { (result.turn ≡ first.turn) × (result.holds ≡ false) × (result.first ≡ true) × (result.others ≡ first.others) }
        { crew(rt, turn, first, block, rest, turns) },
        move ||
            requires { (pass.turn ≡ turn.now) × (pass.holds ≡ false) }
            ensures { (result.turn ≡ turn.entry.now) × (result.holds ≡ false) }
        { work(rt, turn, pass, block, count, turns) },
    );
    turn.join(&mut first, pass);
    first
}

/// The log afterwards.
pub fn run<R: Threads + Wait + Sync>(
    rt: &R,
    alloc: Global,
    case: &Case,
) -> Result<Entries, AllocError> {
    let block = vec![in alloc; 7u8; case.block]?;
    let entries = Entries::new(alloc, case.entries())?;
    let (turn, first) = Turn::new(alloc, entries).map_err(|_| AllocError)?;
    let first = crew(
        rt,
        &turn,
        first,
        block.as_slice(),
        case.workers - 1,
        case.turns,
    );
    Ok(turn.close(first))
}
