//! Several workers, in turns.
ghost use Rattle.std.specs.Prelude.{◌≡◌, ◌≤◌};
ghost use Rattle.flash_bay.specs.Calls.{Grows};
ghost use Rattle.flash_workers.specs.Growing.{IsWorked, IsWorkedLogged};

use crate::alone::finish;
use crate::crew::{dismiss, hire, rounds};
use crate::desk::Desk;
use crate::gate::Gate;
use crate::watcher::{Unwatched, Watcher};
use barrier_board::Board;
use bay_core::Log;
use flash_bay::Bay;
use flash_plan::Plan;
use shop_model::Shop;
use std::alloc::Global;
use std::sync::Wait;
use std::thread::Threads;
use turn_lock::Turn;

/// Brings each unit to its end by several workers, and closes the bay. Workers take the bay in turns, a step of
/// one unit at a time, and make their next requests in between. With one worker, or where there is no memory for
/// more, it is [`work_alone`](crate::work_alone).
///
/// It may wait, and is not promised to return: its promise holds where it does.
pub fn work<R: Threads + Wait + Sync, S: Shop + Send, G: Gate + Sync>(
    rt: &R,
    alloc: Global,
    plan: &Plan,
    bay: Bay<S>,
    workers: u16,
    gate: &G,
) -> (S, Board)
    requires workers { (1 ≤ workers) × (workers ≤ 16) }
    requires plan { plan.now ≡ bay.run.plan }
    ensures { IsWorked S.tells_disk S.tells_vehicle S.history bay result.0 result.1 }
{
    work_watched(rt, alloc, plan, bay, workers, gate, &Unwatched)
}

/// The same, and a watcher is told how far it has come, while the bay is not held.
pub fn work_watched<R: Threads + Wait + Sync, S: Shop + Send, G: Gate + Sync, W: Watcher + Sync>(
    rt: &R,
    alloc: Global,
    plan: &Plan,
    bay: Bay<S>,
    workers: u16,
    gate: &G,
    watcher: &W,
) -> (S, Board)
    requires workers { (1 ≤ workers) × (workers ≤ 16) }
    requires plan { plan.now ≡ bay.run.plan }
    ensures { IsWorked S.tells_disk S.tells_vehicle S.history bay result.0 result.1 }
{
    let (shop, board, _log) = work_told(rt, alloc, plan, bay, workers, gate, watcher);
    (shop, board)
}

/// As [`work`], and the log of the run is handed on.
pub fn work_logged<R: Threads + Wait + Sync, S: Shop + Send, G: Gate + Sync>(
    rt: &R,
    alloc: Global,
    plan: &Plan,
    bay: Bay<S>,
    workers: u16,
    gate: &G,
) -> (S, Board, Log)
    requires workers { (1 ≤ workers) × (workers ≤ 16) }
    requires plan { plan.now ≡ bay.run.plan }
    ensures { IsWorkedLogged S.tells_disk S.tells_vehicle S.history bay result.0 result.1 result.2 }
{
    work_told(rt, alloc, plan, bay, workers, gate, &Unwatched)
}

/// The units are brought to their ends, a watcher is told, and the log is handed on.
fn work_told<R: Threads + Wait + Sync, S: Shop + Send, G: Gate + Sync, W: Watcher + Sync>(
    rt: &R,
    alloc: Global,
    plan: &Plan,
    bay: Bay<S>,
    workers: u16,
    gate: &G,
    watcher: &W,
) -> (S, Board, Log)
    requires workers { (1 ≤ workers) × (workers ≤ 16) }
    requires plan { plan.now ≡ bay.run.plan }
    ensures { IsWorkedLogged S.tells_disk S.tells_vehicle S.history bay result.0 result.1 result.2 }
{
    watcher.begins(plan);
    let mut bay = in_turns(rt, alloc, plan, bay, workers, gate, watcher);
    finish(alloc, plan, &mut bay, watcher);
    watcher.ends(plan);
    bay.close_logged(plan)
}

/// The bay after the rounds of a crew. With one worker, or where there is no memory for a crew, it is as it was.
fn in_turns<R: Threads + Wait + Sync, S: Shop + Send, G: Gate + Sync, W: Watcher + Sync>(
    rt: &R,
    alloc: Global,
    plan: &Plan,
    bay: Bay<S>,
    workers: u16,
    gate: &G,
    watcher: &W,
) -> Bay<S>
    requires workers { (1 ≤ workers) × (workers ≤ 16) }
    requires plan { plan.now ≡ bay.run.plan }
    ensures { Grows bay result }
{
    if workers == 1 {
        return bay;
    }
    let Ok(mut crew) = Vec::with_capacity(alloc, workers as usize) else {
        return bay;
    };
    let desk = match Desk::new(alloc, bay) {
        Ok(desk) => desk,
        Err(bay) => return bay,
    };
    let (turn, mut first) = match Turn::new(alloc, desk) {
        Ok(made) => made,
        Err(desk) => return desk.into_bay(),
    };
    hire(&turn, &mut first, plan, &mut crew, workers);
    rounds(rt, alloc, &turn, &mut first, &mut crew, plan, gate, watcher);
    dismiss(&turn, &mut first, plan, &mut crew);
    turn.close(first).into_bay()
}
