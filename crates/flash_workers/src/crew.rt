//! A crew: the first pass of a turn, and a worker for each pass that was split from it.
ghost use Rattle.std.specs.Prelude.{◌≡◌, ◌+◌, ◌<◌, ◌≤◌, [], length, vec_capacity, true, All, IfSome};
ghost use Rattle.flash_workers.specs.Crew.{Follows, IsAtRest, IsCrew, IsHired};

use crate::bell::Bell;
use crate::desk::Desk;
use crate::gate::Gate;
use crate::shift::Shift;
use crate::watcher::Watcher;
use crate::worker::{Worker, claim_in_turn};
use flash_plan::Plan;
use shop_model::Shop;
use std::alloc::Global;
use std::sync::Wait;
use std::thread;
use std::thread::Threads;
use turn_lock::{Pass, Turn};

/// Splits a pass for each worker.
pub fn hire<S: Shop>(
    turn: &Turn<Desk<S>>,
    first: &mut Pass<Desk<S>>,
    plan: &Plan,
    crew: &mut Vec<Worker<S>>,
    workers: u16,
)
    requires crew { IsCrew turn.now plan.now first.old crew.old.items }
    requires none { crew.old.items ≡ [] }
    requires room { workers ≤ vec_capacity crew.old }
    requires few { workers ≤ 16 }
    ensures crew { IsCrew turn.now plan.now first.new crew.new.items }
    ensures number { length crew.new.items ≡ workers }
    ensures follows { Follows first.old first.new }
{
    for hired in 0..workers {
        let _ = hired;
        hire_one(turn, first, plan, crew);
    }
}

/// Splits a pass for one worker more.
fn hire_one<S: Shop>(
    turn: &Turn<Desk<S>>,
    first: &mut Pass<Desk<S>>,
    _plan: &Plan,
    crew: &mut Vec<Worker<S>>,
)
    requires crew { IsCrew turn.now _plan.now first.old crew.old.items }
    requires room { length crew.old.items < vec_capacity crew.old }
    requires few { length crew.old.items < 16 }
    ensures crew { IsCrew turn.now _plan.now first.new crew.new.items }
    ensures number { length crew.new.items ≡ length crew.old.items + 1 }
    ensures room { vec_capacity crew.old ≤ vec_capacity crew.new }
    ensures follows { Follows first.old first.new }
{
    let pass = turn.split(first);
    let _ = crew.push(Worker { pass, unit: None });
}

/// Rounds of the crew, as long as a worker has a unit or one is ready.
pub fn rounds<R: Threads + Wait + Sync, S: Shop + Send, G: Gate + Sync, W: Watcher + Sync>(
    rt: &R,
    alloc: Global,
    turn: &Turn<Desk<S>>,
    first: &mut Pass<Desk<S>>,
    crew: &mut Vec<Worker<S>>,
    plan: &Plan,
    gate: &G,
    watcher: &W,
)
    requires crew { IsCrew turn.now plan.now first.old crew.old.items }
    requires some { 1 ≤ length crew.old.items }
    ensures crew { IsCrew turn.now plan.now first.new crew.new.items }
    ensures follows { Follows first.old first.new }
{
    for _ in rt.forever() {
        if !begins(rt, turn, first, crew, plan) {
            return;
        }
        round(rt, alloc, turn, crew.as_mut_slice(), plan, gate, watcher);
    }
    unreachable!()
}

/// Claims a unit for a worker that has none. Whether some worker has a unit then.
fn begins<R: Wait, S: Shop>(
    rt: &R,
    turn: &Turn<Desk<S>>,
    first: &mut Pass<Desk<S>>,
    crew: &mut Vec<Worker<S>>,
    plan: &Plan,
) -> bool
    requires crew { IsCrew turn.now plan.now first.old crew.old.items }
    ensures crew { IsCrew turn.now plan.now first.new crew.new.items }
    ensures number { length crew.new.items ≡ length crew.old.items }
    ensures follows { Follows first.old first.new }
{
    claim_for_one(rt, turn, first, crew, plan);
    crew.iter().any(|worker| worker.unit.is_some())
}

/// Claims a unit for a worker that has none, if there are both.
fn claim_for_one<R: Wait, S: Shop>(
    rt: &R,
    turn: &Turn<Desk<S>>,
    first: &mut Pass<Desk<S>>,
    crew: &mut Vec<Worker<S>>,
    plan: &Plan,
)
    requires crew { IsCrew turn.now plan.now first.old crew.old.items }
    ensures crew { IsCrew turn.now plan.now first.new crew.new.items }
    ensures number { length crew.new.items ≡ length crew.old.items }
    ensures follows { Follows first.old first.new }
{
    let Some(i) = idle(crew.as_slice()) else {
        return;
    };
    let Some(unit) = claim_in_turn(rt, turn, first, plan) else {
        return;
    };
    crew[i].unit = Some(unit);
}

/// A worker that has no unit.
fn idle<S: Shop>(crew: &[Worker<S>]) -> Option<usize>
    ensures { IfSome result (λ i. i < length crew.now) }
{
    for i in 0..crew.len() {
        if crew[i].unit.is_none() {
            return Some(i);
        }
    }
    None
}

/// Every worker works until there is nothing for it to claim, or until the bell rings.
fn round<R: Threads + Wait + Sync, S: Shop + Send, G: Gate + Sync, W: Watcher + Sync>(
    rt: &R,
    alloc: Global,
    turn: &Turn<Desk<S>>,
    crew: &mut [Worker<S>],
    plan: &Plan,
    gate: &G,
    watcher: &W,
)
    requires crew { All (IsHired turn.now plan.now) crew.old }
    requires some { 1 ≤ length crew.old }
    ensures { All (IsHired turn.now plan.now) crew.new }
{
    let shift = Shift {
        gate,
        watcher,
        bell: Bell::new(),
        alloc,
    };
    let threads = crew.len();
    thread::for_each_mut(
        rt,
        crew,
        threads,
        &|_, worker| worker.run(rt, turn, plan, &shift),
    );
}

/// Joins the passes of all workers.
pub fn dismiss<S: Shop>(
    turn: &Turn<Desk<S>>,
    first: &mut Pass<Desk<S>>,
    plan: &Plan,
    crew: &mut Vec<Worker<S>>,
)
    requires crew { IsCrew turn.now plan.now first.old crew.old.items }
    ensures crew { IsCrew turn.now plan.now first.new [] }
    ensures follows { Follows first.old first.new }
{
    while let Some(worker) = crew.pop() {
        dismiss_one(turn, first, plan, worker);
    }
}

/// Joins the pass of one worker.
fn dismiss_one<S: Shop>(
    turn: &Turn<Desk<S>>,
    first: &mut Pass<Desk<S>>,
    _plan: &Plan,
    worker: Worker<S>,
)
    requires first { IsAtRest turn.now _plan.now first.old }
    requires leads { first.old.first ≡ true }
    requires worker { IsHired turn.now _plan.now worker }
    ensures first { IsAtRest turn.now _plan.now first.new }
    ensures leads { first.new.first ≡ true }
    ensures fewer { first.new.others + 1 ≡ first.old.others }
    ensures follows { Follows first.old first.new }
{
    let Worker { pass, unit: _ } = worker;
    turn.join(first, pass);
}
