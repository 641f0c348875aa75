//! One worker, and no turn.
ghost use Rattle.std.specs.Prelude.{◌≡◌, ◌<◌, ◌^◌, length, true, IfSome, IfNone};
ghost use Rattle.flash_bay.specs.Calls.{Grows};
ghost use Rattle.flash_bay.specs.Closing.{NoneClaimed, NoneOpen};
ghost use Rattle.flash_plan.specs.Plan.{count_of};
ghost use Rattle.flash_run.specs.Run.{is_open};
ghost use Rattle.flash_workers.specs.Growing.{Goes, IsWorked};

use crate::progress::tell;
use crate::unit_step::step;
use crate::watcher::{Unwatched, Watcher};
use barrier_board::{Board, Claimed};
use flash_bay::Bay;
use flash_plan::Plan;
use shop_model::Shop;
use std::alloc::Global;

/// Brings each unit to its end, one after the other, and closes the bay. It waits for nobody, and returns.
pub fn work_alone<S: Shop>(alloc: Global, plan: &Plan, bay: Bay<S>) -> (S, Board)
    requires plan { plan.now ≡ bay.run.plan }
    ensures { IsWorked S.tells_disk S.tells_vehicle S.history bay result.0 result.1 }
{
    work_alone_watched(alloc, plan, bay, &Unwatched)
}

/// The same, and a watcher is told how far it has come.
pub fn work_alone_watched<S: Shop, W: Watcher>(
    alloc: Global,
    plan: &Plan,
    bay: Bay<S>,
    watcher: &W,
) -> (S, Board)
    requires plan { plan.now ≡ bay.run.plan }
    ensures { IsWorked S.tells_disk S.tells_vehicle S.history bay result.0 result.1 }
{
    watcher.begins(plan);
    let mut bay = bay;
    finish(alloc, plan, &mut bay, watcher);
    watcher.ends(plan);
    bay.close(plan)
}

/// Brings each unit that is unfinished or ready to its end.
pub(crate) fn finish<S: Shop, W: Watcher>(alloc: Global, plan: &Plan, bay: &mut Bay<S>, watcher: &W)
    requires plan { plan.now ≡ bay.old.run.plan }
    ensures grows { Grows bay.old bay.new }
    ensures open { NoneOpen bay.new.run }
    ensures claimed { NoneClaimed bay.new.run }
{
    while let Some(unit) = next_unit(plan, bay) {
        bring_to_end(alloc, plan, bay, unit, watcher);
    }
}

/// A unit that is unfinished, or else one that was ready and is claimed now.
fn next_unit<S: Shop>(plan: &Plan, bay: &mut Bay<S>) -> Option<u16>
    requires plan { plan.now ≡ bay.old.run.plan }
    ensures grows { Grows bay.old bay.new }
    ensures some { IfSome result (λ u. (u < count_of plan.now) × (is_open bay.new.run u ≡ true)) }
    ensures none { IfNone result (NoneOpen bay.new.run × NoneClaimed bay.new.run) }
{
    match bay.unfinished(plan) {
        Some(unit) => Some(unit),
        None => claim_next(plan, bay),
    }
}

/// A unit that was ready and is claimed now, where none is unfinished.
fn claim_next<S: Shop>(plan: &Plan, bay: &mut Bay<S>) -> Option<u16>
    requires plan { plan.now ≡ bay.old.run.plan }
    requires open { NoneOpen bay.old.run }
    ensures grows { Grows bay.old bay.new }
    ensures some { IfSome result (λ u. (u < count_of plan.now) × (is_open bay.new.run u ≡ true)) }
    ensures none { IfNone result (NoneOpen bay.new.run × NoneClaimed bay.new.run) }
{
    match bay.claim(plan) {
        Claimed::Unit(unit) => Some(unit),
        Claimed::Nothing => None,
    }
}

/// Makes steps of a claimed unit until it has an outcome.
fn bring_to_end<S: Shop, W: Watcher>(
    alloc: Global,
    plan: &Plan,
    bay: &mut Bay<S>,
    unit: u16,
    watcher: &W,
)
    requires plan { plan.now ≡ bay.old.run.plan }
    requires within { unit < count_of plan.now }
    requires open { is_open bay.old.run unit ≡ true }
    ensures goes { Goes bay.old bay.new }
    ensures few { length bay.new.run.events < 2 ^ 63 }
{
    while step(alloc, plan, bay, unit, None) {
        tell(plan, bay, unit, watcher);
    }
    watcher.ended(plan, unit);
}
