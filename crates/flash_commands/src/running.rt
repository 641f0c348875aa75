//! A run of an order file: its plan, its journal, and the work on its units.
ghost use Rattle.std.specs.Prelude.{◌≡◌, ◌≤◌, Ok};
ghost use Rattle.flash_commands.specs.Running.{rules_of, Ends, IsOrderRun, RunsOrder};
ghost use Rattle.flash_commands.specs.Words.{IsCrewSize};

use crate::printing::{finish, refuse_files, refuse_journal};
use flash_bay::Bay;
use flash_order::Order;
use flash_plan::LinkRules;
use flash_shelf::{Shelf, Sink};
use flash_workers::{OpenGate, Watcher, work_watched};
use plan_build::laws::files_give_one_answer;
use plan_build::{Built, build};
use plan_commands::Status;
use shop_model::Shop;
use std::alloc::Global;
use std::sync::Wait;
use std::thread::Threads;

/// The tester's address and how often a lost link is made anew.
fn rules_of(order: &Order) -> LinkRules
    ensures { result ≡ rules_of order.now }
{
    LinkRules {
        tester: order.tester,
        relinks: order.relinks,
    }
}

/// Runs the plan that was built: opens its journal, brings each unit to its end, and prints the report.
fn run_built<R: Threads + Wait + Sync, S: Shop + Send, K: Sink, W: Watcher + Sync>(
    rt: &R,
    alloc: Global,
    built: &Built,
    workers: u16,
    shop: S,
    out: &mut K,
    watcher: &W,
) -> (S, Status)
    requires { IsCrewSize workers }
    ensures never_falls { (K.history out.old).faults ≤ (K.history out.new).faults }
    ensures ends { Ends S.tells_disk S.tells_vehicle (S.history shop) (S.history result.0)
        K.tells (K.history out.old) (K.history out.new) (Ok built.now) result.1 }
{
    let rules = rules_of(&built.order);
    match Bay::open(alloc, &built.plan, &rules, shop) {
        Ok(bay) => {
            let (shop, board) = work_watched(
                rt,
                alloc,
                &built.plan,
                bay,
                workers,
                &OpenGate,
                watcher,
            );
            let status = finish(alloc, out, &built.plan, &board);
            (shop, status)
        }
        Err((shop, fault)) => {
            let status = refuse_journal(alloc, out, &built.plan, &fault);
            (shop, status)
        }
    }
}

/// Builds the plan of an order file, and runs it.
fn run_order<R: Threads + Wait + Sync, F: Shelf, S: Shop + Send, K: Sink, W: Watcher + Sync>(
    rt: &R,
    alloc: Global,
    order: &str,
    workers: u16,
    shelf: &mut F,
    shop: S,
    out: &mut K,
    watcher: &W,
) -> (S, Status)
    requires { IsCrewSize workers }
    ensures keeps { (F.history shelf.new).contents ≡ (F.history shelf.old).contents }
    ensures ends { IsOrderRun F.tells (F.history shelf.old) (F.history shelf.new)
        S.tells_disk S.tells_vehicle (S.history shop) (S.history result.0)
        K.tells (K.history out.old) (K.history out.new) order.now result.1 }
{
    match build(rt, alloc, shelf, order) {
        Ok(built) => run_built(rt, alloc, &built, workers, shop, out, watcher),
        Err(fault) => (shop, refuse_files(alloc, out, fault)),
    }
}

/// Runs an order file: builds its plan, opens the journal, brings each unit to its end by the workers, and
/// prints the report; or prints the one line of what is refused before.
pub fn run<R: Threads + Wait + Sync, F: Shelf, S: Shop + Send, K: Sink, W: Watcher + Sync>(
    rt: &R,
    alloc: Global,
    order: &str,
    workers: u16,
    shelf: &mut F,
    shop: S,
    out: &mut K,
    watcher: &W,
) -> (S, Status)
    requires { IsCrewSize workers }
    ensures keeps { (F.history shelf.new).contents ≡ (F.history shelf.old).contents }
    ensures runs { RunsOrder F.tells (F.history shelf.old) (F.history shelf.new)
        S.tells_disk S.tells_vehicle (S.history shop) (S.history result.0)
        K.tells (K.history out.old) (K.history out.new) order.now result.1 }
{
    files_give_one_answer();
    run_order(rt, alloc, order, workers, shelf, shop, out, watcher)
}
