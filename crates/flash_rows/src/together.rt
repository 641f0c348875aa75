//! Units that are begun together, through the calls of a bay.
ghost use Rattle.std.specs.Prelude.{◌≡◌};

use crate::text::put;
use bench_shop::MemoryShop;
use flash_base::{Bytes, Files, NoMemory};
use flash_bay::Bay;
use flash_plan::{LinkRules, Plan};
use flash_shelf::MemoryShelf;
use flash_workers::work_alone;
use plan_build::{Built, build};
use shop_model::Shop;
use std::alloc::Global;
use std::thread::Threads;

/// Takes up each unit that is ready.
fn claim_all<S: Shop>(plan: &Plan, bay: &mut Bay<S>)
    requires { plan.now ≡ bay.old.run.plan }
    ensures { bay.new.run.plan ≡ bay.old.run.plan }
{
    for _unit in 0..plan.units() {
        bay.claim(plan);
    }
}

/// Who the tester is, and how often the link may be lost.
pub fn rules_of(built: &Built) -> LinkRules {
    LinkRules {
        tester: built.order.tester,
        relinks: built.order.relinks,
    }
}

/// Opens a bay of the plan, takes up its units, and then brings one after the other to its end: the first record says
/// of each unit that was taken up that it is begun.
fn run_built<S: Shop>(alloc: Global, built: &Built, shop: S) -> S {
    match Bay::open(alloc, &built.plan, &rules_of(built), shop) {
        Ok(opened) => {
            let mut bay = opened;
            claim_all(&built.plan, &mut bay);
            let (shop, _board) = work_alone(alloc, &built.plan, bay);
            shop
        }
        Err((shop, _)) => shop,
    }
}

/// The same of an order of these files; where it is no order nothing is called.
fn run_order<R: Threads + Sync, S: Shop>(
    rt: &R,
    alloc: Global,
    shelf: &mut MemoryShelf,
    order: &str,
    shop: S,
) -> S {
    match build(rt, alloc, shelf, order) {
        Ok(built) => run_built(alloc, &built, shop),
        Err(_) => shop,
    }
}

/// Runs an order with its units begun together, and hands the shop back.
pub fn run<R: Threads + Sync>(
    rt: &R,
    alloc: Global,
    files: &Files,
    order: &str,
    shop: MemoryShop,
    out: &mut Bytes,
) -> Result<MemoryShop, NoMemory> {
    let mut shelf = MemoryShelf::new(alloc, files, &[])?;
    put(out, "together")?;
    Ok(run_order(rt, alloc, &mut shelf, order, shop))
}
