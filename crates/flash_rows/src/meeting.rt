//! Gates at which two units wait for one another.

use crate::text::{number, put};
use crate::together::rules_of;
use bench_shop::MemoryShop;
use flash_base::{Bytes, Files, NoMemory};
use flash_bay::Bay;
use flash_shelf::MemoryShelf;
use flash_workers::{Gate, work};
use plan_build::{Built, build};
use shop_model::Shop;
use std::alloc::Global;
use std::sync::Wait;
use std::sync::atomic::{AtomicU64, Ordering};
use std::thread;
use std::thread::Threads;

/// How often a worker looks whether the other unit has come.
const LOOKS: u32 = 10_000_000;

/// How many workers there are.
const WORKERS: u16 = 2;

/// The highest number of a unit.
const LAST_UNIT: u64 = 63;

/// Each of two units waits until the other has come too, but not for ever: where the looks end first a miss is
/// noted, and nobody waits again. Other units pass.
#[derive(Drop)]
pub struct Meeting {
    units: (u16, u16),
    first: AtomicU64,
    second: AtomicU64,
    missed: AtomicU64,
}

impl Meeting {
    fn of(first: u16, second: u16) -> Meeting {
        Meeting {
            units: (first, second),
            first: AtomicU64::new(0),
            second: AtomicU64::new(0),
            missed: AtomicU64::new(0),
        }
    }

    /// Whether both units came, and neither in vain.
    fn met(&self) -> bool {
        self.first.load(Ordering::SeqCst) == 1
            && self.second.load(Ordering::SeqCst) == 1
            && self.missed.load(Ordering::SeqCst) == 0
    }

    fn meet(&self, mine: &AtomicU64, other: &AtomicU64) {
        mine.store(1, Ordering::SeqCst);
        if self.missed.load(Ordering::SeqCst) == 1 {
            return;
        }
        for _ in 0..LOOKS {
            if other.load(Ordering::SeqCst) == 1 {
                return;
            }
            thread::yield_now();
        }
        self.missed.store(1, Ordering::SeqCst);
    }
}

impl Gate for Meeting {
    fn pass(&self, unit: u16) {
        let (first, second) = self.units;
        if unit == first {
            self.meet(&self.first, &self.second);
        } else if unit == second {
            self.meet(&self.second, &self.first);
        }
    }
}

/// Opens a bay of the plan, and has two workers bring its units to their ends.
fn run_built<R: Threads + Wait + Sync, S: Shop + Send>(
    rt: &R,
    alloc: Global,
    built: &Built,
    gate: &Meeting,
    shop: S,
) -> S {
    match Bay::open(alloc, &built.plan, &rules_of(built), shop) {
        Ok(bay) => {
            let (shop, _board) = work(rt, alloc, &built.plan, bay, WORKERS, gate);
            shop
        }
        Err((shop, _)) => shop,
    }
}

/// The same of an order of these files; where it is no order nothing is called.
fn run_order<R: Threads + Wait + Sync, S: Shop + Send>(
    rt: &R,
    alloc: Global,
    shelf: &mut MemoryShelf,
    order: &str,
    gate: &Meeting,
    shop: S,
) -> S {
    match build(rt, alloc, shelf, order) {
        Ok(built) => run_built(rt, alloc, &built, gate, shop),
        Err(_) => shop,
    }
}

/// The number of a unit, and what stands behind it.
fn unit_of(text: &str) -> (u16, &str) {
    let (unit, rest) = text.split_once(' ').unwrap_or((text, ""));
    (number(unit).min(LAST_UNIT) as u16, rest)
}

/// Runs `UNIT UNIT ORDER` by two workers with a gate at which the two units meet, puts whether they met, and hands the shop
/// back.
pub fn run<R: Threads + Wait + Sync>(
    rt: &R,
    alloc: Global,
    files: &Files,
    text: &str,
    shop: MemoryShop,
    out: &mut Bytes,
) -> Result<MemoryShop, NoMemory> {
    let (first, rest) = unit_of(text);
    let (second, order) = unit_of(rest);
    let gate = Meeting::of(first, second);
    let mut shelf = MemoryShelf::new(alloc, files, &[])?;
    let shop = run_order(rt, alloc, &mut shelf, order, &gate, shop);
    put(out, if gate.met() { "met" } else { "missed" })?;
    Ok(shop)
}
