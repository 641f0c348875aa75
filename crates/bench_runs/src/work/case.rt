//! What is run.
ghost use Rattle.std.specs.Prelude.{◌≡◌, ◌≤◌, IfOk};
ghost use Rattle.vehicle_world.specs.Worlds.{IsFresh, world_of};

use crate::work::figures::{Counting, Figures, told_by};
use bay_core::Log;
use bench_shop::MemoryShop;
use flash_base::NoMemory;
use flash_bay::Bay;
use flash_plan::{LinkRules, Plan};
use flash_workers::work_logged;
use std::alloc::{AllocError, Global};
use std::io;
use std::sync::Wait;
use std::thread::Threads;
use std::time::{Clock, Instant};

/// How the units answer.
#[derive(Clone, Copy)]
pub(crate) enum Answers {
    AtOnce,
    /// Each transfer 20 ticks later.
    Late,
    /// The first at once, and the others once it has heard the end of its transfer.
    Waiting,
}

/// `workers` workers bring a plan of `units` units to its end, of which the first has `first` bytes and each other one
/// `others`.
#[derive(Clone, Copy)]
pub(crate) struct Case {
    pub(crate) units: u16,
    pub(crate) first: u32,
    pub(crate) others: u32,
    pub(crate) answers: Answers,
    pub(crate) workers: u16,
    ghost crew: { (1 ≤ workers) × (workers ≤ 16) },
}

impl Case {
    /// Units of the same size that answer at once.
    pub(crate) fn plain(units: u16, size: u32, workers: u16) -> Case
        requires { (1 ≤ workers) × (workers ≤ 16) }
    {
        Case {
            units,
            first: size,
            others: size,
            answers: Answers::AtOnce,
            workers,
        }
    }

    /// 16 units of 16 transfers each, which are answered late.
    pub(crate) fn late(workers: u16) -> Case
        requires { (1 ≤ workers) × (workers ≤ 16) }
    {
        Case {
            units: 16,
            first: 65_000,
            others: 65_000,
            answers: Answers::Late,
            workers,
        }
    }

    /// As many units as workers, of which all but the first wait for it.
    pub(crate) fn waiting(size: u32, workers: u16) -> Case
        requires { (1 ≤ workers) × (workers ≤ 16) }
    {
        Case {
            units: workers,
            first: size,
            others: 1,
            answers: Answers::Waiting,
            workers,
        }
    }

    /// The same with one worker.
    pub(crate) fn alone(&self) -> Case {
        Case {
            units: self.units,
            first: self.first,
            others: self.others,
            answers: self.answers,
            workers: 1,
        }
    }

    fn plan(&self, alloc: Global) -> Result<Plan, NoMemory> {
        crate::plans::plan(alloc, self.units, self.first, self.others)
    }

    /// A shop with its vehicle, whose first unit has these troubles, and each other one those.
    fn shop_with(&self, alloc: Global, first: &str, others: &str) -> Result<MemoryShop, NoMemory> {
        let size = self.first.max(self.others);
        let world = crate::vehicles::world(alloc, self.units, size, first, others)?;
        crate::vehicles::shop(alloc, world)
    }

    fn late_shop(&self, alloc: Global) -> Result<MemoryShop, NoMemory> {
        let late = crate::vehicles::delays(alloc, 16, 20)?;
        self.shop_with(alloc, late.as_str(), late.as_str())
    }

    fn shop(&self, alloc: Global) -> Result<MemoryShop, NoMemory> {
        match self.answers {
            Answers::AtOnce => self.shop_with(alloc, "", ""),
            Answers::Late => self.late_shop(alloc),
            Answers::Waiting => self.shop_with(alloc, "", crate::vehicles::WAITS),
        }
    }
}

/// The bay of a plan over a shop.
fn opened(alloc: Global, plan: &Plan, shop: MemoryShop) -> Result<Bay<MemoryShop>, NoMemory>
    ensures { IfOk result (λ b. b.run.plan ≡ plan.now) }
{
    let rules = LinkRules {
        tester: 0x0E80,
        relinks: 0,
    };
    match Bay::open(alloc, plan, &rules, shop) {
        Ok(bay) => Ok(bay),
        Err(_) => Err(NoMemory),
    }
}

/// What a run that began at `start` took and came to.
fn told_since<R: Clock>(
    rt: &R,
    start: Instant,
    shop: &MemoryShop,
    log: &Log,
    gate: &Counting,
) -> io::Result<Figures> {
    let took = start.elapsed(rt)?.as_micros();
    Ok(told_by(took, shop, log, gate))
}

/// Brings the units to their ends.
fn worked<R: Threads + Wait + Sync + Clock + Alloc<A = Global>>(
    rt: &R,
    plan: &Plan,
    bay: Bay<MemoryShop>,
    workers: u16,
    start: Instant,
) -> io::Result<Figures>
    requires workers { (1 ≤ workers) × (workers ≤ 16) }
    requires plan { plan.now ≡ bay.run.plan }
{
    let gate = Counting::new();
    let (shop, _board, log) = work_logged(rt, rt.alloc(), plan, bay, workers, &gate);
    told_since(rt, start, &shop, &log, &gate)
}

/// Opens the bay, and brings the units to their ends.
fn over_shop<R: Threads + Wait + Sync + Clock + Alloc<A = Global>>(
    rt: &R,
    plan: &Plan,
    shop: MemoryShop,
    workers: u16,
    start: Instant,
) -> io::Result<Figures>
    requires { (1 ≤ workers) × (workers ≤ 16) }
{
    match opened(rt.alloc(), plan, shop) {
        Ok(bay) => worked(rt, plan, bay, workers, start),
        Err(_) => Err(AllocError)?,
    }
}

/// The same with a new shop; that it is made is not measured.
fn over_plan<R: Threads + Wait + Sync + Clock + Alloc<A = Global>>(
    rt: &R,
    case: &Case,
    plan: &Plan,
) -> io::Result<Figures> {
    match case.shop(rt.alloc()) {
        Ok(shop) => {
            let start = Instant::now(rt)?;
            over_shop(rt, plan, shop, case.workers, start)
        }
        Err(_) => Err(AllocError)?,
    }
}

/// Runs it once.
fn once<R: Threads + Wait + Sync + Clock + Alloc<A = Global>>(
    rt: &R,
    case: &Case,
) -> io::Result<Figures> {
    match case.plan(rt.alloc()) {
        Ok(plan) => over_plan(rt, case, &plan),
        Err(_) => Err(AllocError)?,
    }
}

/// Runs it so many times, and at least once; what the fastest run came to.
pub(crate) fn fastest<R: Threads + Wait + Sync + Clock + Alloc<A = Global>>(
    rt: &R,
    case: &Case,
    rounds: u32,
) -> io::Result<Figures> {
    let mut best = once(rt, case)?;
    for _ in 1..rounds {
        let told = once(rt, case)?;
        if told.took < best.took {
            best = told;
        }
    }
    Ok(best)
}
