//! A failure at each call of a run in turn, and the run behind each.

use crate::held::put_memory;
use crate::setup::{Setup, fail_disk, fail_link, shop_of};
use crate::text::{put, put_number};
use crate::{command, setup};
use bench_shop::{MemoryShop, Pick};
use flash_base::{Bytes, Files, NoMemory};
use std::alloc::Global;
use std::sync::Wait;
use std::thread::Threads;

/// The images behind a crash.
const PICKS: [Pick; 3] = [Pick::Old, Pick::New, Pick::Junk(0x5a)];

/// The image behind a crash where all that was written is synced.
const SYNCED: [Pick; 1] = [Pick::New];

/// What is tried: with which vehicle, by which command, and what is wanted.
#[derive(Clone, Copy)]
pub struct Trial<'a> {
    pub vehicle: &'a [u8],
    /// What is said of the shop before the first call.
    pub setup: &'a str,
    pub command: &'a str,
    /// How the command ends where a call fails.
    pub status: &'a str,
}

/// How many runs there were, and how many of them ended as is wanted.
#[derive(Clone, Copy)]
pub struct Count {
    pub runs: u64,
    pub right: u64,
}

impl Count {
    fn none() -> Count {
        Count { runs: 0, right: 0 }
    }

    fn add(&mut self, right: bool) {
        self.runs = self.runs.saturating_add(1);
        if right {
            self.right = self.right.saturating_add(1);
        }
    }

    fn put(&self, out: &mut Bytes, name: &str) -> Result<(), NoMemory> {
        put(out, name)?;
        put(out, " ")?;
        put_number(out, self.right)?;
        put(out, " of ")?;
        put_number(out, self.runs)
    }
}

/// Runs the command over the shop to its end, and puts what it says and what the units hold then.
fn ended<R: Threads + Wait + Sync>(
    rt: &R,
    alloc: Global,
    files: &Files,
    command: &str,
    shop: MemoryShop,
    out: &mut Bytes,
) -> Result<MemoryShop, NoMemory> {
    let shop = command::run(rt, alloc, files, command, &[], shop, out)?;
    put(out, "; ")?;
    put_memory(alloc, out, &shop)?;
    Ok(shop)
}

/// Whether the run behind a crash ends as the text says.
fn is_again<R: Threads + Wait + Sync>(
    rt: &R,
    alloc: Global,
    files: &Files,
    command: &str,
    shop: &MemoryShop,
    at: (u64, Pick),
    want: &[u8],
) -> Result<bool, NoMemory> {
    let (moment, pick) = at;
    if moment > shop.made().moments {
        return Ok(false);
    }
    let anew = shop.crash(alloc, moment, pick)?;
    let mut said = Bytes::new(alloc);
    let _shop = ended(rt, alloc, files, command, anew, &mut said)?;
    Ok(said.as_slice() == want)
}

/// Counts the runs behind a crash at this moment, with each of these images.
fn count_again<R: Threads + Wait + Sync>(
    rt: &R,
    alloc: Global,
    files: &Files,
    command: &str,
    shop: &MemoryShop,
    moment: u64,
    picks: &[Pick],
    want: &[u8],
    count: &mut Count,
) -> Result<(), NoMemory> {
    for pick in picks {
        let right = is_again(rt, alloc, files, command, shop, (moment, *pick), want)?;
        count.add(right);
    }
    Ok(())
}

/// One failure, and the runs behind it.
fn count_one<R: Threads + Wait + Sync>(
    rt: &R,
    alloc: Global,
    files: &Files,
    trial: Trial<'_>,
    setup: &Setup,
    picks: &[Pick],
    want: &[u8],
    counts: &mut (Count, Count),
) -> Result<(), NoMemory> {
    let Some(shop) = shop_of(alloc, trial.vehicle, setup)? else {
        return Ok(());
    };
    let mut said = Bytes::new(alloc);
    let shop = command::run(rt, alloc, files, trial.command, &[], shop, &mut said)?;
    counts
        .0
        .add(said.as_slice().starts_with(trial.status.as_bytes()));
    let last = shop.made().moments;
    count_again(
        rt,
        alloc,
        files,
        trial.command,
        &shop,
        last,
        picks,
        want,
        &mut counts.1,
    )
}

fn each_disk<R: Threads + Wait + Sync>(
    rt: &R,
    alloc: Global,
    files: &Files,
    trial: Trial<'_>,
    calls: u64,
    want: &[u8],
    counts: &mut (Count, Count),
) -> Result<(), NoMemory> {
    for number in 0..calls {
        let mut setup = setup::read(alloc, trial.setup)?;
        fail_disk(&mut setup, number)?;
        count_one(rt, alloc, files, trial, &setup, &PICKS, want, counts)?;
    }
    Ok(())
}

fn each_link<R: Threads + Wait + Sync>(
    rt: &R,
    alloc: Global,
    files: &Files,
    trial: Trial<'_>,
    calls: u64,
    want: &[u8],
    counts: &mut (Count, Count),
) -> Result<(), NoMemory> {
    for number in 0..calls {
        let mut setup = setup::read(alloc, trial.setup)?;
        fail_link(&mut setup, number)?;
        count_one(rt, alloc, files, trial, &setup, &SYNCED, want, counts)?;
    }
    Ok(())
}

/// A stop at each moment of a run that has ended.
fn each_stop<R: Threads + Wait + Sync>(
    rt: &R,
    alloc: Global,
    files: &Files,
    trial: Trial<'_>,
    shop: &MemoryShop,
    want: &[u8],
    count: &mut Count,
) -> Result<(), NoMemory> {
    let last = shop.made().moments;
    for moment in 0..last {
        count_again(
            rt,
            alloc,
            files,
            trial.command,
            shop,
            moment,
            &PICKS,
            want,
            count,
        )?;
    }
    count_again(
        rt,
        alloc,
        files,
        trial.command,
        shop,
        last,
        &PICKS,
        want,
        count,
    )
}

/// What is made to fail, and the run without a failure that says how many calls there are.
fn each<R: Threads + Wait + Sync>(
    rt: &R,
    alloc: Global,
    files: &Files,
    what: &str,
    trial: Trial<'_>,
    shop: &MemoryShop,
    want: &[u8],
    counts: &mut (Count, Count),
) -> Result<(), NoMemory> {
    let made = shop.made();
    match what {
        "disk" => each_disk(rt, alloc, files, trial, made.disk, want, counts),
        "link" => each_link(rt, alloc, files, trial, made.link, want, counts),
        _ => each_stop(rt, alloc, files, trial, shop, want, &mut counts.1),
    }
}

/// Puts how the run without a failure ended; then tries what is to fail, and puts how many runs ended as is wanted.
fn tried<R: Threads + Wait + Sync>(
    rt: &R,
    alloc: Global,
    files: &Files,
    what: &str,
    trial: Trial<'_>,
    shop: &MemoryShop,
    want: &[u8],
    out: &mut Bytes,
) -> Result<(), NoMemory> {
    put(out, " ")?;
    out.extend(want)?;
    let mut counts = (Count::none(), Count::none());
    each(rt, alloc, files, what, trial, shop, want, &mut counts)?;
    counts.0.put(out, "; failed")?;
    counts.1.put(out, "; again")
}

/// The run without a failure, and what is tried then.
fn run_first<R: Threads + Wait + Sync>(
    rt: &R,
    alloc: Global,
    files: &Files,
    what: &str,
    trial: Trial<'_>,
    shop: MemoryShop,
    out: &mut Bytes,
) -> Result<(), NoMemory> {
    let mut want = Bytes::new(alloc);
    let shop = ended(rt, alloc, files, trial.command, shop, &mut want)?;
    tried(rt, alloc, files, what, trial, &shop, want.as_slice(), out)
}

/// Tries a failure at each call (`disk`, `link`) or a stop at each moment, and puts how the run without a failure ended,
/// and how many of the others ended as is wanted: those with a failure with the status, those behind it as that run.
pub fn in_turn<R: Threads + Wait + Sync>(
    rt: &R,
    alloc: Global,
    files: &Files,
    what: &str,
    trial: Trial<'_>,
    out: &mut Bytes,
) -> Result<(), NoMemory> {
    let setup = setup::read(alloc, trial.setup)?;
    match shop_of(alloc, trial.vehicle, &setup)? {
        Some(shop) => run_first(rt, alloc, files, what, trial, shop, out),
        None => put(out, " no vehicle"),
    }
}
