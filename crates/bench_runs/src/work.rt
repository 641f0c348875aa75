//! Runs over a shop in memory: one worker beside SHA-256 and copies of the same bytes, and several workers beside one.

ghost use Rattle.std.specs.Prelude.{◌≤◌};

mod case;
mod figures;
mod peers;

use crate::print_beside;
use case::{Case, fastest};
use figures::Figures;
use std::alloc::Global;
use std::io;
use std::sync::Wait;
use std::thread::Threads;
use std::time::Clock;

/// The bytes of a unit in a long run.
const MEGABYTE: u32 = 1_048_576;

/// Prints what a run came to, and where `is_timed` what it took.
fn print_run<R: Print>(rt: &R, case: &Case, told: &Figures, is_timed: bool) -> io::Result<()> {
    let (units, first) = (case.units, case.first);
    let (complete, sent) = (told.complete, told.sent);
    println!(rt;
        "{units} units, the first of {first} bytes: {complete} complete after {sent} requests"
    )?;
    if is_timed {
        let (took, ticks, log) = (told.took, told.ticks, told.log / told.sent.max(1));
        let (workers, disk, link) = (case.workers, told.disk, told.link);
        println!(rt;
            "  {workers} workers: {took} us, {ticks} ticks, {link} link calls, {disk} disk calls, {log} bytes of log a request"
        )?;
        let (passes, claimed, events) = (told.passes, told.claimed, told.events);
        println!(rt; "  {passes} steps in turn, {claimed} claims, {events} events")?;
    }
    Ok(())
}

/// How often each case is run; the fastest run counts.
const ROUNDS: u32 = 3;

/// A run of one worker beside its peers, beside one of half the bytes, and beside one of half the units.
fn run_timed<R: Threads + Wait + Sync + Print + Clock + Alloc<A = Global>>(
    rt: &R,
) -> io::Result<()> {
    let whole = Case::plain(12, MEGABYTE, 1);
    let told = fastest(rt, &whole, ROUNDS)?;
    print_run(rt, &whole, &told, true)?;
    let peer = peers::fastest(rt, 12, MEGABYTE, ROUNDS)?;
    print_beside(rt, told.took, "SHA-256 twice and five copies", peer)?;
    let half = fastest(rt, &Case::plain(12, MEGABYTE / 2, 1), ROUNDS)?;
    print_beside(rt, told.took, "half the bytes", half.took)?;
    let half = fastest(rt, &Case::plain(6, MEGABYTE, 1), ROUNDS)?;
    print_beside(rt, told.took, "half the units", half.took)
}

/// A short run of one worker, or long ones and their times.
pub fn run<R: Threads + Wait + Sync + Print + Clock + Alloc<A = Global>>(
    rt: &R,
    is_timed: bool,
) -> io::Result<()> {
    if is_timed {
        return run_timed(rt);
    }
    let case = Case::plain(12, 4096, 1);
    let told = fastest(rt, &case, 1)?;
    print_run(rt, &case, &told, false)
}

/// One run, and what of its memory is known.
pub fn once<R: Threads + Wait + Sync + Print + Clock + Alloc<A = Global>>(
    rt: &R,
) -> io::Result<()> {
    let told = fastest(rt, &Case::plain(12, MEGABYTE, 1), 1)?;
    let log = told.log;
    println!(rt; "plan and vehicle of 12582912 bytes each, log of {log}")
}

/// Prints ticks beside those of one worker, if it had any.
fn print_ticks<R: Print>(rt: &R, ticks: u64, alone: u64) -> io::Result<()> {
    if alone == 0 {
        return Ok(());
    }
    let hundredths = ticks.saturating_mul(100) / alone;
    let (whole, part) = (hundredths / 100, hundredths % 100);
    println!(rt; "  {ticks} ticks, one worker {alone}, ratio {whole}.{part:02}")
}

/// Prints a case with one worker and with several, and their ticks and times beside each other.
fn print_crew<R: Threads + Wait + Sync + Print + Clock + Alloc<A = Global>>(
    rt: &R,
    what: &str,
    case: &Case,
) -> io::Result<()> {
    println!(rt; "{what}")?;
    let alone = case.alone();
    let one = fastest(rt, &alone, ROUNDS)?;
    print_run(rt, &alone, &one, true)?;
    let many = fastest(rt, case, ROUNDS)?;
    print_run(rt, case, &many, true)?;
    print_ticks(rt, many.ticks, one.ticks)?;
    print_beside(rt, many.took, "one worker", one.took)
}

/// The microseconds that the longer of two cases takes beyond the shorter.
fn further<R: Threads + Wait + Sync + Clock + Alloc<A = Global>>(
    rt: &R,
    short: &Case,
    long: &Case,
) -> io::Result<u128> {
    let short = fastest(rt, short, ROUNDS)?;
    let long = fastest(rt, long, ROUNDS)?;
    Ok(long.took.saturating_sub(short.took))
}

/// Prints what four further megabytes of the first unit take where all others wait, with so many workers beside one: the
/// steps of the worker that transfers, and nothing of how the others begin and end.
fn print_steps<R: Threads + Wait + Sync + Print + Clock + Alloc<A = Global>>(
    rt: &R,
    workers: u16,
) -> io::Result<()>
    requires { (1 ≤ workers) × (workers ≤ 16) }
{
    let short = Case::waiting(MEGABYTE, workers);
    let long = Case::waiting(5 * MEGABYTE, workers);
    let many = further(rt, &short, &long)?;
    let one = further(rt, &short.alone(), &long.alone())?;
    println!(rt; "four further megabytes, {workers} workers of which one transfers")?;
    print_beside(rt, many, "one worker", one)
}

/// Runs of several workers beside those of one: units that answer late, units that answer at once, units of which all but
/// one wait, and units that stand at the same place.
pub fn crews<R: Threads + Wait + Sync + Print + Clock + Alloc<A = Global>>(
    rt: &R,
) -> io::Result<()> {
    print_crew(rt, "answers are late", &Case::late(4))?;
    print_crew(rt, "answers at once", &Case::plain(12, MEGABYTE, 4))?;
    print_crew(rt, "all but one wait", &Case::waiting(MEGABYTE, 4))?;
    print_steps(rt, 4)?;
    print_crew(rt, "all but one wait", &Case::waiting(MEGABYTE, 8))?;
    print_steps(rt, 8)?;
    print_crew(rt, "all stand together", &Case::plain(16, 1024, 16))
}
