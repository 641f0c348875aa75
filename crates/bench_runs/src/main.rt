//! Measures of runs and of the simulated vehicle, beside other work on the same bytes.
//!
//! `bench_runs` runs each part without threads in a short form, and prints what came of it, which is the same in every
//! run. `bench_runs PART time` prints one part's times as well:
//!
//! - `vehicle`: a simulated vehicle and its file;
//! - `run`: runs of one worker; `run peak` makes one run and prints the most memory that the process had;
//! - `workers`: runs of several workers beside one, whose counts differ from run to run.
#![tactic(auto)]

mod copying;
mod plans;
mod vehicle;
mod vehicles;
mod work;

use std::alloc::Global;
use std::sync::Wait;
use std::thread::Threads;
use std::time::Clock;
use std::{env, fs, io};

/// Prints the microseconds of something, those of its peer, and the ratio of the two.
fn print_beside<R: Print>(rt: &R, took: u128, peer: &str, peer_took: u128) -> io::Result<()> {
    let hundredths = took.saturating_mul(100) / peer_took.max(1);
    let (whole, part) = (hundredths / 100, hundredths % 100);
    println!(rt; "  {took} us, {peer} {peer_took} us, ratio {whole}.{part:02}")
}

/// Each part in its short form.
fn all<R: Threads + Wait + Sync + Print + Clock + Alloc<A = Global>>(rt: &R) -> io::Result<()> {
    vehicle::run(rt, false)?;
    work::run(rt, false)
}

/// One part.
fn part<R: Threads + Wait + Sync + Print + Clock + Alloc<A = Global>>(
    rt: &R,
    name: &str,
    word: &str,
) -> io::Result<()> {
    let is_timed = word == "time";
    match name {
        "vehicle" => vehicle::run(rt, is_timed),
        "run" if word == "peak" => work::once(rt),
        "run" => work::run(rt, is_timed),
        "workers" => work::crews(rt),
        _ => println!(rt; "no part {name}"),
    }
}

/// Prints what Linux says of the most memory that this process had.
fn print_peak(rt: &HostRuntime) -> io::Result<()> {
    let text = fs::read_to_string(rt, "/proc/self/status")?;
    for line in text.as_str().lines() {
        if line.starts_with("VmHWM") {
            println!(rt; "{line}")?;
        }
    }
    Ok(())
}

fn main(rt: HostRuntime) -> io::Result<()> {
    let mut words = env::args(&rt)?.skip(1);
    let Some(name) = words.next() else {
        return all(&rt);
    };
    let word = words.next();
    let word = word.as_ref().map_or("", |text| text.as_str());
    part(&rt, name.as_str(), word)?;
    if word == "peak" {
        return print_peak(&rt);
    }
    Ok(())
}
