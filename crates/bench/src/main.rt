//! Measures beside other programs.
//!
//! `bench` runs each part in a short form and prints what came of it, which is the same in every run. `bench PART WORD ..`
//! runs one part:
//!
//! - `turn`, `deframe` and `replay` print their counts, and with the word `time` the times beside those of a peer;
//! - `catalogue` and `records` have the words `time` and `make`, and read files (see there).
#![tactic(auto)]

mod catalogue;
mod deframe;
mod records;
mod replay;
mod turn;

use std::{env, io};

/// Prints the microseconds of something, those of its peer, and the ratio of the two.
fn print_beside<R: Print>(rt: &R, took: u128, peer: &str, peer_took: u128) -> io::Result<()> {
    let hundredths = took.saturating_mul(100) / peer_took.max(1);
    let (whole, part) = (hundredths / 100, hundredths % 100);
    println!(rt; "  {took} us, {peer} {peer_took} us, ratio {whole}.{part:02}")
}

/// Each part without threads in its short form.
fn all(rt: &HostRuntime) -> io::Result<()> {
    deframe::run(rt, false)?;
    replay::run(rt, false)?;
    catalogue::read_small(rt)?;
    records::read_small(rt)
}

/// One part without threads, with what follows it.
fn part(rt: &HostRuntime, name: &str, word: &str, path: &str) -> io::Result<()> {
    match name {
        "deframe" => deframe::run(rt, word == "time"),
        "replay" => replay::run(rt, word == "time"),
        "catalogue" => catalogue::run(rt, word, path),
        "records" => records::run(rt, word, path),
        _ => println!(rt; "no part {name}"),
    }
}

fn main(rt: HostRuntime) -> io::Result<()> {
    let mut words = env::args(&rt)?.skip(1);
    let Some(name) = words.next() else {
        all(&rt)?;
        return turn::run(&rt, false);
    };
    let word = words.next();
    let path = words.next();
    let word = word.as_ref().map_or("", |text| text.as_str());
    let path = path.as_ref().map_or("", |text| text.as_str());
    if name.as_str() == "turn" {
        return turn::run(&rt, word == "time");
    }
    part(&rt, name.as_str(), word, path)
}
