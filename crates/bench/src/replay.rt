//! Replays the log of a long run of one unit, and prints what came of it. With times it also prints the time,
//! beside that of cutting the same received pieces into frames alone, and the ratio of the two.

use crate::print_beside;
use bay_core::{Event, Events, Heard, Tend};
use bay_replay::{ReplayFault, replay};
use doip_frame::Deframer;
use flash_base::{Bytes, Items, KeyRule, Names, NoMemory, Text, Width};
use flash_plan::{Draft, Entries, LinkRules, Plan, Segment, accept};
use std::alloc::Global;
use std::io;
use std::time::{Clock, Instant};

/// The plan of unit 1001 with so many bytes, and at least one, at 1000.
fn plan_of(alloc: Global, size: u32) -> Result<Plan, NoMemory> {
    let mut body = Bytes::from_slice(alloc, &[0])?;
    for i in 1..size {
        body.push((i % 251) as u8)?;
    }
    let mut segments = Items::new(alloc);
    segments.push(Segment { at: 0x1000, body })?;
    let mut drafts = Items::new(alloc);
    drafts.push(Draft {
        name: Text::from_str(alloc, "A")?,
        address: 0x1001,
        width: Width { size: 4, at: 4 },
        check: 0x0202,
        key: KeyRule::Free,
        idents: Items::new(alloc),
        after: Names::new(alloc),
        segments,
    })?;
    match accept(alloc, drafts) {
        Ok(plan) => Ok(plan),
        Err(_) => Err(NoMemory),
    }
}

/// A request of the unit, and its answer as one message to the tester 0E80.
fn exchange(alloc: Global, log: &mut Events, place: u32, answer: &[u8]) -> Result<(), NoMemory> {
    log.push(Event::Sent {
        unit: 0,
        place,
        lost: false,
    })?;
    let size = (answer.len() % 200 + 4) as u8;
    let mut bytes = Bytes::from_slice(
        alloc,
        &[3, 0xFC, 0x80, 1, 0, 0, 0, size, 0x10, 1, 0x0E, 0x80],
    )?;
    bytes.extend(answer)?;
    log.push(Event::Collected {
        unit: 0,
        got: Heard::Piece(bytes),
    })
}

/// Requests from this number on, with these answers.
fn exchanges(
    alloc: Global,
    log: &mut Events,
    place: u32,
    answers: &[&[u8]],
) -> Result<(), NoMemory> {
    let mut place = place;
    for answer in answers {
        exchange(alloc, log, place, answer)?;
        place = place.wrapping_add(1);
    }
    Ok(())
}

/// The events up to the answer of the download: blocks of one byte.
fn opening(alloc: Global, log: &mut Events) -> Result<(), NoMemory> {
    log.push(Event::Claimed { unit: 0 })?;
    log.push(Event::Tended {
        step: Tend::Dialed { lost: false },
    })?;
    log.push(Event::Tended {
        step: Tend::Asked { lost: false },
    })?;
    let accepted = b"\x03\xFC\x00\x06\x00\x00\x00\x09\x0E\x80\x40\x00\x10\x00\x00\x00\x00";
    let bytes = Bytes::from_slice(alloc, accepted)?;
    log.push(Event::Tended {
        step: Tend::Polled(Heard::Piece(bytes)),
    })?;
    log.push(Event::Began { unit: 0 })?;
    exchange(alloc, log, 0, b"\x50\x02\x00\x32\x01\xF4")?;
    exchange(alloc, log, 1, b"\x71\x01\xFF\x00\x00")?;
    exchange(alloc, log, 2, b"\x74\x10\x03")
}

/// The events from the first block on.
fn blocks_and_end(alloc: Global, log: &mut Events, blocks: u32) -> Result<(), NoMemory> {
    let mut place = 3u32;
    let mut counter = 1u8;
    for _ in 0..blocks {
        exchange(alloc, log, place, &[0x76, counter])?;
        place = place.wrapping_add(1);
        counter = counter.wrapping_add(1);
    }
    let checked = [b"\x77".as_slice(), b"\x71\x01\x02\x02\x00"];
    exchanges(alloc, log, place, &checked)?;
    log.push(Event::Marked {
        unit: 0,
        segment: 0,
    })?;
    let finished = [b"\x71\x01\xFF\x01\x00".as_slice(), b"\x51\x01"];
    exchanges(alloc, log, place.wrapping_add(2), &finished)?;
    log.push(Event::Completed { unit: 0 })
}

/// The log of a run with so many blocks: 21 events, and two for each block.
fn log_of(alloc: Global, blocks: u32) -> Result<Events, NoMemory> {
    let mut log = Items::new(alloc);
    opening(alloc, &mut log)?;
    blocks_and_end(alloc, &mut log, blocks)?;
    Ok(log)
}

/// How many frames come of the pieces of a log, cut by one deframer.
fn cut(alloc: Global, log: &Events) -> u64 {
    let mut deframer = Deframer::new(alloc);
    let mut count = 0u64;
    for event in log.as_slice() {
        if let Event::Collected {
            got: Heard::Piece(bytes),
            ..
        } = event
        {
            if let Ok(fed) = deframer.feed(bytes.as_slice()) {
                count = count.wrapping_add(fed.frames.len() as u64);
            }
        }
    }
    count
}

/// What a replay answers, in words.
fn answered(alloc: Global, plan: &Plan, log: &Events) -> &'static str {
    let rules = LinkRules {
        tester: 0x0E80,
        relinks: 0,
    };
    let found: Entries = Items::new(alloc);
    match replay(alloc, plan, &rules, &found, log) {
        Ok(core) => {
            if core.stop().is_none() {
                "replayed"
            } else {
                "stopped"
            }
        }
        Err(ReplayFault::FirstBad { .. }) => "refused",
        Err(ReplayFault::NoMemory) => "no memory",
    }
}

/// Replays a log, and prints what came of it.
fn measure_log<R: Print + Clock + Alloc<A = Global>>(
    rt: &R,
    plan: &Plan,
    log: &Events,
    is_timed: bool,
) -> io::Result<()> {
    let alloc = rt.alloc();
    let start = Instant::now(rt)?;
    let said = answered(alloc, plan, log);
    let replay_time = start.elapsed(rt)?.as_micros();
    let start = Instant::now(rt)?;
    let frames = cut(alloc, log);
    let cut_time = start.elapsed(rt)?.as_micros();
    let events = log.len();
    println!(rt; "{events} events, {frames} frames: {said}")?;
    if is_timed {
        print_beside(rt, replay_time, "frames alone", cut_time)?;
    }
    Ok(())
}

/// Replays a run of so many blocks.
fn measure<R: Print + Clock + Alloc<A = Global>>(
    rt: &R,
    blocks: u32,
    is_timed: bool,
) -> io::Result<()> {
    let alloc = rt.alloc();
    match (plan_of(alloc, blocks), log_of(alloc, blocks)) {
        (Ok(plan), Ok(log)) => measure_log(rt, &plan, &log, is_timed),
        _ => println!(rt; "no memory"),
    }
}

/// Replays runs of three lengths.
pub fn run<R: Print + Clock + Alloc<A = Global>>(rt: &R, is_timed: bool) -> io::Result<()> {
    measure(rt, 2490, is_timed)?;
    measure(rt, 24_990, is_timed)?;
    measure(rt, 49_990, is_timed)
}
