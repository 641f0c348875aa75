//! The steps of a row, one after another over one shop.

use crate::held::{put_calls, put_heard, put_image, put_link_calls, put_memory, put_written};
use crate::sent::{put_one_sent, put_sent};
use crate::text::{number, put, put_number};
use crate::{command, meeting, together};
use bench_shop::{MemoryShop, Pick};
use flash_base::{Bytes, Files, NoMemory};
use std::alloc::Global;
use std::sync::Wait;
use std::thread::Threads;

/// Which image a word names.
pub fn pick_of(word: &str) -> Pick {
    match word {
        "old" => Pick::Old,
        "new" => Pick::New,
        _ => Pick::Junk(0x5a),
    }
}

/// The shop behind a crash so many moments ago.
fn crash(
    alloc: Global,
    shop: &MemoryShop,
    rest: &str,
    out: &mut Bytes,
) -> Result<MemoryShop, NoMemory> {
    let (back, pick) = rest.split_once(' ').unwrap_or((rest, ""));
    let moment = shop.made().moments.saturating_sub(number(back));
    put(out, "crash")?;
    shop.crash(alloc, moment, pick_of(pick))
}

/// Puts what the shop holds, where the step asks for it.
fn put_held(
    alloc: Global,
    step: &str,
    shop: &mut MemoryShop,
    out: &mut Bytes,
) -> Result<bool, NoMemory> {
    match step {
        "memory" => put_memory(alloc, out, shop)?,
        "sum" => put_written(alloc, out, shop)?,
        "heard" => put_heard(alloc, out, shop)?,
        "image" => put_image(alloc, out, shop)?,
        "calls" => put_calls(out, shop)?,
        "link calls" => put_link_calls(out, shop)?,
        "sent" => put_sent(alloc, out, shop)?,
        "starved" => put_starved(out, shop)?,
        _ => return Ok(false),
    }
    Ok(true)
}

/// Puts how many calls failed because the shop found no memory.
fn put_starved(out: &mut Bytes, shop: &MemoryShop) -> Result<(), NoMemory> {
    put(out, "starved ")?;
    put_number(out, shop.starved())
}

/// One step with a word before it that looks at the shop alone; whether it was one.
fn put_looked<R: Threads + Sync>(
    rt: &R,
    alloc: Global,
    files: &Files,
    step: &str,
    shop: &mut MemoryShop,
    out: &mut Bytes,
) -> Result<bool, NoMemory> {
    if let Some(rest) = step.strip_prefix("sent ") {
        put_one_sent(alloc, out, shop, number(rest))?;
        return Ok(true);
    }
    if let Some(rest) = step.strip_prefix("plain ") {
        command::run_plain(rt, alloc, files, rest, shop, out)?;
        return Ok(true);
    }
    put_held(alloc, step, shop, out)
}

/// A command, or one whose first write fails.
fn commanded<R: Threads + Wait + Sync>(
    rt: &R,
    alloc: Global,
    files: &Files,
    step: &str,
    shop: MemoryShop,
    out: &mut Bytes,
) -> Result<MemoryShop, NoMemory> {
    match step.strip_prefix("unheard ") {
        Some(rest) => command::run(rt, alloc, files, rest, &[0], shop, out),
        None => command::run(rt, alloc, files, step, &[], shop, out),
    }
}

/// A run through the calls of a bay; any other step is a command.
fn called<R: Threads + Wait + Sync>(
    rt: &R,
    alloc: Global,
    files: &Files,
    step: &str,
    shop: MemoryShop,
    out: &mut Bytes,
) -> Result<MemoryShop, NoMemory> {
    if let Some(order) = step.strip_prefix("together ") {
        return together::run(rt, alloc, files, order, shop, out);
    }
    match step.strip_prefix("meet ") {
        Some(rest) => meeting::run(rt, alloc, files, rest, shop, out),
        None => commanded(rt, alloc, files, step, shop, out),
    }
}

/// One step, which hands on the shop.
fn one<R: Threads + Wait + Sync>(
    rt: &R,
    alloc: Global,
    files: &Files,
    step: &str,
    shop: MemoryShop,
    out: &mut Bytes,
) -> Result<MemoryShop, NoMemory> {
    let mut shop = shop;
    if let Some(rest) = step.strip_prefix("crash ") {
        return crash(alloc, &shop, rest, out);
    }
    if put_looked(rt, alloc, files, step, &mut shop, out)? {
        return Ok(shop);
    }
    called(rt, alloc, files, step, shop, out)
}

/// All steps, each followed by a semicolon.
pub fn all<R: Threads + Wait + Sync>(
    rt: &R,
    alloc: Global,
    files: &Files,
    steps: &str,
    shop: MemoryShop,
    out: &mut Bytes,
) -> Result<(), NoMemory> {
    let mut shop = shop;
    for step in steps.split("; ") {
        put(out, " ")?;
        shop = one(rt, alloc, files, step, shop, out)?;
        put(out, ";")?;
    }
    Ok(())
}
