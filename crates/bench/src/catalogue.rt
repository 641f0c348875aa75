//! Times the reading and resolving of generated catalogues.
//!
//! `time` prints the microseconds of catalogues with long inside texts and of catalogues with many small elements, each in
//! two sizes. `make` writes the larger ones to `long.json` and `small.json`. `parse` and the path of a JSON text prints the
//! microseconds of `serde_json` alone. Any other word is the path of a catalogue, and its microseconds are printed.

use ecu_mem::resolve;
use flash_base::{Bytes, NoMemory};
use serde_json::Value;
use std::alloc::Global;
use std::time::{Clock, Instant};
use std::{fs, io};

const DIGITS: &[u8; 16] = b"0123456789ABCDEF";

/// Two digits.
fn push_byte(text: &mut Bytes, b: u8) -> Result<(), NoMemory> {
    text.push(DIGITS[usize::from(b / 16)])?;
    text.push(DIGITS[usize::from(b % 16)])
}

/// Six digits.
fn push_number(text: &mut Bytes, n: u32) -> Result<(), NoMemory> {
    push_byte(text, (n / 65_536 % 256) as u8)?;
    push_byte(text, (n / 256 % 256) as u8)?;
    push_byte(text, (n % 256) as u8)
}

fn push_text(text: &mut Bytes, part: &str) -> Result<(), NoMemory> {
    text.extend(part.as_bytes())
}

/// An element that begins with a kid whose text is `name`, under an ID of a letter and a number.
fn push_named(text: &mut Bytes, tag: &str, letter: &str, n: u32) -> Result<(), NoMemory> {
    push_with_id(text, tag, letter, n)?;
    push_text(text, "{\"tag\":\"SHORT-NAME\",\"text\":\"name\"}")
}

/// An element with an ID of a letter and a number, up to its kids.
fn push_with_id(text: &mut Bytes, tag: &str, letter: &str, n: u32) -> Result<(), NoMemory> {
    push_text(text, "{\"tag\":\"")?;
    push_text(text, tag)?;
    push_text(text, "\",\"attrs\":{\"ID\":\"")?;
    push_text(text, letter)?;
    push_number(text, n)?;
    push_text(text, "\"},\"kids\":[")
}

/// An element without kids that refers to a letter and a number.
fn push_ref(text: &mut Bytes, tag: &str, letter: &str, n: u32) -> Result<(), NoMemory> {
    push_text(text, "{\"tag\":\"")?;
    push_text(text, tag)?;
    push_text(text, "\",\"attrs\":{\"ID-REF\":\"")?;
    push_text(text, letter)?;
    push_number(text, n)?;
    push_text(text, "\"}}")
}

/// A comma before all but the first.
fn push_comma(text: &mut Bytes, n: u32) -> Result<(), NoMemory> {
    if n == 0 {
        return Ok(());
    }
    push_text(text, ",")
}

/// A session of four elements, which refers to the datablock with its number.
fn push_session(text: &mut Bytes, n: u32) -> Result<(), NoMemory> {
    push_comma(text, n)?;
    push_named(text, "SESSION", "S", n)?;
    push_text(text, ",{\"tag\":\"DATABLOCK-REFS\",\"kids\":[")?;
    push_ref(text, "DATABLOCK-REF", "D", n)?;
    push_text(text, "]}]}")
}

/// A datablock of three elements, which refers to the flash data with its number.
fn push_block(text: &mut Bytes, n: u32) -> Result<(), NoMemory> {
    push_comma(text, n)?;
    push_named(text, "DATABLOCK", "D", n)?;
    push_text(text, ",")?;
    push_ref(text, "FLASHDATA-REF", "F", n)?;
    push_text(text, "]}")
}

/// Flash data of three elements, with so many pairs of digits inside.
fn push_flash(text: &mut Bytes, n: u32, pairs: u32) -> Result<(), NoMemory> {
    push_comma(text, n)?;
    push_with_id(text, "FLASHDATA", "F", n)?;
    push_text(
        text,
        "{\"tag\":\"DATAFORMAT\",\"attrs\":{\"SELECTION\":\"BINARY\"}},{\"tag\":\"DATA\",\"text\":\"",
    )?;
    for i in 0..pairs {
        push_byte(text, (i % 251) as u8)?;
    }
    push_text(text, "\"}]}")
}

/// A catalogue with so many sessions, datablocks and flash data, each of these with so many pairs
/// of digits inside.
fn push_catalogue(
    text: &mut Bytes,
    sessions: u32,
    flashes: u32,
    pairs: u32,
) -> Result<(), NoMemory> {
    push_text(
        text,
        "{\"tag\":\"ECU-MEM\",\"kids\":[{\"tag\":\"MEM\",\"kids\":[{\"tag\":\"SESSIONS\",\"kids\":[",
    )?;
    for n in 0..sessions {
        push_session(text, n)?;
    }
    push_text(text, "]},{\"tag\":\"DATABLOCKS\",\"kids\":[")?;
    for n in 0..sessions {
        push_block(text, n)?;
    }
    push_text(text, "]},{\"tag\":\"FLASHDATAS\",\"kids\":[")?;
    for n in 0..flashes {
        push_flash(text, n, pairs)?;
    }
    push_text(text, "]}]}]}")
}

fn catalogue(alloc: Global, sessions: u32, flashes: u32, pairs: u32) -> Result<Bytes, NoMemory> {
    let mut text = Bytes::new(alloc);
    push_catalogue(&mut text, sessions, flashes, pairs)?;
    Ok(text)
}

/// With long texts inside: flash data of 1,048,000 digits each.
fn long_catalogue(alloc: Global, flashes: u32) -> Result<Bytes, NoMemory> {
    catalogue(alloc, 1, flashes, 524_000)
}

/// With ten small elements for each of these.
fn small_catalogue(alloc: Global, sessions: u32) -> Result<Bytes, NoMemory> {
    catalogue(alloc, sessions, sessions, 4)
}

/// How many sessions, datablocks and flash data a catalogue has, or 0 where it was refused.
fn count_read(alloc: Global, text: &[u8]) -> usize {
    match odx_tree::read(alloc, text) {
        Ok(root) => match resolve(alloc, &root) {
            Ok(mem) => mem
                .sessions
                .len()
                .saturating_add(mem.blocks.len())
                .saturating_add(mem.flashes.len()),
            Err(_) => 0,
        },
        Err(_) => 0,
    }
}

/// 1 where a text is JSON.
fn count_parsed(alloc: Global, text: &[u8]) -> usize {
    match Value::from_slice(alloc, text) {
        Ok(_) => 1,
        Err(_) => 0,
    }
}

/// Reads a text, and answers the microseconds, or 0 where it was refused.
fn timed(clock: &impl Clock, alloc: Global, text: &[u8], parse: bool) -> io::Result<u64> {
    let start = Instant::now(clock)?;
    let count = if parse {
        count_parsed(alloc, text)
    } else {
        count_read(alloc, text)
    };
    let took = start.elapsed(clock)?.as_micros();
    if count == 0 || took > 1_000_000_000 {
        return Ok(0);
    }
    Ok(took as u64)
}

fn timed_made(clock: &impl Clock, alloc: Global, made: Result<Bytes, NoMemory>) -> io::Result<u64> {
    match made {
        Ok(text) => timed(clock, alloc, text.as_slice(), false),
        Err(_) => Ok(0),
    }
}

/// Prints the times of generated catalogues.
fn print_times(rt: &HostRuntime) -> io::Result<()> {
    let alloc = rt.alloc();
    let half = timed_made(rt, alloc, long_catalogue(alloc, 32))?;
    let whole = timed_made(rt, alloc, long_catalogue(alloc, 64))?;
    println!(rt; "long texts: 32 MiB {half} us, 64 MiB {whole} us")?;
    let half = timed_made(rt, alloc, small_catalogue(alloc, 10_000))?;
    let whole = timed_made(rt, alloc, small_catalogue(alloc, 20_000))?;
    println!(rt; "small elements: 100,000 {half} us, 200,000 {whole} us")
}

/// Writes the larger catalogues.
fn make(rt: &HostRuntime) -> io::Result<()> {
    let alloc = rt.alloc();
    if let Ok(text) = long_catalogue(alloc, 64) {
        fs::write(rt, "long.json", text.as_slice())?;
    }
    if let Ok(text) = small_catalogue(alloc, 20_000) {
        fs::write(rt, "small.json", text.as_slice())?;
    }
    Ok(())
}

/// Prints the time of a file.
fn time_file(rt: &HostRuntime, path: &str, parse: bool) -> io::Result<()> {
    let bytes = fs::read(rt, path)?;
    let took = timed(rt, rt.alloc(), bytes.as_slice(), parse)?;
    println!(rt; "{took} us")
}

/// Reads small catalogues, and prints what was read.
pub fn read_small(rt: &HostRuntime) -> io::Result<()> {
    let alloc = rt.alloc();
    for (sessions, flashes, pairs) in [(1, 2, 600), (30, 30, 4)] {
        match catalogue(alloc, sessions, flashes, pairs) {
            Ok(text) => {
                let count = count_read(alloc, text.as_slice());
                println!(rt; "{count} read")?;
            }
            Err(_) => println!(rt; "no memory")?,
        }
    }
    Ok(())
}

/// One command, and the path that it may have.
pub fn run(rt: &HostRuntime, word: &str, path: &str) -> io::Result<()> {
    match word {
        "time" => print_times(rt),
        "make" => make(rt),
        "parse" => time_file(rt, path, true),
        _ => time_file(rt, word, false),
    }
}
