//! A command over a shop, and what it says.

use crate::text::{put, put_number};
use bench_shop::MemoryShop;
use flash_base::{Bytes, Files, NoMemory};
use flash_commands::{Status, flash, flash_plain};
use flash_shelf::{MemoryShelf, MemorySink};
use std::alloc::Global;
use std::sync::Wait;
use std::thread::Threads;

/// The words of a command, parted by blanks.
fn words_of(alloc: Global, command: &str) -> Result<Vec<String>, NoMemory> {
    let mut words = Vec::new(alloc);
    for word in command.split(' ') {
        words.push(String::from_str(alloc, word)?)?;
    }
    Ok(words)
}

/// Puts the lines, parted by commas, without that of the plan.
fn put_lines(out: &mut Bytes, lines: &str) -> Result<(), NoMemory> {
    for line in lines.split('\n') {
        if !line.is_empty() && !line.starts_with("plan ") {
            put(out, ", ")?;
            put(out, line)?;
        }
    }
    Ok(())
}

/// Puts how a command ended and what it printed.
fn put_said(out: &mut Bytes, status: Status, printed: &[u8]) -> Result<(), NoMemory> {
    put(out, "status ")?;
    put_number(out, status as u64)?;
    put_lines(out, str::from_utf8(printed).unwrap_or("no text"))
}

/// The same with the words and files at hand; the listed writes of the sink fail.
fn run_words<R: Threads + Wait + Sync>(
    rt: &R,
    alloc: Global,
    words: &[String],
    shelf: &mut MemoryShelf,
    failing: &[u64],
    shop: MemoryShop,
    out: &mut Bytes,
) -> Result<MemoryShop, NoMemory> {
    let mut sink = MemorySink::new(alloc, failing)?;
    let (shop, status) = flash(rt, alloc, words, shelf, shop, &mut sink);
    put_said(out, status, sink.written())?;
    Ok(shop)
}

/// Runs a command over the shop and these files, puts what it says, and hands the shop back. The listed writes of what it
/// says fail.
pub fn run<R: Threads + Wait + Sync>(
    rt: &R,
    alloc: Global,
    files: &Files,
    command: &str,
    failing: &[u64],
    shop: MemoryShop,
    out: &mut Bytes,
) -> Result<MemoryShop, NoMemory> {
    let words = words_of(alloc, command)?;
    let mut shelf = MemoryShelf::new(alloc, files, &[])?;
    run_words(rt, alloc, words.as_slice(), &mut shelf, failing, shop, out)
}

/// The same by the call that knows no run.
fn run_plain_words<R: Threads + Sync>(
    rt: &R,
    alloc: Global,
    words: &[String],
    shelf: &mut MemoryShelf,
    shop: &mut MemoryShop,
    out: &mut Bytes,
) -> Result<(), NoMemory> {
    let mut sink = MemorySink::new(alloc, &[])?;
    let status = flash_plain(rt, alloc, words, shelf, shop, &mut sink);
    put_said(out, status, sink.written())
}

/// Runs a command by the call that knows no run, and puts what it says.
pub fn run_plain<R: Threads + Sync>(
    rt: &R,
    alloc: Global,
    files: &Files,
    command: &str,
    shop: &mut MemoryShop,
    out: &mut Bytes,
) -> Result<(), NoMemory> {
    let words = words_of(alloc, command)?;
    let mut shelf = MemoryShelf::new(alloc, files, &[])?;
    run_plain_words(rt, alloc, words.as_slice(), &mut shelf, shop, out)
}
