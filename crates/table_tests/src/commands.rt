//! What a command prints, after its status as a word. The inputs of a command are its words with a bar before each, the
//! numbers of the reads and of the writes that fail, and the files. Those of `status one.json` are the numbers
//! of the disk's calls that fail, the journal file in hexadecimal digits, and the files.
use crate::files::{numbers, shelf_of};
use crate::words::words_of;
use flash_base::NoMemory;
use flash_shelf::{MemoryShelf, MemorySink};
use mem_disk::MemDisk;
use plan_commands::{Status, serve, serve_status};
use std::alloc::Global;
use std::thread::Threads;
use test_rows::{bytes_of_digits, first, put_bytes};

fn status_word(status: Status) -> &'static str {
    match status {
        Status::Done => "done ",
        Status::Usage => "usage ",
        Status::Input => "input ",
        Status::Units => "units ",
        Status::Shelf => "shelf ",
        Status::Journal => "journal ",
        Status::Disk => "disk ",
        Status::Sink => "sink ",
        Status::NoMemory => "no memory ",
    }
}

fn sink_of(alloc: Global, failing: &str) -> Result<MemorySink, NoMemory> {
    let failing = numbers(alloc, failing)?;
    MemorySink::new(alloc, failing.as_slice())
}

fn put_answer(out: &mut String, status: Status, printed: &[u8]) -> Result<(), NoMemory> {
    out.push_str(status_word(status))?;
    put_bytes(out, printed)
}

/// What a command prints over a shelf.
fn put_served<R: Threads + Sync>(
    rt: &R,
    alloc: Global,
    words: &[String],
    shelf: &mut MemoryShelf,
    writes: &str,
    out: &mut String,
) -> Result<(), NoMemory> {
    let mut sink = sink_of(alloc, writes)?;
    let status = serve(rt, alloc, words, shelf, &mut sink);
    put_answer(out, status, sink.written())
}

pub fn answer<R: Threads + Sync>(
    rt: &R,
    alloc: Global,
    inputs: &str,
    out: &mut String,
) -> Result<(), NoMemory> {
    let (words, rest) = first(inputs);
    let (reads, rest) = first(rest);
    let (writes, parts) = first(rest);
    let words = words_of(alloc, words)?;
    let mut shelf = shelf_of(alloc, parts, reads)?;
    put_served(rt, alloc, words.as_slice(), &mut shelf, writes, out)
}

fn disk_of(alloc: Global, digits: &str, failing: &str) -> Result<MemDisk, NoMemory> {
    let image = bytes_of_digits(alloc, digits)?;
    let failing = numbers(alloc, failing)?;
    MemDisk::new(alloc, image.as_slice(), failing.as_slice())
}

/// What `status one.json` prints over a disk and a shelf.
fn put_status<R: Threads + Sync>(
    rt: &R,
    alloc: Global,
    shelf: &mut MemoryShelf,
    disk: &mut MemDisk,
    out: &mut String,
) -> Result<(), NoMemory> {
    let mut sink = sink_of(alloc, "-")?;
    let status = serve_status(rt, alloc, "one.json", shelf, disk, &mut sink);
    put_answer(out, status, sink.written())
}

pub fn answer_status<R: Threads + Sync>(
    rt: &R,
    alloc: Global,
    inputs: &str,
    out: &mut String,
) -> Result<(), NoMemory> {
    let (failing, rest) = first(inputs);
    let (journal, parts) = first(rest);
    let mut disk = disk_of(alloc, journal, failing)?;
    let mut shelf = shelf_of(alloc, parts, "-")?;
    put_status(rt, alloc, &mut shelf, &mut disk, out)
}
