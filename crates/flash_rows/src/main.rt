//! Whole commands over shops in memory: each row of `rows.txt` is run, and printed on one line.
//!
//! A row is `NAME | VEHICLE | TROUBLES | SETUP | STEPS`.
//!
//! - VEHICLE names a file that describes a vehicle; the text TROUBLES is put where it has the mark `$`.
//! - SETUP is `-`, or what is said before the first step, parted by commas: `disk N` and `link N` for a call that fails,
//!   `garbled N HEX` for a receive that brings these bytes, `image HEX` for what the journal's file holds.
//! - STEPS are parted by semicolons:
//!   - `memory` and `sum` print the bytes of each unit that are not FF, as they are or by number and SHA-256; `heard` how
//!     many requests each heard; `image` the journal's file; `calls` and `link calls` how often the shop was called;
//!     `starved` how many of these calls found no memory.
//!   - `sent` prints each frame that the vehicle was sent, `sent N` the one with this number from 0: of a diagnostic message
//!     the unit's address and the request, of another frame all bytes.
//!   - `crash BACK PICK` takes the shop up again as it was so many calls ago, behind a crash with the image `old`, `new`
//!     or `junk`.
//!   - `together ORDER` runs an order whose units are begun by one record.
//!   - `meet UNIT UNIT ORDER` runs an order by two workers at a gate at which these two units wait for one another, and
//!     prints whether they met.
//!   - `unheard COMMAND` is a command of whose output the first write fails, `plain COMMAND` one that is served by the
//!     call that knows no run.
//!   - Any other step is the words of a command.
//! - In their place may stand `each disk SAID: COMMAND`, `each link SAID: COMMAND` or `each stop -: COMMAND`. Each call of
//!   that kind fails in turn, or the run is stopped behind each call; the runs that end as SAID says are counted, and
//!   those behind them that end as a run without a failure does.
//!
//! `files.txt` names the files beside the rows.
//!
//! A command is printed as the number of its status and its lines, without that of the plan.
#![tactic(auto)]

mod command;
mod held;
mod meeting;
mod row;
mod sent;
mod setup;
mod steps;
mod text;
mod together;
mod turns;
mod vehicle;

use flash_base::{Bytes, Files, NoMemory, Text};
use flash_shelf::{FolderShelf, Shelf};
use std::alloc::Global;
use std::io;
use std::io::Print;
use std::sync::Wait;
use std::thread::Threads;

/// Reads a file; one that is missing is left out.
fn take<F: Shelf>(
    alloc: Global,
    shelf: &mut F,
    name: &str,
    files: &mut Files,
) -> Result<(), NoMemory> {
    match shelf.read(alloc, name) {
        Ok(body) => files.push((Text::from_str(alloc, name)?, body)),
        Err(_) => Ok(()),
    }
}

/// The files of a shelf with these names, a line each: orders, what is programmed, and vehicles.
fn files_of<F: Shelf>(alloc: Global, shelf: &mut F, names: &str) -> Result<Files, NoMemory> {
    let mut files = Files::new(alloc);
    for name in names.split('\n') {
        take(alloc, shelf, name, &mut files)?;
    }
    Ok(files)
}

/// The text of a file; empty where it is none.
fn text_of(file: &Bytes) -> &str {
    str::from_utf8(file.as_slice()).unwrap_or("")
}

/// Prints a row.
fn print<R: Threads + Wait + Sync + Print>(
    rt: &R,
    alloc: Global,
    files: &Files,
    line: &str,
) -> io::Result<()> {
    let mut out = Bytes::new(alloc);
    match row::put_row(rt, alloc, files, line, &mut out) {
        Ok(()) => {
            let text = str::from_utf8(out.as_slice()).unwrap_or("no text");
            println!(rt; "{text}")
        }
        Err(_) => println!(rt; "no memory"),
    }
}

/// Prints each row of the text that is neither empty nor a note.
fn print_all<R: Threads + Wait + Sync + Print>(
    rt: &R,
    alloc: Global,
    files: &Files,
    text: &str,
) -> io::Result<()> {
    for line in text.split('\n') {
        if !line.is_empty() && !line.starts_with('#') {
            print(rt, alloc, files, line)?;
        }
    }
    Ok(())
}

fn main(rt: HostRuntime) -> io::Result<()> {
    let alloc = rt.alloc();
    let Ok(mut shelf) = FolderShelf::new(rt, alloc, ".") else {
        return println!(rt; "no memory");
    };
    let Ok(names) = shelf.read(alloc, "files.txt") else {
        return println!(rt; "no files");
    };
    let Ok(files) = files_of(alloc, &mut shelf, text_of(&names)) else {
        return println!(rt; "no memory");
    };
    let Ok(rows) = shelf.read(alloc, "rows.txt") else {
        return println!(rt; "no rows");
    };
    print_all(&rt, alloc, &files, text_of(&rows))
}
