//! Vehicle files: each row of `rows.txt`, `NAME | TEXT`, is read as a vehicle and printed on one line.
//!
//! Behind the name stands the refusal, or `saved` and the text that is written for the vehicle; `changes` stands in place of
//! `saved` where that text is read as a vehicle of which another text is written.
#![tactic(auto)]

use flash_base::{Bytes, NoMemory};
use flash_shelf::{FolderShelf, Shelf};
use std::alloc::Global;
use std::io;
use std::io::Print;
use vehicle_file::{BenchFault, VehicleSpec};

fn put(out: &mut Bytes, words: &str) -> Result<(), NoMemory> {
    out.extend(words.as_bytes())
}

fn put_fault(out: &mut Bytes, fault: &BenchFault) -> Result<(), NoMemory> {
    match fault {
        BenchFault::NotJson => put(out, "not json"),
        BenchFault::TooMany => put(out, "too many"),
        BenchFault::NoMemory => put(out, "no memory"),
        BenchFault::BadField { path } => {
            put(out, "bad field ")?;
            put(out, path.as_str())
        }
    }
}

/// The text that is written for what a text says; none where it is refused.
fn written_again(alloc: Global, text: &Bytes) -> Result<Option<Bytes>, NoMemory> {
    match vehicle_file::read(alloc, text.as_slice()) {
        Ok(vehicle) => Ok(Some(vehicle_text::write(alloc, &vehicle)?)),
        Err(_) => Ok(None),
    }
}

/// Whether a text is read as a vehicle for which it is written again.
fn stays(alloc: Global, text: &Bytes) -> Result<bool, NoMemory> {
    match written_again(alloc, text)? {
        Some(again) => Ok(again.as_slice() == text.as_slice()),
        None => Ok(false),
    }
}

fn put_vehicle(alloc: Global, out: &mut Bytes, vehicle: &VehicleSpec) -> Result<(), NoMemory> {
    let text = vehicle_text::write(alloc, vehicle)?;
    put(
        out,
        if stays(alloc, &text)? {
            "saved "
        } else {
            "changes "
        },
    )?;
    out.extend(text.as_slice())
}

fn put_row(alloc: Global, out: &mut Bytes, line: &str) -> Result<(), NoMemory> {
    let (name, text) = line.split_once(" | ").unwrap_or((line, ""));
    put(out, name)?;
    put(out, " | ")?;
    match vehicle_file::read(alloc, text.as_bytes()) {
        Ok(vehicle) => put_vehicle(alloc, out, &vehicle),
        Err(fault) => put_fault(out, &fault),
    }
}

fn print<R: Print>(rt: &R, alloc: Global, line: &str) -> io::Result<()> {
    let mut out = Bytes::new(alloc);
    match put_row(alloc, &mut out, line) {
        Ok(()) => {
            let text = str::from_utf8(out.as_slice()).unwrap_or("no text");
            println!(rt; "{text}")
        }
        Err(_) => println!(rt; "no memory"),
    }
}

/// Prints each row that is neither empty nor a note.
fn print_all<R: Print>(rt: &R, alloc: Global, text: &str) -> io::Result<()> {
    for line in text.split('\n') {
        if !line.is_empty() && !line.starts_with('#') {
            print(rt, alloc, line)?;
        }
    }
    Ok(())
}

fn main(rt: HostRuntime) -> io::Result<()> {
    let alloc = rt.alloc();
    let Ok(mut shelf) = FolderShelf::new(rt, alloc, ".") else {
        return println!(rt; "no memory");
    };
    match shelf.read(alloc, "rows.txt") {
        Ok(rows) => print_all(
            &rt,
            alloc,
            str::from_utf8(rows.as_slice()).unwrap_or("no text"),
        ),
        Err(_) => println!(rt; "no rows"),
    }
}
