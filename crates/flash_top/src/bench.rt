//! The files of the vehicle, before a command and behind it.

use flash_drill::Status;
use flash_shelf::Sink;
use folder_shop::{BenchFault, BenchShop, SaveFault};
use std::fs::File;
use std::io::Eprint;
use std::process::ExitCode;
use std::rt::Files as FileSystem;

/// How the program ends where the files are no vehicle.
const NO_BENCH: u8 = 9;

/// How it ends where the vehicle could not be written back.
const NOT_WRITTEN: u8 = 10;

/// Ends with the number of a status.
pub fn ended(status: Status) -> ExitCode {
    ExitCode::from(status as u8)
}

/// Says what is wrong with the vehicle's file, on standard error by its place.
pub fn refused<R: Eprint, K: Sink>(rt: &R, out: &mut K, fault: &BenchFault) -> ExitCode {
    let _ = match fault {
        BenchFault::NoMemory => return ended(Status::NoMemory),
        BenchFault::Unread => eprintln!(rt; "bench.json: not read"),
        BenchFault::NotJson => eprintln!(rt; "bench.json: no JSON"),
        BenchFault::BadField { path } => eprintln!(rt; "bench.json: {}", path.as_str()),
        BenchFault::TooMany => eprintln!(rt; "bench.json: too many units or bytes"),
    };
    let _ = out.write(b"bench\n");
    ExitCode::from(NO_BENCH)
}

/// Says on standard error where another run has the files.
pub fn say_whose<R: Eprint>(rt: &R, is_theirs: bool, has_changed: bool) {
    if is_theirs {
        let _ = eprintln!(rt; "flash.journal: another run holds it");
    }
    if has_changed {
        let _ = eprintln!(rt; "bench.json: another run has written it");
    }
}

/// Whether a run was made: one that was refused before has called neither a unit nor the gateway.
fn has_run(status: &Status, has_moved: bool) -> bool {
    match status {
        Status::Done | Status::Units | Status::Sink => true,
        Status::Usage | Status::Input | Status::Shelf | Status::Journal => false,
        Status::Disk | Status::NoMemory => has_moved,
    }
}

/// Writes the vehicle back behind a run, and ends.
pub fn ended_run<R: FileSystem<File = File> + Drop, K: Sink>(
    shop: &mut BenchShop<R>,
    out: &mut K,
    status: Status,
) -> ExitCode {
    if !has_run(&status, shop.has_moved()) {
        return ended(status);
    }
    match shop.save_to_disk() {
        Ok(()) => ended(status),
        Err(SaveFault::NoMemory) => ended(Status::NoMemory),
        Err(SaveFault::Unwritten) => {
            let _ = out.write(b"bench not written\n");
            ExitCode::from(NOT_WRITTEN)
        }
    }
}
