//! The program: it programs the control units that an order names, over the journal and the
//! simulated vehicle of the present folder.
#![tactic(auto)]

mod bench;

use bench::{ended, ended_run, refused, say_whose};
use flash_drill::{Status, flash_watched};
use flash_shelf::{FolderShelf, StreamSink};
use folder_shop::BenchShop;
use run_progress::Progress;
use std::env;
use std::env::Env;
use std::io::IsTerminal;
use std::process::ExitCode;

/// The words after the program's name; None where there is no memory for them or one is no text.
fn words_of<R: Env + AllocGlobal>(rt: &R) -> Option<Vec<String>> {
    let mut words = Vec::new(rt.alloc());
    for word in env::args(rt).ok()?.skip(1) {
        words.push(word).ok()?;
    }
    Some(words)
}

/// Whether the words are a run's.
fn is_run(words: &[String]) -> bool {
    match words.first() {
        Some(word) => word.as_str() == "run",
        None => false,
    }
}

/// Runs the words over the files of the present folder, its journal and its vehicle, writes the
/// vehicle back behind a run, and ends with the number of the status; with 9 where there is no
/// vehicle, with 10 where it was not written back.
fn main(rt: HostRuntime) -> ExitCode {
    let alloc = rt.alloc();
    let Some(words) = words_of(&rt) else {
        return ended(Status::NoMemory);
    };
    let Ok(mut shelf) = FolderShelf::new(rt, alloc, ".") else {
        return ended(Status::NoMemory);
    };
    let mut out = StreamSink::new(rt.stdout());
    let shop = match BenchShop::at(rt, alloc, ".") {
        Ok(shop) => shop,
        Err(fault) => return refused(&rt, &mut out, &fault),
    };
    let progress = Progress::new(&rt, alloc, rt.stderr().is_terminal());
    let (mut shop, status) = flash_watched(
        &rt,
        alloc,
        words.as_slice(),
        &mut shelf,
        shop,
        &mut out,
        &progress,
    );
    say_whose(&rt, shop.is_theirs(), shop.has_changed());
    if is_run(words.as_slice()) {
        return ended_run(&mut shop, &mut out, status);
    }
    ended(status)
}
