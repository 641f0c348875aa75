//! Drives a vehicle over real files, leaves it without writing it back, and takes it up again; then the journal.
#![tactic(auto)]

ghost use Rattle.std.specs.Prelude.{◌≡◌, ◌≤◌, IsTrue, length};
ghost use Rattle.folder_shop.specs.Shops.{history_of};

use folder_shop::BenchShop;
use shop_model::{Got, Shop};
use std::alloc::Global;
use std::fs::File;
use std::process::ExitCode;
use std::rt::Files as FileSystem;

/// A routing activation by tester 0E80, and its answer (ISO 13400-2:2019, payload types 0x0005 and 0x0006).
const ACTIVATE: &[u8] = &[3, 0xfc, 0, 5, 0, 0, 0, 7, 0x0e, 0x80, 0, 0, 0, 0, 0];

const ACTIVATED: &[u8] = &[
    3, 0xfc, 0, 6, 0, 0, 0, 9, 0x0e, 0x80, 0x40, 0, 0x10, 0, 0, 0, 0,
];

/// The programming session of unit 1001 (ISO 14229-1, service 0x10), its acknowledgement and its answer.
const SESSION: &[u8] = &[3, 0xfc, 0x80, 1, 0, 0, 0, 6, 0x0e, 0x80, 0x10, 1, 0x10, 2];

const IN_SESSION: &[u8] = &[
    3, 0xfc, 0x80, 2, 0, 0, 0, 5, 0x10, 1, 0x0e, 0x80, 0, 3, 0xfc, 0x80, 1, 0, 0, 0, 0x0a, 0x10, 1,
    0x0e, 0x80, 0x50, 2, 0, 0x32, 1, 0xf4,
];

/// An erasing of three bytes at 1000 (service 0x31), which only the programming session allows.
const ERASE: &[u8] = &[
    3, 0xfc, 0x80, 1, 0, 0, 0, 0x11, 0x0e, 0x80, 0x10, 1, 0x31, 1, 0xff, 0, 0x44, 0, 0, 0x10, 0, 0,
    0, 0, 3,
];

const ERASED: &[u8] = &[
    3, 0xfc, 0x80, 2, 0, 0, 0, 5, 0x10, 1, 0x0e, 0x80, 0, 3, 0xfc, 0x80, 1, 0, 0, 0, 9, 0x10, 1,
    0x0e, 0x80, 0x71, 1, 0xff, 0, 0,
];

/// Whether just these bytes come when the others are sent.
fn answers<R: FileSystem<File = File> + Drop>(
    shop: &mut BenchShop<R>,
    sent: &[u8],
    want: &[u8],
) -> bool
    requires linked { IsTrue (history_of shop.old).linked }
    requires some { 1 ≤ length sent.now }
    requires few { length sent.now ≤ 65600 }
    ensures { (history_of shop.new).linked ≡ (history_of shop.old).linked }
{
    if shop.send(sent).is_err() {
        return false;
    }
    let mut out = [0u8; 64];
    match shop.receive(&mut out) {
        Ok(Got::Bytes(n)) => &out[..n] == want,
        Ok(Got::Quiet) => want.is_empty(),
        Err(_) => false,
    }
}

/// Whether a request is answered so on a connection that is made new.
fn is_answered<R: FileSystem<File = File> + Drop>(
    shop: &mut BenchShop<R>,
    request: &[u8],
    want: &[u8],
) -> bool
    requires some { 1 ≤ length request.now }
    requires few { length request.now ≤ 65600 }
{
    if shop.redial().is_err() {
        return false;
    }
    answers(shop, ACTIVATE, ACTIVATED) && answers(shop, request, want)
}

/// Brings the unit into the programming session, and leaves the files as they are.
fn leaves<R: FileSystem<File = File> + Drop>(rt: R, alloc: Global) -> bool {
    let Ok(mut shop) = BenchShop::at(rt, alloc, ".") else {
        return false;
    };
    shop.sync().is_ok() && is_answered(&mut shop, SESSION, IN_SESSION)
}

/// Finds the unit in that session, writes a journal, and the vehicle back.
fn goes_on<R: FileSystem<File = File> + Drop>(rt: R, alloc: Global) -> bool {
    let Ok(mut shop) = BenchShop::at(rt, alloc, ".") else {
        return false;
    };
    shop.write_at(0, b"abc").is_ok()
        && shop.sync().is_ok()
        && is_answered(&mut shop, ERASE, ERASED)
        && shop.save_to_disk().is_ok()
}

/// Finds the journal and the vehicle.
fn finds<R: FileSystem<File = File> + Drop>(rt: R, alloc: Global) -> bool {
    let Ok(mut shop) = BenchShop::at(rt, alloc, ".") else {
        return false;
    };
    let mut out = [0u8; 3];
    let read = matches!(shop.len(), Ok(3)) && shop.read_at(0, &mut out).is_ok() && out == *b"abc";
    read && is_answered(&mut shop, ERASE, ERASED)
}

fn main(rt: HostRuntime) -> ExitCode {
    let alloc = rt.alloc();
    if !leaves(rt, alloc) {
        return ExitCode::from(1);
    }
    if !goes_on(rt, alloc) {
        return ExitCode::from(2);
    }
    if !finds(rt, alloc) {
        return ExitCode::from(3);
    }
    let _ = println!(rt; "the vehicle and the journal are found again");
    ExitCode::SUCCESS
}
