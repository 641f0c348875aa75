//! What is said of a shop before its first call.

ghost use Rattle.bench_shop.specs.Faults.{IsFaults};

use crate::text::{bytes, number};
use bench_shop::{Faults, MemoryShop};
use flash_base::{Bytes, NoMemory};
use std::alloc::Global;
use world_file::read as read_world;

/// What the journal's file holds, and the calls that fail.
#[derive(Drop)]
pub struct Setup {
    pub image: Bytes,
    pub faults: Faults,
    ghost form: { IsFaults faults },
}

impl Setup {
    /// An empty file, and no call that fails.
    pub fn new(alloc: Global) -> Setup {
        Setup {
            image: Bytes::new(alloc),
            faults: Faults::none(alloc),
        }
    }
}

/// The most bytes of a piece.
const MOST_BYTES: usize = 4096;

/// A receive and the bytes that it brings, 1 to 4,096 of them.
fn garble(alloc: Global, setup: &mut Setup, part: &str) -> Result<(), NoMemory> {
    let (receive, digits) = part.split_once(' ').unwrap_or((part, ""));
    let piece = bytes(alloc, digits)?;
    if piece.len() == 0 || piece.len() > MOST_BYTES {
        return Ok(());
    }
    setup
        .faults
        .garble(alloc, number(receive), piece.as_slice())
}

/// The disk call with this number fails.
pub fn fail_disk(setup: &mut Setup, number: u64) -> Result<(), NoMemory> {
    setup.faults.disk.push(number)
}

/// The link call with this number fails.
pub fn fail_link(setup: &mut Setup, number: u64) -> Result<(), NoMemory> {
    setup.faults.link.push(number)
}

/// More bytes of the file.
fn put_image(alloc: Global, setup: &mut Setup, digits: &str) -> Result<(), NoMemory> {
    let more = bytes(alloc, digits)?;
    setup.image.extend(more.as_slice())
}

/// One part of a setup.
fn take(alloc: Global, setup: &mut Setup, part: &str) -> Result<(), NoMemory> {
    let (word, rest) = part.split_once(' ').unwrap_or((part, ""));
    match word {
        "disk" => fail_disk(setup, number(rest)),
        "link" => fail_link(setup, number(rest)),
        "garbled" => garble(alloc, setup, rest),
        "image" => put_image(alloc, setup, rest),
        _ => Ok(()),
    }
}

/// What the parts say, parted by commas.
pub fn read(alloc: Global, parts: &str) -> Result<Setup, NoMemory> {
    let mut setup = Setup::new(alloc);
    for part in parts.split(", ") {
        take(alloc, &mut setup, part)?;
    }
    Ok(setup)
}

/// A shop before any call, with the vehicle that the text says; None where it says none.
pub fn shop_of(
    alloc: Global,
    vehicle: &[u8],
    setup: &Setup,
) -> Result<Option<MemoryShop>, NoMemory> {
    let Ok(world) = read_world(alloc, vehicle) else {
        return Ok(None);
    };
    let shop = MemoryShop::new(alloc, setup.image.as_slice(), world, &setup.faults)?;
    Ok(Some(shop))
}
