//! What a shop holds: the memories of its units, how many requests they heard, and the journal's file.

use crate::text::{put, put_hex, put_number};
use bench_shop::MemoryShop;
use flash_base::{Bytes, NoMemory};
use sha2::{Digest, Sha256};
use shop_model::Shop;
use std::alloc::Global;
use unit_model::{PatchSpec, UnitSpec};

/// The byte of a memory that was erased, or never written.
const BLANK: u8 = 0xff;

/// Puts the bytes from an address on that are not blank: each run behind its address of ten digits.
fn put_runs(alloc: Global, out: &mut Bytes, at: u64, bytes: &[u8]) -> Result<(), NoMemory> {
    let mut inside = false;
    for i in 0..bytes.len() {
        let blank = bytes[i] == BLANK;
        if !blank && !inside {
            put(out, " ")?;
            put_hex(alloc, out, &at.saturating_add(i as u64).to_be_bytes()[3..])?;
            put(out, " ")?;
        }
        if !blank {
            put_hex(alloc, out, &[bytes[i]])?;
        }
        inside = !blank;
    }
    Ok(())
}

/// Puts the bytes of a unit that are not blank.
fn put_patches(alloc: Global, out: &mut Bytes, patches: &[PatchSpec]) -> Result<(), NoMemory> {
    for patch in patches {
        put_runs(alloc, out, patch.at, patch.bytes.as_slice())?;
    }
    Ok(())
}

/// Takes the bytes that are not blank, in the order of their addresses.
fn take_written(written: &mut Bytes, bytes: &[u8]) -> Result<(), NoMemory> {
    for byte in bytes {
        if *byte != BLANK {
            written.push(*byte)?;
        }
    }
    Ok(())
}

/// Puts the number and the SHA-256 of the bytes of a unit that are not blank.
fn put_sum(alloc: Global, out: &mut Bytes, patches: &[PatchSpec]) -> Result<(), NoMemory> {
    let mut written = Bytes::new(alloc);
    for patch in patches {
        take_written(&mut written, patch.bytes.as_slice())?;
    }
    let mut hasher = Sha256::new();
    hasher.update(written.as_slice());
    put_number(out, written.len() as u64)?;
    put(out, " ")?;
    put_hex(alloc, out, &hasher.finalize()[..])
}

/// Puts the address of a unit.
fn put_address(alloc: Global, out: &mut Bytes, unit: &UnitSpec) -> Result<(), NoMemory> {
    put_hex(alloc, out, &unit.address.to_be_bytes())
}

/// Puts the memories of units.
fn put_memories(alloc: Global, out: &mut Bytes, units: &[UnitSpec]) -> Result<(), NoMemory> {
    put(out, "memory")?;
    for unit in units {
        put(out, " ")?;
        put_address(alloc, out, unit)?;
        put_patches(alloc, out, unit.bytes.as_slice())?;
    }
    Ok(())
}

/// Puts the sums of memories.
fn put_sums(alloc: Global, out: &mut Bytes, units: &[UnitSpec]) -> Result<(), NoMemory> {
    put(out, "sum")?;
    for unit in units {
        put(out, " ")?;
        put_address(alloc, out, unit)?;
        put(out, " ")?;
        put_sum(alloc, out, unit.bytes.as_slice())?;
    }
    Ok(())
}

/// Puts how many requests units heard.
fn put_counts(alloc: Global, out: &mut Bytes, units: &[UnitSpec]) -> Result<(), NoMemory> {
    put(out, "heard")?;
    for unit in units {
        put(out, " ")?;
        put_address(alloc, out, unit)?;
        put(out, " ")?;
        put_number(out, unit.heard)?;
    }
    Ok(())
}

/// Puts the memory of each unit.
pub fn put_memory(alloc: Global, out: &mut Bytes, shop: &MemoryShop) -> Result<(), NoMemory> {
    let vehicle = shop.world().spec(alloc)?;
    put_memories(alloc, out, vehicle.units.as_slice())
}

/// Puts the number and the SHA-256 of the written bytes of each unit.
pub fn put_written(alloc: Global, out: &mut Bytes, shop: &MemoryShop) -> Result<(), NoMemory> {
    let vehicle = shop.world().spec(alloc)?;
    put_sums(alloc, out, vehicle.units.as_slice())
}

/// Puts how many requests each unit heard.
pub fn put_heard(alloc: Global, out: &mut Bytes, shop: &MemoryShop) -> Result<(), NoMemory> {
    let vehicle = shop.world().spec(alloc)?;
    put_counts(alloc, out, vehicle.units.as_slice())
}

/// Puts how many calls were made of the disk and of the link.
pub fn put_calls(out: &mut Bytes, shop: &MemoryShop) -> Result<(), NoMemory> {
    let made = shop.made();
    put(out, "calls ")?;
    put_number(out, made.disk)?;
    put(out, " ")?;
    put_number(out, made.link)
}

/// Puts how many calls were made of the link.
pub fn put_link_calls(out: &mut Bytes, shop: &MemoryShop) -> Result<(), NoMemory> {
    put(out, "link calls ")?;
    put_number(out, shop.made().link)
}

/// The bytes of the file of a disk; none where it cannot be read.
fn file_of<S: Shop>(alloc: Global, shop: &mut S) -> Result<Bytes, NoMemory> {
    let Ok(size) = shop.len() else {
        return Ok(Bytes::new(alloc));
    };
    let mut bytes = vec![in alloc; 0u8; size as usize]?;
    match shop.read_at(0, bytes.as_mut_slice()) {
        Ok(()) => Ok(Bytes::from_vec(bytes)),
        Err(_) => Ok(Bytes::new(alloc)),
    }
}

/// Puts the bytes of the journal's file.
pub fn put_image(alloc: Global, out: &mut Bytes, shop: &mut MemoryShop) -> Result<(), NoMemory> {
    let bytes = file_of(alloc, shop)?;
    put(out, "image ")?;
    put_hex(alloc, out, bytes.as_slice())
}
