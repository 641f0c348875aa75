//! What was sent to the vehicle.

use crate::text::{put, put_hex};
use bench_shop::{Deed, Entry, MemoryShop};
use flash_base::{Bytes, NoMemory};
use std::alloc::Global;

/// How a diagnostic message begins: its version and its kind (ISO 13400-2).
const MESSAGE: [u8; 4] = [0x03, 0xfc, 0x80, 0x01];

/// Where the address of the unit stands in a message, behind length and source, and where its request begins.
const TARGET: usize = 10;

const REQUEST: usize = 12;

/// The address and the request of a diagnostic message; None where it is another frame.
fn request_of(frame: &[u8]) -> Option<(&[u8], &[u8])> {
    if frame.len() < REQUEST || !frame.starts_with(&MESSAGE) {
        return None;
    }
    Some((&frame[TARGET..REQUEST], &frame[REQUEST..]))
}

/// Puts a frame: of a message the unit and the request, of another all bytes.
fn put_frame(alloc: Global, out: &mut Bytes, frame: &[u8]) -> Result<(), NoMemory> {
    put(out, " ")?;
    match request_of(frame) {
        Some((unit, request)) => {
            put_hex(alloc, out, unit)?;
            put(out, ":")?;
            put_hex(alloc, out, request)
        }
        None => put_hex(alloc, out, frame),
    }
}

/// The frame that was sent; None where the call was no send.
fn frame_of(entry: &Entry) -> Option<&[u8]> {
    match &entry.deed {
        Deed::Fed(bytes) => Some(bytes.as_slice()),
        _ => None,
    }
}

/// Puts the frames that were sent, those left out whose numbers are below the first of the range, or not below the second.
fn put_frames(
    alloc: Global,
    out: &mut Bytes,
    done: &[Entry],
    range: (u64, u64),
) -> Result<(), NoMemory> {
    let (first, end) = range;
    let mut number: u64 = 0;
    for entry in done {
        if let Some(frame) = frame_of(entry) {
            if number >= first && number < end {
                put_frame(alloc, out, frame)?;
            }
            number = number.saturating_add(1);
        }
    }
    Ok(())
}

/// Puts all frames that the vehicle was sent, in their order.
pub fn put_sent(alloc: Global, out: &mut Bytes, shop: &MemoryShop) -> Result<(), NoMemory> {
    put(out, "sent")?;
    put_frames(alloc, out, shop.done(), (0, u64::MAX))
}

/// Puts the frame with this number, from 0.
pub fn put_one_sent(
    alloc: Global,
    out: &mut Bytes,
    shop: &MemoryShop,
    number: u64,
) -> Result<(), NoMemory> {
    put(out, "sent")?;
    put_frames(alloc, out, shop.done(), (number, number.saturating_add(1)))
}
