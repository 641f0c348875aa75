//! Streams of framed requests (ISO 13400-2:2019, ISO 14229-1) to unit 1001.

use flash_base::{Bytes, NoMemory};
use std::alloc::Global;

/// The bytes of a framed transfer.
pub(crate) const TRANSFER: usize = 4107;

/// The bytes of a framed small request.
pub(crate) const SMALL: usize = 14;

/// A routing activation request of tester 0E80.
const ACTIVATION: &[u8] = &[3, 252, 0, 5, 0, 0, 0, 7, 0x0E, 0x80, 0, 0, 0, 0, 0];

/// Puts a message whose body is `head` and then `rest`.
fn push_message(stream: &mut Bytes, head: &[u8], rest: &[u8]) -> Result<(), NoMemory> {
    let size = head.len().wrapping_add(rest.len()).wrapping_add(4);
    let said = [
        (size / 0x1_0000 % 0x100) as u8,
        (size / 0x100 % 0x100) as u8,
        (size % 0x100) as u8,
    ];
    stream.extend(&[
        3, 252, 128, 1, 0, said[0], said[1], said[2], 0x0E, 0x80, 0x10, 1,
    ])?;
    stream.extend(head)?;
    stream.extend(rest)
}

/// An activation, a programming session, an erased region and a download of so many bytes.
pub(crate) fn opening(alloc: Global, size: u32) -> Result<Bytes, NoMemory> {
    let mut stream = Bytes::from_slice(alloc, ACTIVATION)?;
    let size = size.to_be_bytes();
    push_message(&mut stream, &[0x10, 2], &[])?;
    push_message(&mut stream, &[0x31, 1, 0xFF, 0, 0x44, 0, 0, 0x10, 0], &size)?;
    push_message(&mut stream, &[0x34, 0, 0x44, 0, 0, 0x10, 0], &size)?;
    Ok(stream)
}

/// So many transfers of 4,093 bytes.
pub(crate) fn transfers(alloc: Global, count: u32) -> Result<Bytes, NoMemory> {
    let mut block = Bytes::new(alloc);
    for i in 0..4093u32 {
        block.push((i % 251) as u8)?;
    }
    let mut stream = Bytes::from_vec(Vec::with_capacity(alloc, (count as usize) * TRANSFER)?);
    for i in 0..count {
        let counter = (i % 256) as u8;
        push_message(
            &mut stream,
            &[0x36, counter.wrapping_add(1)],
            block.as_slice(),
        )?;
    }
    Ok(stream)
}

/// So many requests of the service TesterPresent.
pub(crate) fn small(alloc: Global, count: u32) -> Result<Bytes, NoMemory> {
    let mut stream = Bytes::from_vec(Vec::with_capacity(alloc, (count as usize) * SMALL)?);
    for _ in 0..count {
        push_message(&mut stream, &[0x3E, 0], &[])?;
    }
    Ok(stream)
}
