//! Deframes streams in pieces, and counts what came. With times it also prints the time beside that of a plain
//! copy of the same bytes in the same pieces, and the ratio of the two.

ghost use Rattle.std.specs.Prelude.{◌<◌};

use crate::print_beside;
use doip_frame::Deframer;
use std::alloc::{AllocError, Global};
use std::io;
use std::time::{Clock, Instant};

/// Frames of one payload size, one after another.
fn stream(alloc: Global, frames: usize, size: u32) -> Result<Vec<u8>, AllocError> {
    let mut bytes = Vec::new(alloc);
    for _ in 0..frames {
        let said = [
            (size / 0x1_0000 % 0x100) as u8,
            (size / 0x100 % 0x100) as u8,
            (size % 0x100) as u8,
        ];
        bytes.extend_from_slice(&[3, 252, 128, 1, 0, said[0], said[1], said[2]])?;
        for i in 0..size {
            bytes.push((i % 251) as u8)?;
        }
    }
    Ok(bytes)
}

/// How many frames come of the stream in pieces.
fn deframed(alloc: Global, stream: &[u8], piece: usize) -> u64
    requires { 0 < piece }
{
    let mut deframer = Deframer::new(alloc);
    let mut count = 0u64;
    let mut rest = stream;
    for _ in 0..stream.len() {
        if rest.is_empty() {
            break;
        }
        let n = rest.len().min(piece);
        if let Ok(fed) = deframer.feed(&rest[..n]) {
            count = count.wrapping_add(fed.frames.len() as u64);
        }
        rest = &rest[n..];
    }
    count
}

/// Copies the stream in pieces, in place of what the list had.
fn copy_into(copy: &mut Vec<u8>, stream: &[u8], piece: usize) -> Result<(), AllocError>
    requires { 0 < piece }
{
    copy.clear();
    let mut rest = stream;
    for _ in 0..stream.len() {
        if rest.is_empty() {
            break;
        }
        let n = rest.len().min(piece);
        copy.extend_from_slice(&rest[..n])?;
        rest = &rest[n..];
    }
    Ok(())
}

/// Prints how many frames come of the stream, and where `is_timed` how long that took beside a copy into memory that is
/// there, of which a list has had as much.
fn measure<R: Print + Clock + Alloc<A = Global>>(
    rt: &R,
    stream: &[u8],
    piece: usize,
    copy: &mut Vec<u8>,
    is_timed: bool,
) -> io::Result<()>
    requires { 0 < piece }
{
    let start = Instant::now(rt)?;
    let got = deframed(rt.alloc(), stream, piece);
    let frames_time = start.elapsed(rt)?.as_micros();
    let start = Instant::now(rt)?;
    copy_into(copy, stream, piece)?;
    let copy_time = start.elapsed(rt)?.as_micros();
    let length = copy.len();
    println!(rt; "in pieces of {piece}: {got} frames of {length} bytes")?;
    if is_timed {
        print_beside(rt, frames_time, "a copy", copy_time)?;
    }
    Ok(())
}

/// The stream in pieces of three sizes.
fn measure_all<R: Print + Clock + Alloc<A = Global>>(
    rt: &R,
    stream: &[u8],
    is_timed: bool,
) -> io::Result<()> {
    let mut copy = Vec::with_capacity(rt.alloc(), stream.len())?;
    copy_into(&mut copy, stream, 65_536)?;
    for piece in [1448usize, 4096, 65_536] {
        measure(rt, stream, piece, &mut copy, is_timed)?;
    }
    Ok(())
}

/// Deframes streams of three payload sizes.
pub fn run<R: Print + Clock + Alloc<A = Global>>(rt: &R, is_timed: bool) -> io::Result<()> {
    let frames = if is_timed { 1000usize } else { 20 };
    for size in [65_600u32, 4097, 5] {
        println!(rt; "payload {size}")?;
        let bytes = stream(rt.alloc(), frames, size)?;
        measure_all(rt, bytes.as_slice(), is_timed)?;
    }
    Ok(())
}
