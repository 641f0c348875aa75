//! One frame. The input is its bytes.
ghost use Rattle.std.specs.Prelude.{◌≡◌, ◌≤◌, IsTrue, false};
ghost use Rattle.doip_frame.specs.Form.{IsFrame, is_known};

use crate::streams::put_refusal;
use crate::told::put_frame;
use doip_frame::{Deframer, Fed, Frame, encode};
use flash_base::NoMemory;
use std::alloc::Global;
use test_rows::bytes_of_digits;

/// Whether a kind is one of the table.
fn is_listed(kind: u16) -> bool
    ensures { result ≡ is_known kind }
{
    kind == 0
        || kind == 5
        || kind == 6
        || kind == 7
        || kind == 8
        || kind == 0x8001
        || kind == 0x8002
        || kind == 0x8003
}

/// Whether a frame of a kind outside the table has so many bytes.
fn is_other(kind: u16, size: usize) -> bool
    ensures form { IsTrue result → is_known kind ≡ false }
    ensures few { IsTrue result → size ≤ 65600 }
{
    if is_listed(kind) {
        return false;
    }
    size <= 65_600
}

/// Whether a frame has bytes.
fn is_frame(frame: &Frame) -> bool
    ensures { IsTrue result → IsFrame frame.now }
{
    match frame {
        Frame::Message { body, .. } => 1 <= body.len() && body.len() <= 65_596,
        Frame::Ack { old, .. } => old.len() <= 65_595,
        Frame::Nack { old, .. } => old.len() <= 65_595,
        Frame::Other { kind, payload } => is_other(*kind, payload.len()),
        _ => true,
    }
}

fn is_written(alloc: Global, frame: &Frame, bytes: &[u8]) -> Result<bool, NoMemory> {
    if !is_frame(frame) {
        return Ok(false);
    }
    let written = encode(alloc, frame)?;
    Ok(written.as_slice() == bytes)
}

/// The one frame of what was fed, and whether it is written otherwise.
fn put_single(alloc: Global, fed: &Fed, bytes: &[u8], out: &mut String) -> Result<(), NoMemory> {
    put_refusal(out, &fed.bad)?;
    if fed.frames.len() != 1 {
        return Ok(out.push_str("not one frame")?);
    }
    put_frame(out, fed.frames.at(0))?;
    let same = is_written(alloc, fed.frames.at(0), bytes)?;
    Ok(out.push_str(if same { "" } else { ", written otherwise" })?)
}

pub fn put_whole(alloc: Global, bytes: &[u8], out: &mut String) -> Result<(), NoMemory> {
    let mut deframer = Deframer::new(alloc);
    let fed = deframer.feed(bytes)?;
    put_single(alloc, &fed, bytes, out)
}

pub fn answer(alloc: Global, digits: &str, out: &mut String) -> Result<(), NoMemory> {
    let bytes = bytes_of_digits(alloc, digits)?;
    put_whole(alloc, bytes.as_slice(), out)
}
