ghost use Rattle.std.specs.Prelude.{◌≡◌, ◌≤◌, length, drop, IsTrue, IfOk};
ghost use Rattle.call_log.specs.Log.{is_head, is_headed, is_seal, redial_of, receive_of, call_said, sealed_call, calls_in, calls_of};

use crate::call::{Calls, LinkCall};
use crate::spelling::{HEAD, RECEIVE, REDIAL, SEAL, SEND};
use crate::sum::{four, mixed};
use doip_frame::{Deframer, Frame, Frames};
use flash_base::{Bytes, NoMemory};
use std::alloc::Global;

/// Whether a frame is the head of a file whose calls stand on the state with this digest.
fn is_head(frame: &Frame, digest: &[u8; 32]) -> bool
    ensures { result ≡ is_head digest.now frame.now }
{
    match frame {
        Frame::Other { kind, payload } => *kind == HEAD && payload.as_slice() == digest.as_slice(),
        _ => false,
    }
}

/// Whether the first frame is that head.
#[tactic(auto, using(crate::proofs::Steps::headed_none, crate::proofs::Steps::headed_some))]
fn is_headed(frames: &Frames, digest: &[u8; 32]) -> bool
    ensures is { result ≡ is_headed digest.now frames.now }
    ensures some { IsTrue result → 1 ≤ length frames.now }
{
    if frames.len() == 0 {
        return false;
    }
    is_head(frames.at(0), digest)
}

/// Whether a frame is the seal of one with this checksum.
fn is_seal(frame: &Frame, sum: u32) -> bool
    ensures { result ≡ is_seal sum frame.now }
{
    let four = four(sum);
    match frame {
        Frame::Other { kind, payload } => *kind == SEAL && payload.as_slice() == four.as_slice(),
        _ => false,
    }
}

/// A connection that is made new has no payload.
fn redial_of(payload: &[u8]) -> Option<LinkCall>
    ensures { result ≡ redial_of payload.now }
{
    if payload.is_empty() {
        Some(LinkCall::Redial)
    } else {
        None
    }
}

/// The receive whose room these bytes are.
fn receive_of(payload: &[u8]) -> Option<LinkCall>
    ensures { result ≡ receive_of payload.now }
{
    match payload {
        [a, b, c, d] => Some(LinkCall::Receive {
            room: u32::from_be_bytes([*a, *b, *c, *d]),
        }),
        _ => None,
    }
}

/// The call that a frame of this payload type says.
fn call_said(alloc: Global, kind: u16, payload: &[u8]) -> Result<Option<LinkCall>, NoMemory>
    ensures { IfOk result (λ call. call ≡ call_said kind payload.now) }
{
    if kind == REDIAL {
        return Ok(redial_of(payload));
    }
    if kind == RECEIVE {
        return Ok(receive_of(payload));
    }
    if kind == SEND && !payload.is_empty() {
        let bytes = Bytes::from_slice(alloc, payload)?;
        return Ok(Some(LinkCall::Send { bytes }));
    }
    Ok(None)
}

/// The call that a frame and the next say, where that is its seal.
fn sealed_call(alloc: Global, frame: &Frame, next: &Frame) -> Result<Option<LinkCall>, NoMemory>
    ensures { IfOk result (λ call. call ≡ sealed_call frame.now next.now) }
{
    match frame {
        Frame::Other { kind, payload } => {
            let sum = mixed(u32::from(*kind), payload.as_slice());
            if is_seal(next, sum) {
                return call_said(alloc, *kind, payload.as_slice());
            }
            Ok(None)
        }
        _ => Ok(None),
    }
}

/// The calls of the frames from place `from` on.
fn calls_in(alloc: Global, frames: &Frames, from: usize) -> Result<Calls, NoMemory>
    requires { from ≤ length frames.now }
    ensures { IfOk result (λ calls. calls ≡ calls_in (drop from frames.now)) }
{
    let mut calls = Calls::new(alloc);
    let mut i = from;
    while frames.len() - i > 1 {
        let Some(call) = sealed_call(alloc, frames.at(i), frames.at(i + 1))? else {
            return Ok(calls);
        };
        calls.push(call)?;
        i += 2;
    }
    Ok(calls)
}

/// The calls that the bytes of a file keep on the state with this SHA-256.
///
/// They are those up to the first frame that is not whole or not sealed. A file on another state keeps none.
pub fn calls_of(alloc: Global, digest: &[u8; 32], bytes: &[u8]) -> Result<Calls, NoMemory>
    ensures { IfOk result (λ calls. calls ≡ calls_of digest.now bytes.now) }
{
    let fed = Deframer::new(alloc).feed(bytes)?;
    if is_headed(&fed.frames, digest) {
        return calls_in(alloc, &fed.frames, 1);
    }
    Ok(Calls::new(alloc))
}
