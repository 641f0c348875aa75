ghost use Rattle.std.specs.Prelude.{◌≡◌, true, ◌+◌, ◌≤◌, ◌<◌, length, drop, slice_index, IfOk};
ghost use Rattle.doip_frame.specs.Frame.{is_length, frame_of, oem_of, header_nack_of, activate_of, activated_of, alive_of, addressed_of, ack_of, nack_of};
ghost use Rattle.doip_frame.specs.declared.frame.Frame.TheVariants.{Message};

use crate::cut::{four, two};
use crate::frame::Frame;
use flash_base::{Bytes, NoMemory};
use std::alloc::Global;

/// The four optional bytes, where they end the payload.
fn oem(payload: &[u8], from: usize) -> Option<u32>
    requires { from ≤ length payload.now }
    ensures { result ≡ oem_of (drop from payload.now) }
{
    if payload.len() - from == 4 {
        Some(four(payload, from))
    } else {
        None
    }
}

fn header_nack(payload: &[u8]) -> Frame
    requires { 1 ≤ length payload.now }
    ensures { result ≡ header_nack_of payload.now }
{
    Frame::HeaderNack { code: payload[0] }
}

fn activate(payload: &[u8]) -> Frame
    requires { 7 ≤ length payload.now }
    ensures { result ≡ activate_of payload.now }
{
    Frame::Activate {
        source: two(payload, 0),
        kind: payload[2],
        oem: oem(payload, 7),
    }
}

fn activated(payload: &[u8]) -> Frame
    requires { 9 ≤ length payload.now }
    ensures { result ≡ activated_of payload.now }
{
    Frame::Activated {
        tester: two(payload, 0),
        entity: two(payload, 2),
        code: payload[4],
        oem: oem(payload, 9),
    }
}

fn alive(payload: &[u8]) -> Frame
    requires { 2 ≤ length payload.now }
    ensures { result ≡ alive_of payload.now }
{
    Frame::AliveSay {
        source: two(payload, 0),
    }
}

fn message(alloc: Global, payload: &[u8]) -> Result<Frame, NoMemory>
    requires { 5 ≤ length payload.now }
    ensures { IfOk result (λ f. f ≡ addressed_of 32769 Message payload.now) }
{
    Ok(Frame::Message {
        source: two(payload, 0),
        target: two(payload, 2),
        body: Bytes::from_slice(alloc, &payload[4..])?,
    })
}

fn ack(alloc: Global, payload: &[u8]) -> Result<Frame, NoMemory>
    requires { 5 ≤ length payload.now }
    ensures { IfOk result (λ f. f ≡ addressed_of 32770 ack_of payload.now) }
{
    Ok(Frame::Ack {
        source: two(payload, 0),
        target: two(payload, 2),
        code: payload[4],
        old: Bytes::from_slice(alloc, &payload[5..])?,
    })
}

fn nack(alloc: Global, payload: &[u8]) -> Result<Frame, NoMemory>
    requires { 5 ≤ length payload.now }
    ensures { IfOk result (λ f. f ≡ addressed_of 32771 nack_of payload.now) }
{
    Ok(Frame::Nack {
        source: two(payload, 0),
        target: two(payload, 2),
        code: payload[4],
        old: Bytes::from_slice(alloc, &payload[5..])?,
    })
}

/// The frame of a kind with a payload of one of its lengths.
pub(crate) fn read(alloc: Global, kind: u16, payload: &[u8]) -> Result<Frame, NoMemory>
    requires { is_length kind (length payload.now) ≡ true }
    ensures { IfOk result (λ f. f ≡ frame_of kind payload.now) }
{
    match kind {
        0x0000 => Ok(header_nack(payload)),
        0x0005 => Ok(activate(payload)),
        0x0006 => Ok(activated(payload)),
        0x0007 => Ok(Frame::AliveAsk),
        0x0008 => Ok(alive(payload)),
        0x8001 => message(alloc, payload),
        0x8002 => ack(alloc, payload),
        0x8003 => nack(alloc, payload),
        _ => Ok(Frame::Other {
            kind,
            payload: Bytes::from_slice(alloc, payload)?,
        }),
    }
}
