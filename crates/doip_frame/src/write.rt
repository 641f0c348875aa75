ghost use Rattle.std.specs.Prelude.{◌≡◌, ◌+◌, ◌/◌, ◌%◌, ◌≤◌, [], ◌∷◌, ◌++◌, length, IfOk};
ghost use Rattle.doip_frame.specs.Form.{IsFrame};
ghost use Rattle.doip_frame.specs.Frame.{frame_bytes, oem_bytes, addressed, written};

use crate::frame::Frame;
use flash_base::{Bytes, NoMemory};
use std::alloc::Global;

/// The bytes of a number of four bytes.
fn four_bytes(n: u32) -> [u8; 4]
    ensures { result ≡ (n / 16777216) ∷ (n / 65536 % 256) ∷ (n / 256 % 256) ∷ (n % 256) ∷ [] }
{
    [
        (n / 0x100_0000) as u8,
        (n / 0x1_0000 % 0x100) as u8,
        (n / 0x100 % 0x100) as u8,
        (n % 0x100) as u8,
    ]
}

/// A frame of a kind, whose payload is the head and then the body.
fn framed(alloc: Global, kind: u16, head: &[u8], body: &[u8]) -> Result<Bytes, NoMemory>
    requires { length head.now + length body.now ≤ 65600 }
    ensures { IfOk result (λ b. b ≡ frame_bytes kind (head.now ++ body.now)) }
{
    let size = head.len() + body.len();
    let mut bytes = Vec::with_capacity(alloc, 8 + size)?;
    let kind = [(kind / 0x100) as u8, (kind % 0x100) as u8];
    let said = four_bytes(size as u32);
    bytes.extend_from_slice(&[
        0x03, 0xfc, kind[0], kind[1], said[0], said[1], said[2], said[3],
    ])?;
    bytes.extend_from_slice(head)?;
    bytes.extend_from_slice(body)?;
    Ok(Bytes::from_vec(bytes))
}

/// The four bytes of two addresses.
fn addresses(source: u16, target: u16) -> [u8; 4]
    ensures { result ≡ (source / 256) ∷ (source % 256) ∷ (target / 256) ∷ (target % 256) ∷ [] }
{
    [
        (source / 0x100) as u8,
        (source % 0x100) as u8,
        (target / 0x100) as u8,
        (target % 0x100) as u8,
    ]
}

/// A frame of a kind whose payload may end in four optional bytes.
fn optional(alloc: Global, kind: u16, head: &[u8], oem: Option<u32>) -> Result<Bytes, NoMemory>
    requires { length head.now ≤ 9 }
    ensures { IfOk result (λ b. b ≡ frame_bytes kind (head.now ++ oem_bytes oem)) }
{
    match oem {
        None => framed(alloc, kind, head, &[]),
        Some(number) => framed(alloc, kind, head, &four_bytes(number)),
    }
}

/// An acknowledgement, with the beginning of the message that it answers.
fn acknowledged(
    alloc: Global,
    kind: u16,
    source: u16,
    target: u16,
    code: u8,
    old: &[u8],
) -> Result<Bytes, NoMemory>
    requires { 5 + length old.now ≤ 65600 }
    ensures { IfOk result (λ b. b ≡ frame_bytes kind (addressed source target (code ∷ old.now))) }
{
    let a = addresses(source, target);
    framed(alloc, kind, &[a[0], a[1], a[2], a[3], code], old)
}

/// The bytes of a frame, with its reserved bytes 0 (ISO 13400-2:2019, section 9).
pub fn encode(alloc: Global, frame: &Frame) -> Result<Bytes, NoMemory>
    requires { IsFrame frame.now }
    ensures { IfOk result (λ b. b ≡ written frame.now) }
{
    match frame {
        Frame::HeaderNack { code } => framed(alloc, 0x0000, &[*code], &[]),
        Frame::Activate { source, kind, oem } => {
            let a = addresses(*source, 0);
            optional(alloc, 0x0005, &[a[0], a[1], *kind, 0, 0, 0, 0], *oem)
        }
        Frame::Activated {
            tester,
            entity,
            code,
            oem,
        } => {
            let a = addresses(*tester, *entity);
            optional(
                alloc,
                0x0006,
                &[a[0], a[1], a[2], a[3], *code, 0, 0, 0, 0],
                *oem,
            )
        }
        Frame::AliveAsk => framed(alloc, 0x0007, &[], &[]),
        Frame::AliveSay { source } => {
            let a = addresses(*source, 0);
            framed(alloc, 0x0008, &[a[0], a[1]], &[])
        }
        Frame::Message {
            source,
            target,
            body,
        } => framed(alloc, 0x8001, &addresses(*source, *target), body.as_slice()),
        Frame::Ack {
            source,
            target,
            code,
            old,
        } => acknowledged(alloc, 0x8002, *source, *target, *code, old.as_slice()),
        Frame::Nack {
            source,
            target,
            code,
            old,
        } => acknowledged(alloc, 0x8003, *source, *target, *code, old.as_slice()),
        Frame::Other { kind, payload } => framed(alloc, *kind, &[], payload.as_slice()),
    }
}
