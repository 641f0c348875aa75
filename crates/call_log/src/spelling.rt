ghost use Rattle.std.specs.Prelude.{◌≡◌, ◌≤◌, false, length, IfOk};
ghost use Rattle.call_log.specs.Log.{IsKeepable, seal_bytes, sealed_bytes, call_bytes, head_bytes};
ghost use Rattle.doip_frame.specs.Form.{is_known};
ghost use Rattle.doip_frame.specs.Frame.{frame_bytes};

use crate::call::LinkCall;
use crate::sum::{four, mixed};
use doip_frame::{Frame, encode};
use flash_base::{Bytes, NoMemory};
use std::alloc::Global;

/// The payload type of the head, which has the digest of the state that the calls stand on.
pub(crate) const HEAD: u16 = 0xF000;
/// A connection that is made new.
pub(crate) const REDIAL: u16 = 0xF001;
/// A receive.
pub(crate) const RECEIVE: u16 = 0xF002;
/// Bytes that are sent.
pub(crate) const SEND: u16 = 0xF003;
/// The seal of the frame before it.
pub(crate) const SEAL: u16 = 0xF004;

/// The bytes of a frame of one of these payload types.
fn framed(alloc: Global, kind: u16, payload: Bytes) -> Result<Bytes, NoMemory>
    requires own { is_known kind ≡ false }
    requires few { length payload ≤ 65600 }
    ensures { IfOk result (λ b. b ≡ frame_bytes kind payload) }
{
    encode(alloc, &Frame::Other { kind, payload })
}

/// The bytes of the seal of a frame.
fn seal_of(alloc: Global, kind: u16, payload: &[u8]) -> Result<Bytes, NoMemory>
    ensures { IfOk result (λ b. b ≡ seal_bytes kind payload.now) }
{
    let sum = four(mixed(u32::from(kind), payload));
    framed(alloc, SEAL, Bytes::from_slice(alloc, &sum)?)
}

/// The bytes of a frame of one of these payload types, and of its seal.
fn sealed(alloc: Global, kind: u16, payload: Bytes) -> Result<Bytes, NoMemory>
    requires own { is_known kind ≡ false }
    requires few { length payload ≤ 65600 }
    ensures { IfOk result (λ b. b ≡ sealed_bytes kind payload) }
{
    let seal = seal_of(alloc, kind, payload.as_slice())?;
    let mut bytes = framed(alloc, kind, payload)?;
    bytes.extend(seal.as_slice())?;
    Ok(bytes)
}

/// The first bytes of a file of calls, which stand on the state with this SHA-256.
pub fn head(alloc: Global, digest: &[u8; 32]) -> Result<Bytes, NoMemory>
    ensures { IfOk result (λ b. b ≡ head_bytes digest.now) }
{
    framed(alloc, HEAD, Bytes::from_slice(alloc, digest)?)
}

/// The bytes that a call adds to the file. A send is one of 1 to 65,600 bytes.
pub fn spelled(alloc: Global, call: &LinkCall) -> Result<Bytes, NoMemory>
    requires { IsKeepable call.now }
    ensures { IfOk result (λ b. b ≡ call_bytes call.now) }
{
    match call {
        LinkCall::Redial => sealed(alloc, REDIAL, Bytes::new(alloc)),
        LinkCall::Receive { room } => {
            sealed(alloc, RECEIVE, Bytes::from_slice(alloc, &four(*room))?)
        }
        LinkCall::Send { bytes } => {
            sealed(alloc, SEND, Bytes::from_slice(alloc, bytes.as_slice())?)
        }
    }
}
