//! What a gateway does to its parts.

ghost use Rattle.std.specs.Prelude.{◌≡◌, ◌+◌, ◌≤◌, length, take, slice_range};
ghost use Rattle.unit_model.specs.Step.{raise_code};
ghost use Rattle.gateway_sim.specs.Counting.{by_code};
ghost use Rattle.gateway_sim.specs.Feeding.{is_one, is_one_of, target_of};
ghost use Rattle.gateway_sim.specs.Handling.{code_of};

use doip_frame::{Bad, Frame};

/// Counts one more of a code; a count stays at its last value, 2^64 - 1, once there.
pub(crate) fn raise_at(counts: &mut [u64; 256], code: u8)
    ensures { by_code counts.new ≡ raise_code code (by_code counts.old) }
{
    let at = usize::from(code);
    counts[at] = counts[at].saturating_add(1);
}

/// Whether the address is one of the list.
fn is_one(target: u16, units: &[u16]) -> bool
    ensures { result ≡ is_one target units.now }
{
    for unit in units {
        if *unit == target {
            return true;
        }
    }
    false
}

/// The unit that a message is for.
pub(crate) fn target_of(frame: &Frame) -> Option<u16>
    ensures { result ≡ target_of frame.now }
{
    match frame {
        Frame::Message { target, .. } => Some(*target),
        Frame::Activate { .. } => None,
        Frame::HeaderNack { .. } => None,
        Frame::Activated { .. } => None,
        Frame::AliveAsk => None,
        Frame::AliveSay { .. } => None,
        Frame::Ack { .. } => None,
        Frame::Nack { .. } => None,
        Frame::Other { .. } => None,
    }
}

/// Whether a message is for one of the units.
pub(crate) fn is_one_of(units: &[u16], target: Option<u16>) -> bool
    ensures { result ≡ is_one_of units.now target }
{
    match target {
        None => false,
        Some(target) => is_one(target, units),
    }
}

/// Puts the next `n` bytes that are due to the front of `out`.
pub(crate) fn put_front(out: &mut [u8], ready: &[u8], from: usize, n: usize)
    requires room { n ≤ length out.old }
    requires within { from + n ≤ length ready.now }
    ensures { take n out.new ≡ slice_range ready.now from (from + n) }
{
    out[..n].copy_from_slice(&ready[from..from + n]);
}

/// The code with which a refused header is answered (ISO 13400-2:2019, payload type 0x0000).
pub(crate) fn header_code(bad: &Option<Bad>) -> Option<u8>
    ensures { result ≡ code_of bad.now }
{
    match bad {
        Some(Bad::Pattern) => Some(0),
        Some(Bad::TooLarge { .. }) => Some(2),
        Some(Bad::Length { .. }) => Some(4),
        Some(Bad::Failed) => None,
        None => None,
    }
}
