ghost use Rattle.std.specs.Prelude.{◌≡◌, ◌+◌, ◌<◌, length};
ghost use Rattle.doip_frame.specs.Frame.{is_length};
ghost use Rattle.doip_frame.specs.Look.{Cuts, look_of, look_sized, two_at, four_at};

use crate::frame::Bad;

/// What stands at the front of a stream.
#[derive(Clone, Copy, Debug)]
pub enum Look {
    /// The beginning of a frame.
    Part,
    Refused(Bad),
    /// A header, and behind it all that it says.
    Complete { kind: u16, size: usize },
}

/// The number of the two bytes from `i` on.
pub(crate) fn two(s: &[u8], i: usize) -> u16
    requires { i + 1 < length s.now }
    ensures { result ≡ two_at s.now i }
{
    u16::from(s[i]) * 256 + u16::from(s[i + 1])
}

/// The number of the four bytes from `i` on.
pub(crate) fn four(s: &[u8], i: usize) -> u32
    requires { i + 3 < length s.now }
    ensures { result ≡ four_at s.now i }
{
    let high = u32::from(s[i]) * 256 + u32::from(s[i + 1]);
    (high * 256 + u32::from(s[i + 2])) * 256 + u32::from(s[i + 3])
}

/// Whether a frame of this kind may have this length.
fn has_length(kind: u16, said: u32) -> bool
    ensures { result ≡ is_length kind said }
{
    match kind {
        0x0000 => said == 1,
        0x0005 => said == 7 || said == 11,
        0x0006 => said == 9 || said == 13,
        0x0007 => said == 0,
        0x0008 => said == 2,
        0x8001 | 0x8002 | 0x8003 => said >= 5,
        _ => true,
    }
}

/// A header with a kind and a length, before `have` bytes.
fn sized(kind: u16, said: u32, have: usize) -> Look
    ensures { result ≡ look_sized kind said have }
{
    if said > 65_600 {
        return Look::Refused(Bad::TooLarge { said });
    }
    if !has_length(kind, said) {
        return Look::Refused(Bad::Length { kind });
    }
    let size = said as usize;
    if have < size {
        return Look::Part;
    }
    Look::Complete { kind, size }
}

/// What stands at the front, byte by byte.
fn seen(stream: &[u8]) -> Look
    ensures { result ≡ look_of stream.now }
{
    let n = stream.len();
    if n > 0 && stream[0] != 0x03 {
        return Look::Refused(Bad::Pattern);
    }
    if n > 1 && stream[1] != 0xfc {
        return Look::Refused(Bad::Pattern);
    }
    if n < 8 {
        return Look::Part;
    }
    sized(two(stream, 2), four(stream, 4), n - 8)
}

/// What stands at the front.
pub(crate) fn front(stream: &[u8]) -> Look
    ensures { Cuts result stream.now }
{
    seen(stream)
}
