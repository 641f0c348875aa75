ghost use Rattle.std.specs.Prelude.{◌≡◌, ◌+◌, ◌^◌, ◌≤◌, length};
ghost use Rattle.rec_text.specs.Putting.{put_round, Does};

use crate::fault::RecFault;
use crate::filling::Filling;

/// Puts the bytes of one line, of which `room` fit from `first` on, and the others from `start` on.
pub fn put_in(
    filling: &mut Filling,
    start: u64,
    first: u64,
    room: u64,
    bytes: &[u8],
) -> Result<(), RecFault>
    requires first { first + room ≤ 2 ^ 32 }
    requires start { start + length bytes.now ≤ 2 ^ 32 }
    ensures { Does result filling.new (put_round filling.old start first room bytes.now) }
{
    if bytes.len() as u64 <= room {
        return filling.put(first, bytes);
    }
    filling.put(start, &bytes[room as usize..])?;
    filling.put(first, &bytes[..room as usize])
}
