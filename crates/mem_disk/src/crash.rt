ghost use Rattle.std.specs.Prelude.{◌≡◌, ◌≤◌, ◌<◌, IsTrue, length, IfOk};
ghost use Rattle.mem_disk.specs.Crashed.{IsFilled, IsBehind, IsBehindWrite, IsBehindMiss};
ghost use Rattle.mem_disk.specs.Replay.{is_within};

use crate::disk::{MemDisk, copied, spliced};
use crate::record::Done;
use disk_model::Pick;
use flash_base::{Bytes, NoMemory};
use std::alloc::Global;

/// What a read gives behind some of the calls, and what the pick takes.
#[derive(Drop)]
pub struct Picture {
    bytes: Vec<u8>,
    image: Vec<u8>,
}

// The bytes of `old` at this length, with `byte` in the range and past the end of `old`.
fn filled(
    alloc: Global,
    old: &[u8],
    size: usize,
    at: usize,
    n: usize,
    byte: u8,
) -> Result<Vec<u8>, NoMemory>
    ensures { IfOk result (λ v. IsFilled old.now size at n byte v.items) }
{
    let mut image = vec![in alloc; byte; size]?;
    for i in 0..size {
        if i < old.len() && (i < at || i - at >= n) {
            image[i] = old[i];
        }
    }
    Ok(image)
}

// Behind a write that succeeded.
fn behind_write(
    alloc: Global,
    picture: Picture,
    at: usize,
    text: &[u8],
    pick: Pick,
) -> Result<Picture, NoMemory>
    requires { at ≤ length picture.bytes.items }
    ensures { IfOk result (IsBehindWrite at text.now pick picture) }
{
    let bytes = spliced(alloc, &picture.bytes, at, text)?;
    let image = match pick {
        Pick::Old => picture.image,
        Pick::New => copied(alloc, &bytes)?,
        Pick::Junk(byte) => filled(alloc, &picture.image, bytes.len(), at, text.len(), byte)?,
    };
    Ok(Picture { bytes, image })
}

// Behind a write that failed.
fn behind_miss(
    alloc: Global,
    picture: Picture,
    at: usize,
    n: usize,
    pick: Pick,
) -> Result<Picture, NoMemory>
    ensures { IfOk result (IsBehindMiss at n pick picture) }
{
    let Picture { bytes, image } = picture;
    match pick {
        Pick::Old => Ok(Picture { bytes, image }),
        Pick::New => Ok(Picture { bytes, image }),
        Pick::Junk(byte) => {
            let image = filled(alloc, &image, image.len(), at, n, byte)?;
            Ok(Picture { bytes, image })
        }
    }
}

// Behind one call more.
fn behind(alloc: Global, picture: Picture, done: &Done, pick: Pick) -> Result<Picture, NoMemory>
    requires { IsTrue (is_within (length picture.bytes.items) done.now) }
    ensures { IfOk result (IsBehind done.now pick picture) }
{
    match done {
        Done::Kept => Ok(picture),
        Done::Wrote(at, text) => behind_write(alloc, picture, *at as usize, text, pick),
        Done::Missed(at, n) => behind_miss(alloc, picture, *at as usize, *n as usize, pick),
        Done::Synced => {
            let Picture {
                bytes,
                image: _image,
            } = picture;
            let image = copied(alloc, &bytes)?;
            Ok(Picture { bytes, image })
        }
    }
}

impl MemDisk {
    ghost use Rattle.std.specs.Prelude.{◌≡◌, ◌≤◌, IfOk, take};
    ghost use Rattle.disk_model.specs.Disk.{IsCrashImage};
    ghost use Rattle.mem_disk.specs.Crashed.{IsPicked};
    ghost use Rattle.mem_disk.specs.Disks.{history_of, moment_of};
    ghost use Rattle.mem_disk.specs.Replay.{start, synced_bytes};

    /// The image that a crash behind the first `call` calls leaves, if it is that one of the pick.
    pub fn crash(&self, alloc: Global, call: u64, pick: Pick) -> Result<Bytes, NoMemory>
        requires { call ≤ moment_of self.now }
        ensures image { IfOk result (IsCrashImage ((history_of self.now).disk_at call)) }
        ensures picked { IfOk result (IsPicked pick ((history_of self.now).disk_at call)
            (synced_bytes (start self.now.first.items) self.now.first.items
            (take call self.now.calls.items))) }
    {
        let mut picture = Picture {
            bytes: copied(alloc, &self.first)?,
            image: copied(alloc, &self.first)?,
        };
        let recorded = self.calls.len();
        let last = if call < recorded as u64 {
            call as usize
        } else {
            recorded
        };
        for i in 0..last {
            picture = behind(alloc, picture, &self.calls[i], pick)?;
        }
        Ok(Bytes::from_vec(picture.image))
    }
}
