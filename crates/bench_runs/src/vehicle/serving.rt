//! A stream to a vehicle, and what comes of it.
ghost use Rattle.std.specs.Prelude.{◌<◌, ◌≤◌, length};

use doip_frame::{Deframer, Fed, Frame};
use std::alloc::Global;
use unit_model::Got;
use vehicle_world::World;

/// From this tick on a vehicle is not driven.
const LAST_TICK: u64 = 1 << 63;

/// The frames that came, and how many of them have the answer of a transfer.
#[derive(Clone, Copy)]
pub(crate) struct Came {
    pub(crate) frames: u64,
    pub(crate) taken: u64,
}

impl Came {
    const NONE: Came = Came {
        frames: 0,
        taken: 0,
    };

    fn and(self, more: Came) -> Came {
        Came {
            frames: self.frames.wrapping_add(more.frames),
            taken: self.taken.wrapping_add(more.taken),
        }
    }
}

/// Whether it is the positive answer to a transfer.
fn is_taken(frame: &Frame) -> bool {
    match frame {
        Frame::Message { body, .. } => body.as_slice().first() == Some(&0x76),
        _ => false,
    }
}

fn counted(fed: &Fed) -> Came {
    let mut taken = 0u64;
    for i in 0..fed.frames.len() {
        if is_taken(fed.frames.at(i)) {
            taken = taken.wrapping_add(1);
        }
    }
    Came {
        frames: fed.frames.len() as u64,
        taken,
    }
}

/// One receive, and what frames its bytes make; none where nothing is due.
fn polled(world: &mut World, deframer: &mut Deframer, room: &mut [u8]) -> Option<Came>
    requires { 1 ≤ length room.old }
{
    if world.tick() >= LAST_TICK {
        return None;
    }
    let Ok(Got::Bytes(n)) = world.poll(room) else {
        return None;
    };
    let fed = deframer.feed(&room[..n]).ok()?;
    Some(counted(&fed))
}

/// Feeds one piece; whether the vehicle took it.
fn take(world: &mut World, piece: &[u8]) -> bool {
    world.tick() < LAST_TICK && world.feed(piece).is_ok()
}

/// Feeds the stream in pieces, and after each one receives once.
pub(crate) fn served(alloc: Global, world: &mut World, stream: &[u8], piece: usize) -> Came
    requires { 0 < piece }
{
    let mut deframer = Deframer::new(alloc);
    let mut room = [0u8; 4096];
    let mut all = Came::NONE;
    let mut rest = stream;
    for _ in 0..stream.len() {
        if rest.is_empty() {
            break;
        }
        let n = rest.len().min(piece);
        take(world, &rest[..n]);
        if let Some(more) = polled(world, &mut deframer, &mut room) {
            all = all.and(more);
        }
        rest = &rest[n..];
    }
    all
}

/// Feeds the stream in pieces.
pub(crate) fn fed(world: &mut World, stream: &[u8], piece: usize)
    requires { 0 < piece }
{
    let mut rest = stream;
    for _ in 0..stream.len() {
        if rest.is_empty() {
            return;
        }
        let n = rest.len().min(piece);
        take(world, &rest[..n]);
        rest = &rest[n..];
    }
}

/// Receives until nothing is due.
pub(crate) fn drained(alloc: Global, world: &mut World) -> Came {
    let mut deframer = Deframer::new(alloc);
    let mut room = [0u8; 4096];
    let mut all = Came::NONE;
    for _ in 0..u32::MAX {
        match polled(world, &mut deframer, &mut room) {
            Some(more) => all = all.and(more),
            None => break,
        }
    }
    all
}
