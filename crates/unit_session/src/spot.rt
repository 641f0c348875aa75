ghost use Rattle.std.specs.Prelude.{◌≡◌, ◌≤◌, min, length};
ghost use Rattle.unit_session.specs.Spots.{padded, spot_with, key_spot, block_spot, spot_at, segment_by, stage_by};

use crate::stage::{KeptSeed, Stage};

/// Where a conversation stands, by numbers: the next request is a function of the unit's plan and its spot.
///
/// What a step does not use is 0.
#[derive(Clone, Copy, Debug, PartialEq, Eq)]
pub struct Spot {
    /// 0: the identifiers; 1: the programming session; 2: the seed; 3: the key; 4: a segment; 5: the check of the
    /// whole; 6: the reset; 7: each request was answered; 8: the conversation has ended.
    pub step: u8,
    /// The number of the identifier, or of the segment, from 0.
    pub part: u16,
    /// Within a segment 0: erase; 1: download; 2: blocks; 3: exit; 4: check; 5: to be marked.
    pub phase: u8,
    /// How many bytes of the segment were accepted.
    pub offset: u32,
    /// The counter of the next block.
    pub counter: u8,
    /// The length limit of the next block's request, in bytes (ISO 14229-1, maxNumberOfBlockLength).
    pub room: u32,
    /// The seed to which the key is to be sent, and zeros after it.
    pub seed: [u8; 32],
    /// The length of the seed.
    pub seed_length: u8,
}

fn spot_with(step: u8, part: u16, phase: u8) -> Spot
    ensures { result ≡ spot_with step part phase }
{
    Spot {
        step,
        part,
        phase,
        offset: 0,
        counter: 0,
        room: 0,
        seed: [0; 32],
        seed_length: 0,
    }
}

/// The seed, and zeros after it.
fn padded(seed: &[u8]) -> [u8; 32]
    requires { length seed.now ≤ 32 }
    ensures { result ≡ padded seed.now }
{
    let mut bytes = [0u8; 32];
    bytes[..seed.len()].copy_from_slice(seed);
    bytes
}

fn key_spot(seed: &[u8]) -> Spot
    requires { length seed.now ≤ 32 }
    ensures { result ≡ key_spot seed.now }
{
    let bytes = padded(seed);
    Spot {
        step: 3,
        part: 0,
        phase: 0,
        offset: 0,
        counter: 0,
        room: 0,
        seed: bytes,
        seed_length: seed.len() as u8,
    }
}

fn block_spot(part: u16, offset: u32, counter: u8, limit: u16) -> Spot
    ensures { result ≡ block_spot part offset counter limit }
{
    Spot {
        step: 4,
        part,
        phase: 2,
        offset,
        counter,
        room: u32::from(limit),
        seed: [0; 32],
        seed_length: 0,
    }
}

/// The spot of a stage. No session's seed has more than 32 bytes, nor a segment 2^32.
pub fn spot_at(stage: Stage) -> Spot
    ensures { result ≡ spot_at stage }
{
    match stage {
        Stage::Ident { number } => spot_with(0, number, 0),
        Stage::Program => spot_with(1, 0, 0),
        Stage::Seed => spot_with(2, 0, 0),
        Stage::Key { seed } => {
            let size = usize::from(seed.size).min(32);
            key_spot(&seed.bytes[..size])
        }
        Stage::Erase { segment } => spot_with(4, segment, 0),
        Stage::Download { segment } => spot_with(4, segment, 1),
        Stage::Block {
            segment,
            sent,
            counter,
            limit,
        } => {
            let offset = sent.min(4_294_967_295) as u32;
            block_spot(segment, offset, counter, limit)
        }
        Stage::Exit { segment } => spot_with(4, segment, 3),
        Stage::Check { segment } => spot_with(4, segment, 4),
        Stage::Mark { segment, .. } => spot_with(4, segment, 5),
        Stage::Finish => spot_with(5, 0, 0),
        Stage::Reset => spot_with(6, 0, 0),
        Stage::Done => spot_with(7, 0, 0),
        Stage::Ended { .. } => spot_with(8, 0, 0),
    }
}

/// The stage of a segment at a spot.
fn segment_by(spot: Spot) -> Stage
    ensures { result ≡ segment_by spot }
{
    let segment = spot.part;
    if spot.phase == 0 {
        Stage::Erase { segment }
    } else if spot.phase == 1 {
        Stage::Download { segment }
    } else if spot.phase == 2 {
        Stage::Block {
            segment,
            sent: spot.offset as usize,
            counter: spot.counter,
            limit: spot.room.min(65_535) as u16,
        }
    } else if spot.phase == 3 {
        Stage::Exit { segment }
    } else if spot.phase == 4 {
        Stage::Check { segment }
    } else {
        Stage::Done
    }
}

/// The stage at a spot.
pub fn stage_by(spot: Spot) -> Stage
    ensures { result ≡ stage_by spot }
{
    if spot.step == 0 {
        Stage::Ident { number: spot.part }
    } else if spot.step == 1 {
        Stage::Program
    } else if spot.step == 2 {
        Stage::Seed
    } else if spot.step == 3 {
        let bytes = spot.seed;
        let size = spot.seed_length;
        Stage::Key {
            seed: KeptSeed { bytes, size },
        }
    } else if spot.step == 4 {
        segment_by(spot)
    } else if spot.step == 5 {
        Stage::Finish
    } else if spot.step == 6 {
        Stage::Reset
    } else {
        Stage::Done
    }
}
