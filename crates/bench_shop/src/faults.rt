//! Which calls of a shop fail, and which receives bring other bytes.

ghost use Rattle.std.specs.Prelude.{◌≡◌, ◌≤◌, true, length, IfOk, IfSome};
ghost use Rattle.std.specs.Option.{option_map};
ghost use Rattle.flash_base.specs.Lists.{all_of};
ghost use Rattle.bench_shop.specs.Faults.{is_piece, piece_for};

use flash_base::{Bytes, Items, NoMemory};
use std::alloc::Global;

/// The calls that fail, by their numbers, and what garbled receives bring. Disk calls, link calls and receives are
/// counted from 0, each for itself, failed ones too.
#[derive(Drop)]
pub struct Faults {
    /// The disk calls that fail.
    pub disk: Items<u64>,
    /// The link calls that fail.
    pub link: Items<u64>,
    /// The receives that bring a piece of 1 to 4,096 bytes which is none of the gateway's. Of several pieces for one
    /// receive the first counts; of a piece that does not fit the first bytes come, and the rest is gone.
    pub garbled: Items<(u64, Bytes)>,
}

impl Faults {
    ghost use Rattle.std.specs.Prelude.{◌≡◌, ◌≤◌, OnOk, OnErr, [], ◌∷◌, ◌++◌, length};
    ghost use Rattle.bench_shop.specs.Faults.{IsFaults, no_faults};

    /// No call fails.
    pub fn none(alloc: Global) -> Faults
        ensures is { result ≡ no_faults }
        ensures form { IsFaults result }
    {
        Faults {
            disk: Items::new(alloc),
            link: Items::new(alloc),
            garbled: Items::new(alloc),
        }
    }

    /// One more piece, for the receive with this number.
    pub fn garble(&mut self, alloc: Global, receive: u64, piece: &[u8]) -> Result<(), NoMemory>
        requires form { IsFaults self.old }
        requires some { 1 ≤ length piece.now }
        requires few { length piece.now ≤ 4096 }
        ensures form { IsFaults self.new }
        ensures disk { self.new.disk ≡ self.old.disk }
        ensures link { self.new.link ≡ self.old.link }
        ensures ok { OnOk result (self.new.garbled ≡ self.old.garbled ++ (receive, piece.now) ∷ []) }
        ensures err { OnErr result (self.new.garbled ≡ self.old.garbled) }
    {
        let bytes = Bytes::from_slice(alloc, piece)?;
        self.garbled.push((receive, bytes))
    }
}

/// What the receive with this number brings, where it is garbled.
pub(crate) fn piece_for(garbled: &[(u64, Bytes)], number: u64) -> Option<&Bytes>
    ensures is { option_map (λ b. b.now) result ≡ piece_for garbled.now number }
    ensures some { all_of garbled.now is_piece ≡ true → IfSome result (λ b. 1 ≤ length b.now) }
{
    for one in garbled {
        if one.0 == number {
            return Some(&one.1);
        }
    }
    None
}

/// The same numbers.
fn copied_numbers(alloc: Global, numbers: &[u64]) -> Result<Items<u64>, NoMemory>
    ensures { IfOk result (λ copy. copy ≡ numbers.now) }
{
    let copy = Vec::from_slice(alloc, numbers)?;
    Ok(Items::from_vec(copy))
}

/// The same pieces.
fn copied_pieces(alloc: Global, garbled: &[(u64, Bytes)]) -> Result<Items<(u64, Bytes)>, NoMemory>
    ensures { IfOk result (λ copy. copy ≡ garbled.now) }
{
    let mut copy = Items::new(alloc);
    for one in garbled {
        let piece = Bytes::from_slice(alloc, one.1.as_slice())?;
        copy.push((one.0, piece))?;
    }
    Ok(copy)
}

/// The same plan.
pub(crate) fn copied(alloc: Global, plan: &Faults) -> Result<Faults, NoMemory>
    ensures { IfOk result (λ copy. copy ≡ plan.now) }
{
    Ok(Faults {
        disk: copied_numbers(alloc, plan.disk.as_slice())?,
        link: copied_numbers(alloc, plan.link.as_slice())?,
        garbled: copied_pieces(alloc, plan.garbled.as_slice())?,
    })
}
