//! The record of what link calls did to the vehicle.

ghost use Rattle.std.specs.Prelude.{◌≡◌, ◌+◌, ◌≤◌, ◌<◌, ◌^◌, OnOk};
ghost use Rattle.bench_shop.specs.Deeds.{does};
ghost use Rattle.bench_shop.specs.Pasts.{tick_of};
ghost use Rattle.vehicle_world.specs.Worlds.{polled, world_of};

use flash_base::{Bytes, NoMemory};
use std::alloc::Global;
use vehicle_world::World;

/// What a link call did to the vehicle.
#[derive(Drop)]
pub enum Deed {
    /// These bytes were fed.
    Fed(Bytes),
    /// A receive had room for one byte more than this.
    Polled(u64),
    /// A receive brought this piece, which is none of the gateway's.
    Garbled(Bytes),
    Redialed,
}

/// A deed, and the moment of its call.
#[derive(Drop)]
pub struct Entry {
    pub moment: u64,
    pub deed: Deed,
}

/// Takes a piece with room for one byte more than this, and drops it. There is no memory for 2^64 bytes.
fn poll_again(alloc: Global, world: &mut World, room: u64) -> Result<(), NoMemory>
    requires early { tick_of world.old < 2 ^ 63 }
    ensures does { OnOk result (world_of world.new ≡ polled (room + 1) (world_of world.old)) }
    ensures tick { OnOk result (tick_of world.new ≤ tick_of world.old + 1) }
{
    let Some(size) = room.checked_add(1) else {
        return Err(NoMemory);
    };
    let mut out = vec![in alloc; 0u8; size as usize]?;
    world.poll(&mut out)?;
    Ok(())
}

/// Does a deed once more.
pub(crate) fn again(alloc: Global, world: &mut World, deed: &Deed) -> Result<(), NoMemory>
    requires early { tick_of world.old < 2 ^ 63 }
    ensures does { OnOk result (world_of world.new ≡ does deed.now (world_of world.old)) }
    ensures tick { OnOk result (tick_of world.new ≤ tick_of world.old + 1) }
{
    match deed {
        Deed::Fed(bytes) => world.feed(bytes.as_slice()),
        Deed::Polled(room) => poll_again(alloc, world, *room),
        Deed::Garbled(piece) => world.garble(piece.as_slice()),
        Deed::Redialed => {
            world.redial();
            Ok(())
        }
    }
}
