//! The vehicle that the files hold.
ghost use Rattle.std.specs.Prelude.{◌≡◌, ◌+◌, ◌≤◌, ◌<◌, ◌^◌, length, IfOk};
ghost use Rattle.call_log.specs.Log.{head_bytes};
ghost use Rattle.vehicle_world.specs.Worlds.{world_of, IsFresh};
ghost use Rattle.folder_shop.specs.Moments.{tick_of};

use crate::fault::BenchFault;
use bench_files::BenchFiles;
use call_log::{Calls, LinkCall, calls_of, head};
use flash_base::{Bytes, Items, NoMemory};
use gateway_sim::GatewaySpec;
use sha2::{Digest, Sha256};
use std::alloc::Global;
use std::fs::File;
use std::rt::Files as FileSystem;
use vehicle_world::{VehicleSpec, World};

/// The address of the gateway where there is no vehicle's file.
const ENTITY: u16 = 0x4000;

/// The most calls that are made again.
const MOST_CALLS: usize = 1 << 62;

/// The vehicle that was found.
#[derive(Drop)]
pub(crate) struct Found {
    pub world: World,
    /// The first bytes of the file of calls, which name the vehicle's file.
    pub head: Bytes,
    /// Calls of a run that was killed were made again, so the vehicle's file is not this vehicle's.
    pub unsaved: bool,
    ghost fresh: { tick_of world ≡ 0 },
}

/// The first bytes of a file of calls on the vehicle's file with these bytes.
pub(crate) fn head_on(alloc: Global, bytes: &[u8]) -> Result<Bytes, NoMemory> {
    let digest = Sha256::digest(bytes);
    head(alloc, &digest)
}

/// A gateway without units.
fn bare(alloc: Global) -> Result<World, NoMemory>
    ensures { IfOk result (λ w. tick_of w ≡ 0) }
{
    let gateway = GatewaySpec {
        entity: ENTITY,
        gateway: Items::new(alloc),
        units: Items::new(alloc),
    };
    let units = Items::new(alloc);
    World::new(alloc, &VehicleSpec { gateway, units })
}

/// The vehicle of these bytes.
fn world_in(alloc: Global, found: &Option<Bytes>) -> Result<World, BenchFault>
    ensures { IfOk result (λ w. tick_of w ≡ 0) }
{
    match found {
        Some(bytes) => Ok(world_file::read(alloc, bytes.as_slice())?),
        None => Ok(bare(alloc)?),
    }
}

/// A receive into this room, once more.
fn received(world: &mut World, room: usize, out: &mut Vec<u8>) -> Result<(), NoMemory>
    requires { tick_of world.old < 2 ^ 63 }
    ensures { tick_of world.new ≤ tick_of world.old + 1 }
{
    if room == 0 {
        return Ok(());
    }
    if out.len() < room {
        out.resize(room, 0)?;
    }
    world.poll(&mut out[..room])?;
    Ok(())
}

/// Makes a call again.
fn again(world: &mut World, call: &LinkCall, out: &mut Vec<u8>) -> Result<(), NoMemory>
    requires { tick_of world.old < 2 ^ 63 }
    ensures { tick_of world.new ≤ tick_of world.old + 1 }
{
    match call {
        LinkCall::Redial => {
            world.redial();
            Ok(())
        }
        LinkCall::Receive { room } => received(world, *room as usize, out),
        LinkCall::Send { bytes } => world.feed(bytes.as_slice()),
    }
}

/// The vehicle behind these calls, on a new connection.
fn behind(alloc: Global, world: World, calls: &Calls) -> Result<World, NoMemory>
    requires { tick_of world ≡ 0 }
    ensures { IfOk result (λ w. tick_of w ≡ 0) }
{
    let mut world = world;
    let mut out = Vec::new(alloc);
    for i in 0..calls.len().min(MOST_CALLS) {
        again(&mut world, calls.at(i), &mut out)?;
    }
    let spec = world.spec(alloc)?;
    World::new(alloc, &spec)
}

/// The SHA-256 of the vehicle's file; of no bytes, where there is none.
fn digest_of(found: &Option<Bytes>) -> [u8; 32] {
    match found {
        Some(bytes) => Sha256::digest(bytes.as_slice()),
        None => Sha256::digest(&[]),
    }
}

/// Reads the vehicle's file, and makes again the calls that a run made behind it that was killed.
pub(crate) fn find<R: FileSystem<File = File>>(
    files: &mut BenchFiles<R>,
    alloc: Global,
) -> Result<Found, BenchFault> {
    let found = files.read_vehicle()?;
    let world = world_in(alloc, &found)?;
    let digest = digest_of(&found);
    let head = head(alloc, &digest)?;
    drop(found);
    let kept = files.read_calls()?;
    let calls = calls_of(alloc, &digest, kept.as_slice())?;
    if calls.len() == 0 {
        return Ok(Found {
            world,
            head,
            unsaved: false,
        });
    }
    Ok(Found {
        world: behind(alloc, world, &calls)?,
        head,
        unsaved: true,
    })
}
