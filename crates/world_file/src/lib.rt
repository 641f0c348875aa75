//! A simulated vehicle in a file: it is read, and saved as it is.
#![tactic(auto)]

ghost use Rattle.std.specs.Prelude.{◌≡◌, ◌⊎◌, ⊤, Err, IfOk, MatchResult, filter};
ghost use Rattle.vehicle_file.specs.Files.{vehicle_of};
ghost use Rattle.vehicle_file.specs.declared.fault.BenchFault.{BenchFault};
ghost use Rattle.vehicle_world.specs.Worlds.{IsFresh, world_of};
ghost use Rattle.world_file.specs.Said.{IsSaidWorld, all_settled, has_some, settled};
ghost use Rattle.world_file.specs.Saves.{IsRead, IsSave, ReadsBack, said_by, spec_in};

use flash_base::{Bytes, Items, NoMemory};
use std::alloc::Global;
use unit_model::{PatchSpec, UnitSpec};
pub use vehicle_file::BenchFault;
use vehicle_world::World;

fn has_some(patch: &PatchSpec) -> bool
    ensures { result ≡ has_some patch.now }
{
    patch.bytes.len() > 0
}

fn with_some(patches: Items<PatchSpec>) -> Items<PatchSpec>
    ensures { result ≡ filter has_some patches }
{
    let mut list = patches.into_vec();
    list.retain(|p| has_some(p));
    Items::from_vec(list)
}

/// The unit without entries of no bytes.
fn settled(unit: UnitSpec) -> UnitSpec
    ensures { result ≡ settled unit }
{
    UnitSpec {
        bytes: with_some(unit.bytes),
        ..unit
    }
}

fn all_settled(alloc: Global, units: Items<UnitSpec>) -> Result<Items<UnitSpec>, NoMemory>
    ensures { IfOk result (λ us. us ≡ all_settled units) }
{
    let mut made = Items::new(alloc);
    let mut rest = units.into_vec().into_iter();
    while let Some(unit) = rest.next() {
        made.push(settled(unit))?;
    }
    Ok(made)
}

/// What a world is made of, as what a file says.
fn said_by(
    alloc: Global,
    spec: vehicle_world::VehicleSpec,
) -> Result<vehicle_file::VehicleSpec, NoMemory>
    ensures { IfOk result (λ v. v ≡ said_by spec) }
{
    Ok(vehicle_file::VehicleSpec {
        gateway: spec.gateway,
        units: all_settled(alloc, spec.units)?,
    })
}

/// What a file says, as what a world is made of.
fn spec_in(vehicle: vehicle_file::VehicleSpec) -> vehicle_world::VehicleSpec
    ensures { result ≡ spec_in vehicle }
{
    vehicle_world::VehicleSpec {
        gateway: vehicle.gateway,
        units: vehicle.units,
    }
}

/// The vehicle that the bytes of a file say, on a new connection at tick 0; or the first refusal.
pub fn read(alloc: Global, bytes: &[u8]) -> Result<World, BenchFault>
    ensures is { IfOk result (λ w. IsRead bytes.now (world_of w)) }
    ensures fresh { IfOk result (λ w. IsFresh (world_of w)) }
    ensures said { IfOk result (λ w. IsSaidWorld (world_of w)) }
    ensures fault { MatchResult result (λ _. ⊤)
        (λ e. (e ≡ BenchFault.NoMemory) ⊎ (vehicle_of bytes.now ≡ Err e)) }
{
    let vehicle = vehicle_file::read(alloc, bytes)?;
    let spec = spec_in(vehicle);
    let world = World::new(alloc, &spec)?;
    Ok(world)
}

/// The text of a world, which `read` gives back as the same vehicle on a new connection: ticks and counts
/// begin anew, and the troubles are those that remain.
pub fn save(alloc: Global, world: &World) -> Result<Bytes, NoMemory>
    ensures is { IfOk result (IsSave (world_of world.now)) }
    ensures back { IfOk result (ReadsBack (world_of world.now)) }
{
    let spec = world.spec(alloc)?;
    let vehicle = said_by(alloc, spec)?;
    let bytes = vehicle_text::write(alloc, &vehicle)?;
    Ok(bytes)
}
