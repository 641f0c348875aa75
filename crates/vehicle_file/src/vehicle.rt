//! The vehicle that a file says.

ghost use Rattle.std.specs.Prelude.{◌≡◌, ◌⊎◌, Err, IfOk, map, min, nat_le};
ghost use Rattle.serde_json.specs.View.{view};
ghost use Rattle.vehicle_file.specs.Files.{address_in, fault_of, few_of, is_few, is_vehicle_member, MOST_MEMORY, memory_sizes, path_of, region_sizes, IsVehicleSpec, vehicle, vehicle_members, vehicle_of};
ghost use Rattle.vehicle_file.specs.Fields.{LAST_COUNT};
ghost use Rattle.vehicle_file.specs.declared.fault.BenchFault.{BenchFault};
ghost use Rattle.vehicle_file.specs.declared.fault.Refused.{Refused};

use crate::fault::{BenchFault, Refused};
use crate::forms::Four;
use crate::gateway::GateTroubles;
use crate::reading::{Members, chosen, needed, object_of};
use crate::unit::Units;
use flash_base::{Items, NoMemory, Text};
use gateway_sim::GatewaySpec;
use serde_json::{Category, Value};
use std::alloc::Global;
use unit_model::{RegionSpec, UnitSpec};

/// What a vehicle file says: a gateway and the units behind it. The gateway has their addresses in their order.
#[derive(Debug, Drop)]
pub struct VehicleSpec {
    pub gateway: GatewaySpec,
    pub units: Items<UnitSpec>,
}

/// The most units of a vehicle.
const MOST_UNITS: usize = 64;

/// The most bytes of memory of all its units.
const MOST_MEMORY: u64 = 67_108_864;

fn addresses(alloc: Global, units: &[UnitSpec]) -> Result<Items<u16>, NoMemory>
    ensures { IfOk result (λ made. made ≡ map address_in units.now) }
{
    let mut made = Items::new(alloc);
    for unit in units {
        made.push(unit.address)?;
    }
    Ok(made)
}

struct VehicleMembers;

impl Members for VehicleMembers {
    type Value = VehicleSpec;

    ghost has = { λ _ name. is_vehicle_member name };

    ghost reading = { λ _ d. vehicle_members d };

    fn is_member(&self, name: &str) -> bool {
        name == "entity" || name == "units" || name == "gateway"
    }

    fn read(&self, alloc: Global, value: &Value) -> Result<VehicleSpec, Refused> {
        let entity = needed(alloc, value, "entity", &Four)?;
        let units = needed(alloc, value, "units", &Units)?;
        let troubles = chosen(alloc, value, "gateway", Items::new(alloc), &GateTroubles)?;
        let gateway = GatewaySpec {
            entity,
            gateway: troubles,
            units: addresses(alloc, units.as_slice())?,
        };
        Ok(VehicleSpec { gateway, units })
    }
}

fn vehicle_in(alloc: Global, value: &Value) -> Result<VehicleSpec, Refused>
    ensures { (result ≡ Err Refused.NoMemory) ⊎ (result ≡ vehicle (view value.now)) }
{
    object_of(alloc, value, &VehicleMembers)
}

/// The sizes of the regions in all, as far as a number goes.
fn region_sizes(regions: &[RegionSpec]) -> u64
    ensures { result ≡ min (region_sizes regions.now) LAST_COUNT }
{
    let mut all: u64 = 0;
    for region in regions {
        all = all.saturating_add(region.size);
    }
    all
}

fn memory_sizes(units: &[UnitSpec]) -> u64
    ensures { result ≡ min (memory_sizes units.now) LAST_COUNT }
{
    let mut all: u64 = 0;
    for unit in units {
        all = all.saturating_add(region_sizes(unit.regions.as_slice()));
    }
    all
}

#[tactic(auto, using(crate::proofs::Steps::capped))]
fn has_few_bytes(units: &[UnitSpec]) -> bool
    ensures { result ≡ nat_le (memory_sizes units.now) MOST_MEMORY }
{
    memory_sizes(units) <= MOST_MEMORY
}

fn is_few(vehicle: &VehicleSpec) -> bool
    ensures { result ≡ is_few vehicle.now }
{
    if vehicle.units.len() > MOST_UNITS {
        return false;
    }
    has_few_bytes(vehicle.units.as_slice())
}

fn path_of(alloc: Global, path: Text) -> Result<Text, NoMemory>
    ensures { IfOk result (λ p. p ≡ path_of path) }
{
    if path.len() == 0 {
        return Text::from_str(alloc, "/");
    }
    Ok(path)
}

fn fault_of(alloc: Global, refused: Refused) -> BenchFault
    ensures { (result ≡ BenchFault.NoMemory) ⊎ (result ≡ fault_of refused) }
{
    match refused {
        Refused::NoMemory => BenchFault::NoMemory,
        Refused::Bad(path) => match path_of(alloc, path) {
            Ok(path) => BenchFault::BadField { path },
            Err(_) => BenchFault::NoMemory,
        },
    }
}

fn vehicle_from(alloc: Global, value: &Value) -> Result<VehicleSpec, BenchFault>
    ensures { (result ≡ Err BenchFault.NoMemory) ⊎ (result ≡ few_of (vehicle (view value.now))) }
{
    match vehicle_in(alloc, value) {
        Err(refused) => Err(fault_of(alloc, refused)),
        Ok(vehicle) => {
            if is_few(&vehicle) {
                Ok(vehicle)
            } else {
                Err(BenchFault::TooMany)
            }
        }
    }
}

/// The vehicle that the bytes of a file say, or the first refusal.
///
/// Members are tested in the order of the table, entries of a list in their order and inner members where their
/// outer one stands; a member that is not in the table behind all others of its object, the least name first.
/// How many units and bytes there are is tested last. Where a member stands twice, the last counts.
pub fn read(alloc: Global, bytes: &[u8]) -> Result<VehicleSpec, BenchFault>
    ensures is { (result ≡ Err BenchFault.NoMemory) ⊎ (result ≡ vehicle_of bytes.now) }
    ensures form { IfOk result IsVehicleSpec }
{
    match Value::from_slice(alloc, bytes) {
        Ok(value) => vehicle_from(alloc, &value),
        Err(fault) => match fault.classify() {
            Category::Memory => Err(BenchFault::NoMemory),
            _ => Err(BenchFault::NotJson),
        },
    }
}
