//! Vehicles of plain units, at addresses from 1001 on: each has one region, at 1000.
ghost use Rattle.std.specs.Prelude.{◌≡◌, IfOk};
ghost use Rattle.vehicle_world.specs.Worlds.{IsFresh, world_of};

use bench_shop::{Faults, MemoryShop};
use flash_base::NoMemory;
use std::alloc::{AllocError, Global};
use vehicle_world::World;

/// The troubles of a unit that answers so many transfers, and each of them so many ticks later.
pub(crate) fn delays(alloc: Global, transfers: u32, ticks: u32) -> Result<String, AllocError> {
    let mut text = String::new(alloc);
    for i in 0..transfers {
        let nth = u64::from(i) + 1;
        let comma = if i == 0 { "" } else { "," };
        write!(
            text,
            "{comma}{{\"sid\":\"36\",\"nth\":{nth},\"do\":\"delay\",\"ticks\":{ticks}}}"
        )?;
    }
    Ok(text)
}

/// The trouble of a unit that is not done with its first request until unit 1001 has heard the end of its transfer.
pub(crate) const WAITS: &str =
    "{\"sid\":\"10\",\"nth\":1,\"do\":\"pending\",\"ticks\":500,\"until\":{\"unit\":\"1001\",\"sid\":\"37\"}}";

/// Puts a unit with a region of so many bytes.
fn push_unit(text: &mut String, number: u16, size: u32, troubles: &str) -> Result<(), AllocError> {
    let comma = if number == 0 { "" } else { "," };
    let address = number.wrapping_add(0x1001);
    write!(
        text,
        "{comma}{{\"address\":\"{address:04X}\",\"check\":\"0202\",\"regions\":[{{\"at\":\"1000\",\"fill\":\"FF\",\"size\":{size}}}],\"troubles\":[{troubles}]}}"
    )
}

/// The file of a vehicle.
fn text(
    alloc: Global,
    units: u16,
    size: u32,
    first: &str,
    others: &str,
) -> Result<String, AllocError> {
    let mut text = String::from_str(alloc, "{\"entity\":\"4000\",\"units\":[")?;
    for number in 0..units {
        let troubles = if number == 0 { first } else { others };
        push_unit(&mut text, number, size, troubles)?;
    }
    text.push_str("]}")?;
    Ok(text)
}

/// A vehicle of so many units with regions of so many bytes: the first has these troubles, and each other one those.
pub(crate) fn world(
    alloc: Global,
    units: u16,
    size: u32,
    first: &str,
    others: &str,
) -> Result<World, NoMemory>
    ensures { IfOk result (λ w. IsFresh (world_of w)) }
{
    let text = text(alloc, units, size, first, others)?;
    match world_file::read(alloc, text.as_str().as_bytes()) {
        Ok(world) => Ok(world),
        Err(_) => Err(NoMemory),
    }
}

/// A shop with an empty journal and this vehicle, at which no call fails.
pub(crate) fn shop(alloc: Global, world: World) -> Result<MemoryShop, NoMemory>
    requires { IsFresh (world_of world) }
{
    let none = Faults::none(alloc);
    MemoryShop::new(alloc, &[], world, &none)
}
