//! What a drill runs over: a shelf with its files, and a shop with a fresh disk and its vehicle.
ghost use Rattle.std.specs.Prelude.{◌≡◌, ◌≤◌, [], IfOk};
ghost use Rattle.bench_gen.specs.Files.{AreFiles};
ghost use Rattle.bench_shop.specs.Faults.{no_faults};
ghost use Rattle.bench_shop.specs.Shops.{IsNew};
ghost use Rattle.vehicle_world.specs.Worlds.{IsFresh, made_of, world_of};
ghost use Rattle.flash_drill.specs.Drilling.{spec_of_drill};

use crate::own::{OwnShelf, OwnShop};
use bench_gen::{files, vehicle_text};
use drill_law::units_match;
use flash_base::NoMemory;
use std::alloc::Global;
use vehicle_world::World;
use world_file::read;

/// A shelf with the files of drill `n`.
pub(crate) fn shelf_of(alloc: Global, n: u32) -> Result<OwnShelf, NoMemory>
    requires { n ≤ 999999 }
    ensures { IfOk result (λ s. AreFiles n s.shelf.files) }
{
    let files = files(alloc, n)?;
    OwnShelf::new(alloc, &files)
}

/// The vehicle of drill `n`, as its text says.
fn world_of(alloc: Global, n: u32) -> Result<World, NoMemory>
    requires { n ≤ 999999 }
    ensures is { IfOk result (λ w. world_of w ≡ made_of (spec_of_drill n)) }
    ensures fresh { IfOk result (λ w. IsFresh (world_of w)) }
{
    units_match();
    let text = vehicle_text(alloc, n)?;
    match read(alloc, text.as_slice()) {
        Ok(world) => Ok(world),
        Err(_) => Err(NoMemory),
    }
}

/// A shop with an empty journal and the vehicle of drill `n`.
pub(crate) fn shop_of(alloc: Global, n: u32) -> Result<OwnShop, NoMemory>
    requires { n ≤ 999999 }
    ensures { IfOk result (λ s. IsNew [] (made_of (spec_of_drill n)) no_faults s.shop) }
{
    let world = world_of(alloc, n)?;
    OwnShop::new(alloc, world)
}
