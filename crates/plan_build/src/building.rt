//! The one call: from the order file to the plan.
ghost use Rattle.std.specs.Prelude.{◌≡◌, ◌⊎◌, ◌≤◌, IsTrue, IfOk, IfSome, Err};
ghost use Rattle.ecu_mem.specs.Bounds as mem;
ghost use Rattle.flash_order.specs.Promises.{IsOrder};
ghost use Rattle.flash_shelf.specs.Outside.{Came, ReadFailed};
ghost use Rattle.plan_build.specs.Building.{built, built_by, tasks_built};
ghost use Rattle.plan_build.specs.Fetched.{came, Period, between, LiesIn};
ghost use Rattle.plan_build.specs.Whole.{IfShelf, IsWholePlan};

use crate::built::{Built, Catalogue};
use crate::catalogue::{catalogue_at, order_at};
use crate::fault::{BuildFault, Cause};
use crate::planning::planned;
use crate::refusals::input;
use crate::task::all_parts;
use flash_order::Order;
use flash_plan::What;
use flash_shelf::Shelf;
use std::alloc::Global;
use std::thread::Threads;

/// The most units of a plan.
const UNIT_LIMIT: usize = 64;

/// The plan of the tasks of an order.
fn tasks_built<R: Threads + Sync, F: Shelf>(
    rt: &R,
    alloc: Global,
    shelf: &mut F,
    name: &str,
    order: Order,
    catalogue: &Option<Catalogue>,
) -> Result<Built, BuildFault>
    requires order { IsOrder order }
    requires whole { IfSome catalogue.now (λ c. mem.IsWholeCatalogue c.mem) }
    ensures keeps { (F.history shelf.new).contents ≡ (F.history shelf.old).contents }
    ensures never_falls { (F.history shelf.old).faults ≤ (F.history shelf.new).faults }
    ensures read { (p : Period) → LiesIn p F.tells (F.history shelf.old) (F.history shelf.new)
        → (result ≡ Err BuildFault.NoMemory)
        ⊎ tasks_built (came p) name.now order catalogue.now result }
    ensures whole { IfOk result IsWholePlan }
{
    if order.tasks.len() > UNIT_LIMIT {
        return Err(input(alloc, name, Cause::TooMany { what: What::Units }));
    }
    let parts = all_parts(rt, alloc, shelf, name, catalogue, order.tasks.as_slice())?;
    planned(alloc, name, order, parts)
}

/// The plan of an order file, by what its reads give.
fn built_by<R: Threads + Sync, F: Shelf>(
    rt: &R,
    alloc: Global,
    shelf: &mut F,
    name: &str,
) -> Result<Built, BuildFault>
    ensures keeps { (F.history shelf.new).contents ≡ (F.history shelf.old).contents }
    ensures never_falls { (F.history shelf.old).faults ≤ (F.history shelf.new).faults }
    ensures read { (p : Period) → LiesIn p F.tells (F.history shelf.old) (F.history shelf.new)
        → (result ≡ Err BuildFault.NoMemory)
        ⊎ built_by (came p) name.now result }
    ensures whole { IfOk result IsWholePlan }
{
    let order = order_at(alloc, shelf, name)?;
    let catalogue = catalogue_at(alloc, shelf, &order.catalogue)?;
    tasks_built(rt, alloc, shelf, name, order, &catalogue)
}

/// The plan that the files of a shelf make of an order file, or the first refusal.
///
/// The work goes in this order: the order file is read and then parsed; the catalogue is read,
/// parsed as a tree and then resolved, where the order names one; more than 64 tasks are refused;
/// for each task in order its session is looked up, its expected idents get their identifiers,
/// its files are read, each once, and its image is made, whose bytes join the total; the plan is
/// accepted. Each refusal has the name of the file that its line speaks of.
///
/// Tasks are taken in batches: the files of at most 16 tasks are read, up to the first task that brings them to
/// 268,435,456 bytes, and then their images are made side by side. The answer is that of the order above, and
/// where a file is not read, the images of the tasks before it are made first.
///
/// Where the shelf tells its files, the answer is theirs, unless its count of faults rose. Where
/// it tells nothing, the answer is that of what its reads gave, and a refusal of the shelf comes
/// only where its count rose. Want of memory may come at any time.
pub fn build<R: Threads + Sync, F: Shelf>(
    rt: &R,
    alloc: Global,
    shelf: &mut F,
    name: &str,
) -> Result<Built, BuildFault>
    ensures keeps { (F.history shelf.new).contents ≡ (F.history shelf.old).contents }
    ensures never_falls { (F.history shelf.old).faults ≤ (F.history shelf.new).faults }
    ensures read { (result ≡ Err BuildFault.NoMemory)
        ⊎ built_by (came (between F.tells (F.history shelf.old) (F.history shelf.new))) name.now result }
    ensures told { IsTrue F.tells → (result ≡ Err BuildFault.NoMemory)
        ⊎ ReadFailed (F.history shelf.old) (F.history shelf.new)
        ⊎ built (F.history shelf.old).contents name.now result }
    ensures outside { IfShelf result
        (λ file fault. Came F.tells (F.history shelf.old) (F.history shelf.new) file (Err fault)) }
    ensures whole { IfOk result IsWholePlan }
{
    built_by(rt, alloc, shelf, name)
}
