//! What a drill runs over: a shelf, a shop and a page of its own, of whose calls none is to fail.
ghost use Rattle.std.specs.Prelude.{◌≡◌, []};
ghost use Rattle.bench_shop.specs.Faults.{no_faults};
ghost use Rattle.flash_drill.specs.Own.{IsQuietFed};

use bench_shop::{DeviceFault, Faults, MemoryShop};
use flash_base::{Bytes, Files, NoMemory};
use flash_shelf::{MemoryShelf, MemorySink, Shelf, ShelfFault, Sink, SinkFault};
use shop_model::{Got, Shop};
use std::alloc::Global;
use vehicle_world::World;

/// A shelf in memory, of whose reads none is to fail.
#[derive(Drop)]
pub(crate) struct OwnShelf {
    shelf: MemoryShelf,
    ghost plain: { shelf.failing ≡ [] },
    ghost whole: { shelf.faults ≡ 0 },
}

/// A page in memory, of whose writes none is to fail but for want of memory.
#[derive(Drop)]
pub(crate) struct OwnPage {
    page: MemorySink,
    ghost plain: { page.failing ≡ [] },
    ghost whole: { page.starved ≡ 0 → page.faults ≡ 0 },
}

/// A shop in memory, of whose calls none is to fail but for want of memory, with a vehicle without troubles.
#[derive(Drop)]
pub(crate) struct OwnShop {
    shop: MemoryShop,
    ghost plain: { shop.plan ≡ no_faults },
    ghost quiet: { IsQuietFed shop },
}

impl OwnShelf {
    ghost use Rattle.std.specs.Prelude.{◌≡◌, IfOk};

    /// A shelf with these files.
    pub(crate) fn new(alloc: Global, files: &Files) -> Result<OwnShelf, NoMemory>
        ensures { IfOk result (λ s. s.shelf.files ≡ files.now) }
    {
        Ok(OwnShelf {
            shelf: MemoryShelf::new(alloc, files, &[])?,
        })
    }
}

impl Shelf for OwnShelf {
    ghost use Rattle.std.specs.Prelude.{◌≡◌, ◌≤◌, true};
    ghost use Rattle.flash_drill.specs.Own.{shelf_history};
    ghost use Rattle.flash_shelf.specs.Outside.{Came};

    ghost tells = { true };

    ghost history = { λ s. shelf_history s.shelf };

    fn read(&mut self, alloc: Global, name: &str) -> Result<Bytes, ShelfFault>
        ensures keeps { self.new.shelf.files ≡ self.old.shelf.files }
        ensures never_falls { self.old.shelf.faults ≤ self.new.shelf.faults }
        ensures came { Came true (shelf_history self.old.shelf) (shelf_history self.new.shelf) name.now result }
    {
        self.shelf.read(alloc, name)
    }
}

impl OwnPage {
    ghost use Rattle.std.specs.Prelude.{◌≡◌, [], IfOk};

    /// An empty page.
    pub(crate) fn new(alloc: Global) -> Result<OwnPage, NoMemory>
        ensures { IfOk result (λ p. p.page.written ≡ []) }
    {
        Ok(OwnPage {
            page: MemorySink::new(alloc, &[])?,
        })
    }

    /// What was written.
    pub(crate) fn written(&self) -> &[u8]
        ensures { result.now ≡ self.now.page.written }
    {
        self.page.written()
    }

    /// How many writes found no memory.
    pub(crate) fn starved(&self) -> u64
        ensures { result ≡ self.now.page.starved }
    {
        self.page.starved()
    }
}

impl Sink for OwnPage {
    ghost use Rattle.std.specs.Prelude.{◌≤◌, true};
    ghost use Rattle.flash_drill.specs.Own.{page_history};
    ghost use Rattle.flash_shelf.specs.Outside.{Went};

    ghost tells = { true };

    ghost history = { λ s. page_history s.page };

    fn write(&mut self, bytes: &[u8]) -> Result<(), SinkFault>
        ensures never_falls { self.old.page.faults ≤ self.new.page.faults }
        ensures went { Went true (page_history self.old.page) (page_history self.new.page) bytes.now result }
    {
        self.page.write(bytes)
    }
}

impl OwnShop {
    ghost use Rattle.std.specs.Prelude.{◌≡◌, [], IfOk};
    ghost use Rattle.bench_shop.specs.Faults.{no_faults};
    ghost use Rattle.bench_shop.specs.Shops.{starved_of, IsNew};
    ghost use Rattle.flash_drill.specs.Calm.{IsCalmState};
    ghost use Rattle.vehicle_world.specs.Worlds.{IsFresh, world_of};

    /// A shop with an empty file and this vehicle.
    pub(crate) fn new(alloc: Global, world: World) -> Result<OwnShop, NoMemory>
        requires fresh { IsFresh (world_of world) }
        requires calm { IsCalmState (world_of world).state }
        ensures { IfOk result (λ s. IsNew [] (world_of world) no_faults s.shop) }
    {
        Ok(OwnShop {
            shop: MemoryShop::new(alloc, &[], world, &Faults::none(alloc))?,
        })
    }

    /// The shop itself.
    pub(crate) fn shop(self) -> MemoryShop
        ensures { result ≡ self.shop }
    {
        self.shop
    }

    /// How many calls found no memory.
    pub(crate) fn starved(&self) -> u64
        ensures { result ≡ starved_of self.now.shop }
    {
        self.shop.starved()
    }
}

impl Shop for OwnShop {
    ghost use Rattle.std.specs.Prelude.{◌≡◌, ◌+◌, ◌≤◌, ◌<◌, ◌↔◌, true, IfOk, IsOk, OnOk, length, slice_range, IsTrue};
    ghost use Rattle.bench_shop.specs.Shops.{history_of};
    ghost use Rattle.flash_base.specs.Counts.{Rises};
    ghost use Rattle.mem_disk.specs.Laws.{readable_of};
    ghost use Rattle.shop_model.specs.History.{DiskCall, LinkCall, Len, ReadAt, WriteAt, Sync, Send, Receive, Redial, WroteOrMissed, SyncedOrNot, Sent, Received, Redialed, IsPiece, LAST, disk_now, vehicle_now};

    ghost tells_disk = { true };

    ghost tells_vehicle = { true };

    ghost history = { λ s. history_of s.shop };

    ghost bounded = { λ s. s.shop.disk.few };

    ghost readable = { λ s m. readable_of s.shop.disk m };

    ghost stepped = { λ s m told lt. s.shop.bench.steps m };

    fn len(&mut self) -> Result<u64, DeviceFault>
        ensures call { DiskCall Len (history_of self.old.shop) (history_of self.new.shop) result }
        ensures disk { disk_now (history_of self.new.shop) ≡ disk_now (history_of self.old.shop) }
        ensures len { IfOk result (λ n. n ≡ length (disk_now (history_of self.old.shop)).bytes) }
    {
        self.shop.len()
    }

    fn read_at(&mut self, at: u64, out: &mut [u8]) -> Result<(), DeviceFault>
        requires { at + length out.old ≤ length (disk_now (history_of self.old.shop)).bytes }
        ensures call { DiskCall (ReadAt at (length out.old)) (history_of self.old.shop) (history_of self.new.shop) result }
        ensures disk { disk_now (history_of self.new.shop) ≡ disk_now (history_of self.old.shop) }
        ensures bytes { OnOk result (out.new ≡ slice_range (disk_now (history_of self.old.shop)).bytes at
            (at + length out.old)) }
    {
        self.shop.read_at(at, out)
    }

    fn write_at(&mut self, at: u64, bytes: &[u8]) -> Result<(), DeviceFault>
        requires { at ≤ length (disk_now (history_of self.old.shop)).bytes }
        ensures call { DiskCall (WriteAt at bytes.now) (history_of self.old.shop) (history_of self.new.shop) result }
        ensures disk { WroteOrMissed at bytes.now (disk_now (history_of self.old.shop))
            (disk_now (history_of self.new.shop)) result }
    {
        self.shop.write_at(at, bytes)
    }

    fn sync(&mut self) -> Result<(), DeviceFault>
        ensures call { DiskCall Sync (history_of self.old.shop) (history_of self.new.shop) result }
        ensures disk { SyncedOrNot (disk_now (history_of self.old.shop)) (disk_now (history_of self.new.shop)) result }
    {
        self.shop.sync()
    }

    fn send(&mut self, bytes: &[u8]) -> Result<(), DeviceFault>
        requires linked { IsTrue (history_of self.old.shop).linked }
        requires some { 1 ≤ length bytes.now }
        requires few { length bytes.now ≤ 65600 }
        ensures call { LinkCall (Send bytes.now) (history_of self.old.shop) (history_of self.new.shop) result }
        ensures linked { (history_of self.new.shop).linked ≡ (history_of self.old.shop).linked }
        ensures vehicle { Sent bytes.now (vehicle_now (history_of self.old.shop))
            (vehicle_now (history_of self.new.shop)) result }
    {
        self.shop.send(bytes)
    }

    fn receive(&mut self, out: &mut [u8]) -> Result<Got, DeviceFault>
        requires linked { IsTrue (history_of self.old.shop).linked }
        requires room { 1 ≤ length out.old }
        ensures call { LinkCall Receive (history_of self.old.shop) (history_of self.new.shop) result }
        ensures linked { (history_of self.new.shop).linked ≡ (history_of self.old.shop).linked }
        ensures piece { IfOk result (IsPiece (length out.old)) }
        ensures vehicle { Received out.new
            (¬ Rises (history_of self.old.shop).link_faults (history_of self.new.shop).link_faults)
            (vehicle_now (history_of self.old.shop)) (vehicle_now (history_of self.new.shop)) result }
    {
        self.shop.receive(out)
    }

    fn redial(&mut self) -> Result<(), DeviceFault>
        ensures call { LinkCall Redial (history_of self.old.shop) (history_of self.new.shop) result }
        ensures linked { (history_of self.old.shop).moment < LAST
            → IsTrue (history_of self.new.shop).linked ↔ IsOk result }
        ensures last { (history_of self.old.shop).moment ≡ LAST
            → (history_of self.new.shop).linked ≡ (history_of self.old.shop).linked }
        ensures vehicle { Redialed (vehicle_now (history_of self.old.shop))
            (vehicle_now (history_of self.new.shop)) result }
    {
        self.shop.redial()
    }
}
