//! The shop.
ghost use Rattle.std.specs.Prelude.{◌≡◌, ◌+◌, ◌≤◌};
ghost use Rattle.mem_disk.specs.Disks.{moment_of};
ghost use Rattle.bench_shop.specs.Faults.{IsFaults};
ghost use Rattle.bench_shop.specs.Pasts.{last_of, tick_of};

use crate::bench::Bench;
use crate::entry::Entry;
use crate::faults::{Faults, copied, piece_for};
use crate::link::{begin, late};
use crate::taking::{is_faulty, take};
use disk_model::{DeviceFault, Pick};
use flash_base::NoMemory;
use mem_disk::{Made as Call, MemDisk, seen};
use shop_model::{Got, Shop};
use std::alloc::Global;
use vehicle_world::{World, nothing_sent};

/// How many calls there were.
#[derive(Debug, Clone, Copy, PartialEq, Drop)]
pub struct Made {
    /// Calls of the disk, failed ones too.
    pub disk: u64,
    /// Calls of the link, failed ones too.
    pub link: u64,
    /// Receives among them, failed ones too.
    pub receives: u64,
    /// All calls; at the last moment, 2^63, a call is counted no more.
    pub moments: u64,
}

/// A disk and a simulated vehicle in memory, with a record of all calls. It tells both.
///
/// Before the last moment a call fails just where it is listed, or where there was no memory. Behind a call that found no memory
/// in the midst of its work each later one of its kind fails.
#[derive(Drop)]
pub struct MemoryShop {
    plan: Faults,
    disk: MemDisk,
    bench: Bench,
    receives: u64,
    ghost form: { IsFaults plan },
    ghost listed: { disk.failing.items ≡ plan.disk },
    ghost last: { last_of bench.past ≤ moment_of disk },
    ghost hunger: { bench.hungry + disk.starved ≤ moment_of disk },
    ghost tick: { tick_of bench.world ≤ disk.link_calls },
    ghost few_receives: { receives ≤ disk.link_calls },
}

impl MemoryShop {
    ghost use Rattle.std.specs.Prelude.{◌≡◌, ◌≤◌, IfOk};
    ghost use Rattle.vehicle_world.specs.Worlds.{IsFresh, world_of};
    ghost use Rattle.bench_shop.specs.Shops.{history_of, made_of, starved_of, IsCrashed, IsNew};

    /// A shop whose file has these bytes, before any call. Of the plan it keeps a copy.
    pub fn new(
        alloc: Global,
        image: &[u8],
        world: World,
        plan: &Faults,
    ) -> Result<MemoryShop, NoMemory>
        requires fresh { IsFresh (world_of world) }
        requires plan { IsFaults plan.now }
        ensures { IfOk result (IsNew image.now (world_of world) plan.now) }
    {
        Ok(MemoryShop {
            disk: MemDisk::new(alloc, image, plan.disk.as_slice())?,
            plan: copied(alloc, plan)?,
            bench: Bench::new(alloc, world)?,
            receives: 0,
        })
    }

    /// The vehicle.
    pub fn world(&self) -> &World
        ensures { result.now ≡ self.now.bench.world }
    {
        self.bench.world()
    }

    /// What link calls did to the vehicle, in their order, those aside that failed.
    pub fn done(&self) -> &[Entry]
        ensures { result.now ≡ self.now.bench.entries.items }
    {
        self.bench.entries()
    }

    /// How many calls failed because the shop itself found no memory.
    pub fn starved(&self) -> u64
        ensures { result ≡ starved_of self.now }
    {
        self.disk.starved() + self.bench.hungry()
    }

    /// How many calls there were.
    pub fn made(&self) -> Made
        ensures { result ≡ made_of self.now }
    {
        Made {
            disk: self.disk.disk_calls(),
            link: self.disk.link_calls(),
            receives: self.receives,
            moments: self.disk.calls(),
        }
    }

    /// A new shop, of whose calls none is to fail, as a stop at this moment leaves things: the file holds that one of the images
    /// which the pick names, and the vehicle is that of the moment on a new connection, at tick 0.
    pub fn crash(&self, alloc: Global, moment: u64, pick: Pick) -> Result<MemoryShop, NoMemory>
        requires { moment ≤ (history_of self.now).moment }
        ensures { IfOk result (IsCrashed self.now moment pick) }
    {
        let image = self.disk.crash(alloc, moment, pick)?;
        let world = self.bench.at(alloc, moment)?;
        MemoryShop::new(alloc, image.as_slice(), world, &Faults::none(alloc))
    }
}

impl Shop for MemoryShop {
    ghost use Rattle.std.specs.Prelude.{◌≡◌, ◌+◌, ◌≤◌, ◌<◌, ◌↔◌, None, true, IfOk, IsOk, OnOk, length, slice_range, IsTrue};
    ghost use Rattle.shop_model.specs.History.{DiskCall, LinkCall, Len, ReadAt, WriteAt, Sync, Send, Receive, Redial, WroteOrMissed, SyncedOrNot, Sent, Received, Redialed, IsPiece, LAST, disk_now, vehicle_now};
    ghost use Rattle.mem_disk.specs.Laws.{readable_of};
    ghost use Rattle.bench_shop.specs.Shops.{history_of, piece_now, DiskFails, Garbles, KeepsBench, KeepsPlan, LinkFails};
    ghost use Rattle.vehicle_world.specs.Worlds.{fed, polled, redialed_world, world_of};
    ghost use Rattle.flash_base.specs.Counts.{Rises};

    ghost tells_disk = { true };

    ghost tells_vehicle = { true };

    ghost history = { history_of };

    ghost bounded = { λ s. s.disk.few };

    ghost readable = { λ s m. readable_of s.disk m };

    ghost stepped = { λ s m told lt. s.bench.steps m };

    fn len(&mut self) -> Result<u64, DeviceFault>
        ensures call { DiskCall Len (history_of self.old) (history_of self.new) result }
        ensures disk { disk_now (history_of self.new) ≡ disk_now (history_of self.old) }
        ensures len { IfOk result (λ n. n ≡ length (disk_now (history_of self.old)).bytes) }
        ensures exact { DiskFails self.old self.new result }
        ensures kept { KeepsBench self.old self.new }
        ensures counted { OnOk result (self.new.disk.disk_faults ≡ self.old.disk.disk_faults) }
    {
        self.disk.len()
    }

    fn read_at(&mut self, at: u64, out: &mut [u8]) -> Result<(), DeviceFault>
        requires { at + length out.old ≤ length (disk_now (history_of self.old)).bytes }
        ensures call { DiskCall (ReadAt at (length out.old)) (history_of self.old) (history_of self.new) result }
        ensures disk { disk_now (history_of self.new) ≡ disk_now (history_of self.old) }
        ensures bytes { OnOk result (out.new ≡ slice_range (disk_now (history_of self.old)).bytes at
            (at + length out.old)) }
        ensures exact { DiskFails self.old self.new result }
        ensures kept { KeepsBench self.old self.new }
        ensures counted { OnOk result (self.new.disk.disk_faults ≡ self.old.disk.disk_faults) }
    {
        self.disk.read_at(at, out)
    }

    fn write_at(&mut self, at: u64, bytes: &[u8]) -> Result<(), DeviceFault>
        requires { at ≤ length (disk_now (history_of self.old)).bytes }
        ensures call { DiskCall (WriteAt at bytes.now) (history_of self.old) (history_of self.new) result }
        ensures disk { WroteOrMissed at bytes.now (disk_now (history_of self.old))
            (disk_now (history_of self.new)) result }
        ensures exact { DiskFails self.old self.new result }
        ensures kept { KeepsBench self.old self.new }
        ensures counted { OnOk result (self.new.disk.disk_faults ≡ self.old.disk.disk_faults) }
    {
        self.disk.write_at(at, bytes)
    }

    fn sync(&mut self) -> Result<(), DeviceFault>
        ensures call { DiskCall Sync (history_of self.old) (history_of self.new) result }
        ensures disk { SyncedOrNot (disk_now (history_of self.old)) (disk_now (history_of self.new)) result }
        ensures exact { DiskFails self.old self.new result }
        ensures kept { KeepsBench self.old self.new }
        ensures counted { OnOk result (self.new.disk.disk_faults ≡ self.old.disk.disk_faults) }
    {
        self.disk.sync()
    }

    fn send(&mut self, bytes: &[u8]) -> Result<(), DeviceFault>
        requires linked { IsTrue (history_of self.old).linked }
        requires some { 1 ≤ length bytes.now }
        requires few { length bytes.now ≤ 65600 }
        ensures call { LinkCall (Send bytes.now) (history_of self.old) (history_of self.new) result }
        ensures linked { (history_of self.new).linked ≡ (history_of self.old).linked }
        ensures vehicle { Sent bytes.now (vehicle_now (history_of self.old)) (vehicle_now (history_of self.new)) result }
        ensures exact { LinkFails self.old self.new result }
        ensures kept { KeepsPlan self.old self.new }
        ensures counted { OnOk result (self.new.disk.link_faults ≡ self.old.disk.link_faults) }
        ensures does { OnOk result (world_of self.new.bench.world ≡ fed bytes.now (world_of self.old.bench.world)) }
    {
        if self.disk.is_over() {
            nothing_sent(self.bench.world());
            late(&mut self.disk);
            return Err(DeviceFault);
        }
        let moment = self.disk.calls();
        let may = begin(&mut self.disk, &self.plan, Call::Send(seen(bytes)));
        let sent = self.bench.send(moment, bytes, may);
        let linked = self.disk.is_linked();
        self.disk.end_link(sent.is_err(), linked);
        sent
    }

    fn receive(&mut self, out: &mut [u8]) -> Result<Got, DeviceFault>
        requires linked { IsTrue (history_of self.old).linked }
        requires room { 1 ≤ length out.old }
        ensures call { LinkCall Receive (history_of self.old) (history_of self.new) result }
        ensures linked { (history_of self.new).linked ≡ (history_of self.old).linked }
        ensures piece { IfOk result (IsPiece (length out.old)) }
        ensures vehicle { Received out.new (¬ Rises (history_of self.old).link_faults (history_of self.new).link_faults)
            (vehicle_now (history_of self.old)) (vehicle_now (history_of self.new)) result }
        ensures garbled { IfOk result (Garbles (piece_now self.old) out.new self.old self.new) }
        ensures exact { LinkFails self.old self.new result }
        ensures kept { KeepsPlan self.old self.new }
        ensures does { piece_now self.old ≡ None
            → OnOk result (world_of self.new.bench.world ≡ polled (length out.old) (world_of self.old.bench.world)) }
    {
        if self.disk.is_over() {
            late(&mut self.disk);
            return Err(DeviceFault);
        }
        let moment = self.disk.calls();
        let may = begin(&mut self.disk, &self.plan, Call::Receive);
        let number = self.receives;
        self.receives += 1;
        let piece = piece_for(self.plan.garbled.as_slice(), number);
        let got = take(&mut self.bench, moment, piece, out, may);
        let faulty = is_faulty(&got, piece);
        let linked = self.disk.is_linked();
        self.disk.end_link(faulty, linked);
        got
    }

    fn redial(&mut self) -> Result<(), DeviceFault>
        ensures call { LinkCall Redial (history_of self.old) (history_of self.new) result }
        ensures linked { (history_of self.old).moment < LAST → IsTrue (history_of self.new).linked ↔ IsOk result }
        ensures last { (history_of self.old).moment ≡ LAST → (history_of self.new).linked ≡ (history_of self.old).linked }
        ensures vehicle { Redialed (vehicle_now (history_of self.old)) (vehicle_now (history_of self.new)) result }
        ensures exact { LinkFails self.old self.new result }
        ensures kept { KeepsPlan self.old self.new }
        ensures counted { OnOk result (self.new.disk.link_faults ≡ self.old.disk.link_faults) }
        ensures does { OnOk result (world_of self.new.bench.world ≡ redialed_world (world_of self.old.bench.world)) }
    {
        if self.disk.is_over() {
            late(&mut self.disk);
            return Err(DeviceFault);
        }
        let moment = self.disk.calls();
        let may = begin(&mut self.disk, &self.plan, Call::Redial);
        let dialed = self.bench.redial(moment, may);
        self.disk.end_link(dialed.is_err(), dialed.is_ok());
        dialed
    }
}
