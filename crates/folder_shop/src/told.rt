//! What a shop tells: the calls so far, the vehicle before each of them, and how many failed.
ghost use Rattle.std.specs.Prelude.{◌≡◌, ◌≤◌, ◌<◌, ◌^◌};
ghost use Rattle.folder_shop.specs.Moments.{depth};

use crate::moments::Past;
use disk_model::DeviceFault;
use mem_disk::Made;
use shop_model::each_link_call_is_unit_steps;
use std::snapshot::Snapshot;
use vehicle_world::World;

/// The last moment, at which every call fails.
const LAST: u64 = 1 << 63;

/// The calls so far. A call that found no memory is one that `starved`.
#[derive(Drop)]
pub struct Told {
    past: Past,
    moments: u64,
    disk_faults: u64,
    link_faults: u64,
    link_calls: u64,
    starved: u64,
    linked: bool,
    ghost depth: { depth past ≡ moments },
    ghost few: { moments ≤ 2 ^ 63 },
    ghost links: { link_calls ≤ moments },
    ghost starves: { starved ≤ moments },
    ghost disk_count: { disk_faults < 2 ^ 64 },
    ghost link_count: { link_faults < 2 ^ 64 },
}

impl Told {
    ghost use Rattle.std.specs.Prelude.{◌≡◌, ◌+◌, ◌<◌, ◌↔◌, Bool, IsTrue, IsErr, false};
    ghost use Rattle.unit_model.specs.Vehicle.{Vehicle};
    ghost use Rattle.shop_model.specs.History.{LAST, Call, DiskCall, LinkCall};
    ghost use Rattle.shop_model.specs.Stepping.{StepsUnits};
    ghost use Rattle.mem_disk.specs.Made.{call_of};
    ghost use Rattle.folder_shop.specs.Moments.{AreSteps, vehicle_of};
    ghost use Rattle.folder_shop.specs.Shops.{history, IsNew, MissedDisk, Passed};

    /// Nothing was called yet.
    pub(crate) fn new() -> Told
        ensures fresh { IsNew result }
        ensures steps { (v : Vehicle) → AreSteps result.past v }
    {
        Told {
            past: Past::Start,
            moments: 0,
            disk_faults: 0,
            link_faults: 0,
            link_calls: 0,
            starved: 0,
            linked: false,
        }
    }

    /// Whether it is the last moment.
    pub(crate) fn is_over(&self) -> bool
        ensures { IsTrue result ↔ self.now.moments ≡ LAST }
    {
        self.moments >= LAST
    }

    /// How many calls found no memory.
    pub(crate) fn starved(&self) -> u64
        ensures { result ≡ self.now.starved }
    {
        self.starved
    }

    /// Whether the last dial succeeded.
    pub(crate) fn is_linked(&self) -> bool
        ensures { result ≡ self.now.linked }
    {
        self.linked
    }

    /// How many link calls there were.
    pub(crate) fn link_calls(&self) -> u64
        ensures { result ≡ self.now.link_calls }
    {
        self.link_calls
    }

    /// A disk call at the last moment.
    pub(crate) fn late_disk_call<T>(&mut self) -> Result<T, DeviceFault>
        requires { self.old.moments ≡ LAST }
        ensures call { (call : Call) (v : Vehicle) → DiskCall call (history self.old v) (history self.new v) result }
        ensures past { self.new.past ≡ self.old.past }
        ensures links { self.new.link_calls ≡ self.old.link_calls }
    {
        self.disk_faults = self.disk_faults.saturating_add(1);
        Err(DeviceFault)
    }

    /// A link call at the last moment.
    pub(crate) fn late_link_call<T>(&mut self) -> Result<T, DeviceFault>
        requires { self.old.moments ≡ LAST }
        ensures fails { IsErr result }
        ensures call { (call : Call) (v : Vehicle) → LinkCall call (history self.old v) (history self.new v) result }
        ensures linked { self.new.linked ≡ self.old.linked }
        ensures past { self.new.past ≡ self.old.past }
        ensures links { self.new.link_calls ≡ self.old.link_calls }
    {
        self.link_faults = self.link_faults.saturating_add(1);
        Err(DeviceFault)
    }

    /// One moment more, to which this call led from this vehicle.
    fn pass(&mut self, made: Made, world: Snapshot<World>)
        requires { self.old.moments < LAST }
        ensures { Passed (call_of made) (vehicle_of world.value) self.old self.new }
    {
        let before = Snapshot::of(&self.past);
        self.past = Past::Then(Snapshot::of(&made), world, before);
        self.moments += 1;
    }

    /// Counts a disk call that failed, perhaps because there was no memory.
    fn miss_disk(&mut self, hungry: bool)
        requires { self.old.starved < self.old.moments }
        ensures { MissedDisk self.old self.new }
    {
        self.disk_faults = self.disk_faults.saturating_add(1);
        if hungry {
            self.starved += 1;
        }
    }

    /// A disk call with this answer, where the vehicle is this one. One that failed may have found no memory.
    pub(crate) fn disk_call<T>(
        &mut self,
        made: Made,
        world: Snapshot<World>,
        answer: Option<T>,
        hungry: bool,
    ) -> Result<T, DeviceFault>
        requires { self.old.moments < LAST }
        ensures call { DiskCall (call_of made) (history self.old (vehicle_of world.value))
            (history self.new (vehicle_of world.value)) result }
        ensures steps { AreSteps self.old.past (vehicle_of world.value)
            → AreSteps self.new.past (vehicle_of world.value) }
        ensures links { self.new.link_calls ≡ self.old.link_calls }
    {
        each_link_call_is_unit_steps();
        self.pass(made, world);
        match answer {
            Some(value) => Ok(value),
            None => {
                self.miss_disk(hungry);
                Err(DeviceFault)
            }
        }
    }

    /// A link call with this answer, which led from this vehicle to the next one. One that failed found no memory.
    pub(crate) fn link_call<T>(
        &mut self,
        made: Made,
        world: Snapshot<World>,
        answer: Result<T, DeviceFault>,
        linked: bool,
    ) -> Result<T, DeviceFault>
        requires { self.old.moments < LAST }
        ensures same { result ≡ answer }
        ensures call { (v : Vehicle) → LinkCall (call_of made) (history self.old (vehicle_of world.value))
            (history self.new v) result }
        ensures linked { self.new.linked ≡ linked }
        ensures steps { (v : Vehicle) → ∥ StepsUnits (vehicle_of world.value) v ∥₁
            → AreSteps self.old.past (vehicle_of world.value) → AreSteps self.new.past v }
        ensures links { self.new.link_calls ≡ self.old.link_calls + 1 }
        ensures exact { IsErr result ↔ self.old.starved < self.new.starved }
    {
        self.pass(made, world);
        self.link_calls += 1;
        self.linked = linked;
        if answer.is_err() {
            self.starved += 1;
            self.link_faults = self.link_faults.saturating_add(1);
        }
        answer
    }
}
