//! A simulated vehicle with a record of what link calls did to it.

ghost use Rattle.std.specs.Prelude.{◌≡◌, ◌≤◌, ◌<◌, ◌^◌, ℕ, length};
ghost use Rattle.vehicle_world.specs.Saving.{IsVehicleSpec};
ghost use Rattle.vehicle_world.specs.Worlds.{made_of, world_of};
ghost use Rattle.bench_shop.specs.Deeds.{replayed};
ghost use Rattle.bench_shop.specs.Forms.{IsVehicleSpec-prop};
ghost use Rattle.bench_shop.specs.Pasts.{last_of, world_in, AreSteps};

use crate::entry::{Deed, Entry, again};
use crate::past::Past;
use disk_model::DeviceFault;
use flash_base::{Bytes, NoMemory};
use shop_model::{Got, each_link_call_is_unit_steps};
use std::alloc::Global;
use std::snapshot::Snapshot;
use vehicle_world::{VehicleSpec, World, nothing_sent};

/// Above each moment of a shop.
const NEVER: u64 = u64::MAX;

/// A vehicle, and what brings back what it was at each moment.
///
/// A call that finds no memory in the midst of its work ends the record: each later one fails, and the vehicle
/// stays.
#[derive(Drop)]
pub struct Bench {
    alloc: Global,
    // what it was made of
    start: VehicleSpec,
    world: World,
    // what was done to it up to the moment `reach`
    entries: Vec<Entry>,
    past: Past,
    reach: u64,
    hungry: u64,
    ghost form: { IsVehicleSpec start } by { IsVehicleSpec-prop start },
    ghost steps: { AreSteps past (world_of world) },
    ghost replays: { (m : ℕ) → m ≤ reach
        → ∥ replayed entries.items m (made_of start) ≡ world_in past (world_of world) m ∥₁ },
    ghost over: { (m : ℕ) → reach < m → ∥ world_in past (world_of world) m ≡ world_of world ∥₁ },
    ghost count: { length entries.items ≤ last_of past },
    ghost few: { last_of past ≤ 2 ^ 63 },
}

impl Bench {
    ghost use Rattle.std.specs.Prelude.{◌≡◌, ◌+◌, ◌-◌, ◌≤◌, ◌<◌, ◌^◌, ◌↔◌, true, false, IfOk, OnOk, IsTrue, length, min, take};
    ghost use Rattle.std.specs.Bool.{OnTrue, OnFalse};
    ghost use Rattle.shop_model.specs.History.{Sent, Received, Redialed, IsPiece};
    ghost use Rattle.vehicle_world.specs.Worlds.{fed, garbled, polled, redialed_world, IsFresh};
    ghost use Rattle.bench_shop.specs.declared.entry.Deed.TheVariants.{Fed, Garbled};
    ghost use Rattle.bench_shop.specs.Benches.{world_at, FailsHungry, Hungers, IsAnew, IsNewBench, Noted, Went};
    ghost use Rattle.bench_shop.specs.Pasts.{last_of, tick_of, vehicle_of};

    /// A vehicle to which nothing was done.
    pub(crate) fn new(alloc: Global, world: World) -> Result<Bench, NoMemory>
        requires { IsFresh (world_of world) }
        ensures { IfOk result (IsNewBench (world_of world)) }
    {
        each_link_call_is_unit_steps();
        let start = world.spec(alloc)?;
        Ok(Bench {
            alloc,
            start,
            world,
            entries: Vec::new(alloc),
            past: Past::Start,
            reach: NEVER,
            hungry: 0,
        })
    }

    /// The vehicle.
    pub(crate) fn world(&self) -> &World
        ensures { result.now ≡ self.now.world }
    {
        &self.world
    }

    /// How many calls found no memory.
    pub(crate) fn hungry(&self) -> u64
        ensures { result ≡ self.now.hungry }
    {
        self.hungry
    }

    /// What was done to it, as far as the record goes.
    pub(crate) fn entries(&self) -> &[Entry]
        ensures { result.now ≡ self.now.entries.items }
    {
        &self.entries
    }

    // A call that found no memory.
    fn hunger(&mut self)
        requires { self.old.hungry < 2 ^ 63 }
        ensures { Hungers self.old self.new }
    {
        self.hungry += 1;
    }

    // Puts a deed on the record before it is done. False where there is no memory, or was none before.
    fn note(&mut self, moment: u64, deed: Deed) -> bool
        requires last { last_of self.old.past ≤ moment }
        requires moment { moment < 2 ^ 63 }
        requires hungry { self.old.hungry < 2 ^ 63 }
        ensures yes { OnTrue result (Noted moment deed self.old self.new) }
        ensures no { OnFalse result (Hungers self.old self.new) }
    {
        if self.reach < NEVER {
            self.hunger();
            return false;
        }
        match self.entries.push(Entry { moment, deed }) {
            Ok(()) => {
                let world = Snapshot::of(&self.world);
                let before = Snapshot::of(&self.past);
                self.past = Past::Then(moment, world, before);
                self.reach = moment;
                true
            }
            Err(_) => {
                self.hunger();
                false
            }
        }
    }

    // The same, of a deed with these bytes.
    fn note_bytes(&mut self, moment: u64, bytes: &[u8], garbled: bool) -> bool
        requires last { last_of self.old.past ≤ moment }
        requires moment { moment < 2 ^ 63 }
        requires hungry { self.old.hungry < 2 ^ 63 }
        ensures fed { garbled ≡ false → OnTrue result (Noted moment (Fed bytes.now) self.old self.new) }
        ensures garbled { IsTrue garbled
            → OnTrue result (Noted moment (Garbled bytes.now) self.old self.new) }
        ensures no { OnFalse result (Hungers self.old self.new) }
    {
        let Ok(bytes) = Bytes::from_slice(self.alloc, bytes) else {
            self.hunger();
            return false;
        };
        let deed = if garbled {
            Deed::Garbled(bytes)
        } else {
            Deed::Fed(bytes)
        };
        self.note(moment, deed)
    }

    /// Feeds the bytes, if it may.
    pub(crate) fn send(&mut self, moment: u64, bytes: &[u8], may: bool) -> Result<(), DeviceFault>
        requires early { tick_of self.old.world < 2 ^ 63 }
        requires last { last_of self.old.past ≤ moment }
        requires moment { moment < 2 ^ 63 }
        requires hungry { self.old.hungry < 2 ^ 63 }
        ensures does { OnOk result (world_of self.new.world ≡ fed bytes.now (world_of self.old.world)) }
        ensures sent { Sent bytes.now (vehicle_of self.old.world) (vehicle_of self.new.world) result }
        ensures went { Went moment self.old self.new }
        ensures exact { FailsHungry may self.old self.new result }
        ensures tick { tick_of self.new.world ≡ tick_of self.old.world }
    {
        each_link_call_is_unit_steps();
        nothing_sent(&self.world);
        if !may {
            return Err(DeviceFault);
        }
        if !self.note_bytes(moment, bytes, false) {
            return Err(DeviceFault);
        }
        match self.world.feed(bytes) {
            Ok(()) => {
                self.reach = NEVER;
                Ok(())
            }
            Err(_) => {
                self.hungry += 1;
                Err(DeviceFault)
            }
        }
    }

    /// Takes what is due, if it may.
    pub(crate) fn receive(
        &mut self,
        moment: u64,
        out: &mut [u8],
        may: bool,
    ) -> Result<Got, DeviceFault>
        requires early { tick_of self.old.world < 2 ^ 63 }
        requires last { last_of self.old.past ≤ moment }
        requires moment { moment < 2 ^ 63 }
        requires hungry { self.old.hungry < 2 ^ 63 }
        requires room { 1 ≤ length out.old }
        ensures does { OnOk result (world_of self.new.world
            ≡ polled (length out.old) (world_of self.old.world)) }
        ensures piece { IfOk result (IsPiece (length out.old)) }
        ensures received { Received out.new (Unit {0}) (vehicle_of self.old.world) (vehicle_of self.new.world)
            result }
        ensures went { Went moment self.old self.new }
        ensures exact { FailsHungry may self.old self.new result }
        ensures tick { tick_of self.new.world ≤ tick_of self.old.world + 1 }
    {
        each_link_call_is_unit_steps();
        if !may {
            return Err(DeviceFault);
        }
        if !self.note(moment, Deed::Polled(out.len() as u64 - 1)) {
            return Err(DeviceFault);
        }
        match self.world.poll(out) {
            Ok(got) => {
                self.reach = NEVER;
                Ok(got)
            }
            Err(_) => {
                self.hungry += 1;
                Err(DeviceFault)
            }
        }
    }

    /// Brings the first bytes of a piece that is none of the gateway's, if it may: as many as there is room
    /// for.
    pub(crate) fn garble(
        &mut self,
        moment: u64,
        piece: &[u8],
        out: &mut [u8],
        may: bool,
    ) -> Result<Got, DeviceFault>
        requires last { last_of self.old.past ≤ moment }
        requires moment { moment < 2 ^ 63 }
        requires hungry { self.old.hungry < 2 ^ 63 }
        requires some { 1 ≤ length piece.now }
        requires room { 1 ≤ length out.old }
        ensures does { OnOk result (world_of self.new.world
            ≡ garbled (take (min (length piece.now) (length out.old)) piece.now) (world_of self.old.world)) }
        ensures piece { IfOk result (λ got. got ≡ Got.Bytes (min (length piece.now) (length out.old))) }
        ensures bytes { OnOk result (take (min (length piece.now) (length out.old)) out.new
            ≡ take (min (length piece.now) (length out.old)) piece.now) }
        ensures received { Received out.new ⊥ (vehicle_of self.old.world) (vehicle_of self.new.world) result }
        ensures went { Went moment self.old self.new }
        ensures exact { FailsHungry may self.old self.new result }
        ensures tick { tick_of self.new.world ≡ tick_of self.old.world }
    {
        each_link_call_is_unit_steps();
        let n = piece.len().min(out.len());
        let front = &piece[..n];
        if !may {
            return Err(DeviceFault);
        }
        if !self.note_bytes(moment, front, true) {
            return Err(DeviceFault);
        }
        match self.world.garble(front) {
            Ok(()) => {
                out[..n].copy_from_slice(front);
                self.reach = NEVER;
                Ok(Got::Bytes(n))
            }
            Err(_) => {
                self.hungry += 1;
                Err(DeviceFault)
            }
        }
    }

    /// Makes the connection new, if it may.
    pub(crate) fn redial(&mut self, moment: u64, may: bool) -> Result<(), DeviceFault>
        requires last { last_of self.old.past ≤ moment }
        requires moment { moment < 2 ^ 63 }
        requires hungry { self.old.hungry < 2 ^ 63 }
        ensures does { OnOk result (world_of self.new.world ≡ redialed_world (world_of self.old.world)) }
        ensures redialed { Redialed (vehicle_of self.old.world) (vehicle_of self.new.world) result }
        ensures went { Went moment self.old self.new }
        ensures exact { FailsHungry may self.old self.new result }
        ensures tick { tick_of self.new.world ≡ tick_of self.old.world }
    {
        each_link_call_is_unit_steps();
        if !may {
            return Err(DeviceFault);
        }
        if !self.note(moment, Deed::Redialed) {
            return Err(DeviceFault);
        }
        self.world.redial();
        self.reach = NEVER;
        Ok(())
    }

    // The vehicle of a moment, made again.
    fn replay(&self, alloc: Global, moment: u64) -> Result<World, NoMemory>
        requires { moment ≤ self.now.reach }
        ensures { IfOk result (λ w. ∥ world_of w ≡ world_at self.now moment ∥₁) }
    {
        let mut world = World::new(alloc, &self.start)?;
        for entry in &self.entries {
            if entry.moment < moment {
                again(alloc, &mut world, &entry.deed)?;
            }
        }
        Ok(world)
    }

    // The vehicle of a moment on a new connection, at tick 0, as a spec.
    fn spec_at(&self, alloc: Global, moment: u64) -> Result<VehicleSpec, NoMemory>
        ensures form { IfOk result IsVehicleSpec }
        ensures is { IfOk result (λ spec. IsAnew self.now moment (made_of spec).vehicle) }
    {
        if self.reach < moment {
            return self.world.spec(alloc);
        }
        let world = self.replay(alloc, moment)?;
        world.spec(alloc)
    }

    /// The vehicle of a moment on a new connection, at tick 0.
    pub(crate) fn at(&self, alloc: Global, moment: u64) -> Result<World, NoMemory>
        ensures fresh { IfOk result (λ w. IsFresh (world_of w)) }
        ensures is { IfOk result (λ w. IsAnew self.now moment (vehicle_of w)) }
    {
        let spec = self.spec_at(alloc, moment)?;
        World::new(alloc, &spec)
    }
}
