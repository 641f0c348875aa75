//! The shop.
ghost use Rattle.std.specs.Prelude.{◌≤◌};
ghost use Rattle.folder_shop.specs.Moments.{tick_of, vehicle_of, AreSteps};

use crate::fault::{BenchFault, SaveFault};
use crate::feeding;
use crate::opening::{find, head_on};
use crate::told::Told;
use bench_files::BenchFiles;
use call_log::{LinkCall, spelled};
use disk_model::DeviceFault;
use flash_base::{Bytes, NoMemory};
use mem_disk::{Made, seen};
use shop_model::Shop;
use std::alloc::Global;
use std::fs::File;
use std::rt::Files as FileSystem;
use std::snapshot::Snapshot;
use unit_model::Got;
use vehicle_world::{World, nothing_sent};

/// The journal of a folder, and the vehicle of its files. Whenever the process ends, the files hold the vehicle as it
/// was behind the last call of the link that had returned, or behind the one under way.
///
/// The journal is locked from its first write or sync on. A disk call fails where the system refuses, where another
/// process has the journal, or where a call of the link could not be kept; a link call where there was no memory, and
/// from then on.
#[derive(Drop)]
pub struct BenchShop<R> {
    alloc: Global,
    files: BenchFiles<R>,
    // the first bytes of the file of calls
    head: Bytes,
    // the vehicle's file is not this vehicle's
    unsaved: bool,
    world: World,
    told: Told,
    // a link call found no memory
    hungry: bool,
    ghost tick: { tick_of world ≤ told.link_calls },
    ghost steps: { AreSteps told.past (vehicle_of world) },
}

impl<R> BenchShop<R> {
    ghost use Rattle.std.specs.Prelude.{◌≡◌, nat_lt};

    /// The vehicle.
    pub fn world(&self) -> &World
        ensures { result.now ≡ self.now.world }
    {
        &self.world
    }

    /// How many calls failed because the shop itself found no memory.
    pub fn starved(&self) -> u64
        ensures { result ≡ self.now.told.starved }
    {
        self.told.starved()
    }

    /// Whether a link call was made.
    pub fn has_moved(&self) -> bool
        ensures { result ≡ nat_lt 0 self.now.told.link_calls }
    {
        0 < self.told.link_calls()
    }

    /// Whether another process has the journal.
    pub fn is_theirs(&self) -> bool {
        self.files.is_theirs()
    }

    /// Whether another process has written the vehicle since it was read.
    pub fn has_changed(&self) -> bool {
        self.files.has_changed()
    }
}

impl<R: FileSystem<File = File> + Drop> BenchShop<R> {
    ghost use Rattle.std.specs.Prelude.{◌≤◌, length, IfOk};
    ghost use Rattle.call_log.specs.Log.{IsKeepable};
    ghost use Rattle.folder_shop.specs.Shops.{IsNew, SameVehicle};

    /// The shop of a folder, which is named as the system names it (`.` is the present one). Where it has no
    /// `bench.json` the vehicle has the gateway 4000 and no units. No file is written.
    pub fn at(rt: R, alloc: Global, folder: &str) -> Result<BenchShop<R>, BenchFault>
        ensures { IfOk result (λ s. IsNew s.told) }
    {
        let mut files = BenchFiles::new(rt, alloc, folder)?;
        let found = find(&mut files, alloc)?;
        Ok(BenchShop {
            alloc,
            files,
            head: found.head,
            unsaved: found.unsaved,
            world: found.world,
            told: Told::new(),
            hungry: false,
        })
    }

    // Writes the vehicle's file. False where that cannot be done.
    fn write(&mut self) -> Result<bool, NoMemory>
        ensures { SameVehicle self.old.world self.old.told self.new.world self.new.told }
    {
        let text = world_file::save(self.alloc, &self.world)?;
        let head = head_on(self.alloc, text.as_slice())?;
        if !self.files.replace_vehicle(text.as_slice()) {
            return Ok(false);
        }
        self.head = head;
        self.unsaved = false;
        Ok(true)
    }

    // Asks for the journal, and writes the vehicle's file where a run was killed.
    fn settle(&mut self) -> Result<(), NoMemory>
        ensures { SameVehicle self.old.world self.old.told self.new.world self.new.told }
    {
        if self.files.hold() && self.unsaved {
            self.write()?;
        }
        Ok(())
    }

    /// Writes the vehicle's file, where this process has the journal, and leaves nothing else beside it. Where it has
    /// not, nothing is written.
    pub fn save_to_disk(&mut self) -> Result<(), SaveFault>
        ensures { SameVehicle self.old.world self.old.told self.new.world self.new.told }
    {
        if !self.files.is_held() {
            return Ok(());
        }
        if self.write()? {
            Ok(())
        } else {
            Err(SaveFault::Unwritten)
        }
    }

    // Keeps a link call before it is made. False where there is no memory for it, or was none before.
    fn keep(&mut self, call: &LinkCall) -> bool
        requires { IsKeepable call.now }
        ensures { SameVehicle self.old.world self.old.told self.new.world self.new.told }
    {
        if self.hungry || self.settle().is_err() {
            return false;
        }
        let Ok(bytes) = spelled(self.alloc, call) else {
            return false;
        };
        self.files.add_call(self.head.as_slice(), bytes.as_slice());
        true
    }

    // Keeps a send before it is made.
    fn keep_send(&mut self, bytes: &[u8]) -> bool
        requires some { 1 ≤ length bytes.now }
        requires few { length bytes.now ≤ 65600 }
        ensures { SameVehicle self.old.world self.old.told self.new.world self.new.told }
    {
        let Ok(bytes) = Bytes::from_slice(self.alloc, bytes) else {
            return false;
        };
        self.keep(&LinkCall::Send { bytes })
    }

    // Keeps a receive into so much room before it is made.
    fn keep_receive(&mut self, room: usize) -> bool
        ensures { SameVehicle self.old.world self.old.told self.new.world self.new.told }
    {
        // no memory has room for more
        let Ok(room) = u32::try_from(room) else {
            return false;
        };
        self.keep(&LinkCall::Receive { room })
    }
}

// What a call of the system did.
fn done(went: bool) -> Option<()> {
    if went { Some(()) } else { None }
}

impl<R: FileSystem<File = File> + Drop> Shop for BenchShop<R> {
    ghost use Rattle.std.proofs.Common.{arith};
    ghost use Rattle.std.specs.Prelude.{◌≡◌, ◌≤◌, ◌<◌, ◌↔◌, true, false, length, IfOk, IsOk, IsTrue};
    ghost use Rattle.flash_base.specs.Counts.{Rises};
    ghost use Rattle.shop_model.specs.History.{LAST, LinkCall as IsLinkCall, Send, Receive, Redial, Sent, Received, Redialed, IsPiece, vehicle_now};
    ghost use Rattle.folder_shop.specs.Shops.{history_of, nothing_left, FailsHungry};

    ghost tells_disk = { false };

    ghost tells_vehicle = { true };

    ghost history = { history_of };

    ghost bounded = { λ s. s.told.few };

    ghost readable = { λ s m. nothing_left };

    ghost stepped = { λ s m told lt. s.steps m (omega (arith, lt, s.told.depth)) };

    fn len(&mut self) -> Result<u64, DeviceFault> {
        if self.told.is_over() {
            return self.told.late_disk_call();
        }
        let world = Snapshot::of(&self.world);
        let answer = self.files.journal_len();
        self.told.disk_call(Made::Len, world, answer, false)
    }

    fn read_at(&mut self, at: u64, out: &mut [u8]) -> Result<(), DeviceFault> {
        if self.told.is_over() {
            return self.told.late_disk_call();
        }
        let world = Snapshot::of(&self.world);
        let made = Made::ReadAt(at, out.len() as u64);
        let answer = done(self.files.read_journal(at, out));
        self.told.disk_call(made, world, answer, false)
    }

    fn write_at(&mut self, at: u64, bytes: &[u8]) -> Result<(), DeviceFault> {
        if self.told.is_over() {
            return self.told.late_disk_call();
        }
        let world = Snapshot::of(&self.world);
        let hungry = self.settle().is_err();
        let answer = done(!hungry && self.files.write_journal(at, bytes));
        self.told
            .disk_call(Made::WriteAt(at, seen(bytes)), world, answer, hungry)
    }

    fn sync(&mut self) -> Result<(), DeviceFault> {
        if self.told.is_over() {
            return self.told.late_disk_call();
        }
        let world = Snapshot::of(&self.world);
        let hungry = self.settle().is_err();
        let answer = done(!hungry && self.files.sync_journal());
        self.told.disk_call(Made::Sync, world, answer, hungry)
    }

    fn send(&mut self, bytes: &[u8]) -> Result<(), DeviceFault>
        requires linked { IsTrue (history_of self.old).linked }
        requires some { 1 ≤ length bytes.now }
        requires few { length bytes.now ≤ 65600 }
        ensures call { IsLinkCall (Send bytes.now) (history_of self.old) (history_of self.new) result }
        ensures linked { (history_of self.new).linked ≡ (history_of self.old).linked }
        ensures vehicle { Sent bytes.now (vehicle_now (history_of self.old)) (vehicle_now (history_of self.new))
            result }
        ensures exact { FailsHungry self.old.told self.new.told result }
    {
        if self.told.is_over() {
            nothing_sent(&self.world);
            return self.told.late_link_call();
        }
        let world = Snapshot::of(&self.world);
        let may = self.keep_send(bytes);
        let answer = feeding::send(&mut self.world, bytes, may);
        self.hungry = self.hungry || answer.is_err();
        let linked = self.told.is_linked();
        self.told
            .link_call(Made::Send(seen(bytes)), world, answer, linked)
    }

    fn receive(&mut self, out: &mut [u8]) -> Result<Got, DeviceFault>
        requires linked { IsTrue (history_of self.old).linked }
        requires room { 1 ≤ length out.old }
        ensures call { IsLinkCall Receive (history_of self.old) (history_of self.new) result }
        ensures linked { (history_of self.new).linked ≡ (history_of self.old).linked }
        ensures piece { IfOk result (IsPiece (length out.old)) }
        ensures vehicle { Received out.new (Unit {0}) (vehicle_now (history_of self.old))
            (vehicle_now (history_of self.new)) result }
        ensures exact { FailsHungry self.old.told self.new.told result }
    {
        if self.told.is_over() {
            return self.told.late_link_call();
        }
        let world = Snapshot::of(&self.world);
        let may = self.keep_receive(out.len());
        let answer = feeding::receive(&mut self.world, out, may);
        self.hungry = self.hungry || answer.is_err();
        let linked = self.told.is_linked();
        self.told.link_call(Made::Receive, world, answer, linked)
    }

    fn redial(&mut self) -> Result<(), DeviceFault>
        ensures call { IsLinkCall Redial (history_of self.old) (history_of self.new) result }
        ensures linked { (history_of self.old).moment < LAST → IsTrue (history_of self.new).linked ↔ IsOk result }
        ensures last { (history_of self.old).moment ≡ LAST
            → (history_of self.new).linked ≡ (history_of self.old).linked }
        ensures vehicle { Redialed (vehicle_now (history_of self.old)) (vehicle_now (history_of self.new)) result }
        ensures exact { FailsHungry self.old.told self.new.told result }
    {
        if self.told.is_over() {
            return self.told.late_link_call();
        }
        let world = Snapshot::of(&self.world);
        let may = self.keep(&LinkCall::Redial);
        let answer = feeding::redial(&mut self.world, may);
        self.hungry = self.hungry || answer.is_err();
        let linked = answer.is_ok();
        self.told.link_call(Made::Redial, world, answer, linked)
    }
}
