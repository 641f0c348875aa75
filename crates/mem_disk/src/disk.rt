ghost use Rattle.std.specs.Prelude.{◌≡◌, ◌+◌, ◌≤◌, ◌<◌, ◌^◌, ◌++◌, [], true, IfOk, length, slice_range};
ghost use Rattle.mem_disk.specs.Made.{depth};
ghost use Rattle.mem_disk.specs.Replay.{replay, start, spliced as spliced_list, are_within};

use crate::record::{Calls, Done, Made, seen};
use disk_model::DeviceFault;
use flash_base::NoMemory;
use shop_model::{Got, Shop};
use std::alloc::Global;
use std::snapshot::Snapshot;

/// The last moment, at which every call fails.
const LAST: u64 = 1 << 63;

/// A disk in memory that fails at the calls that it was told, with a record of all calls.
///
/// A call that finds no memory ends the record: it and each later call fail as those of a broken disk.
#[derive(Drop)]
pub struct MemDisk {
    alloc: Global,
    // what a read gave before the first call
    pub(crate) first: Vec<u8>,
    // what a read gives
    bytes: Vec<u8>,
    // the numbers of the disk calls that fail
    failing: Vec<u64>,
    // what each call did, up to the first that found no memory
    pub(crate) calls: Vec<Done>,
    // the number of calls from that one on
    idle: u64,
    made: Calls,
    starved: u64,
    disk_faults: u64,
    link_faults: u64,
    link_calls: u64,
    linked: bool,
    ghost bytes_now: { bytes.items ≡ (replay (start first.items) calls.items).bytes },
    ghost within: { are_within (start first.items) calls.items ≡ true },
    ghost moments: { length calls.items + idle ≡ depth made },
    ghost few: { length calls.items + idle ≤ 2 ^ 63 },
    ghost starves: { starved ≤ idle },
    ghost links: { link_calls ≤ length calls.items + idle },
    ghost disk_count: { disk_faults < 2 ^ 64 },
    ghost link_count: { link_faults < 2 ^ 64 },
}

impl MemDisk {
    ghost use Rattle.std.specs.Prelude.{◌≡◌, ◌+◌, ◌≤◌, ◌<◌, ◌⊎◌, ◌↔◌, IsTrue, IsOk, IsErr, OnOk, OnErr, IfOk, length};
    ghost use Rattle.std.specs.Bool.{OnTrue, OnFalse};
    ghost use Rattle.shop_model.specs.History.{LAST, DiskCall, LinkCall, Redial, WroteOrMissed, disk_now};
    ghost use Rattle.mem_disk.specs.Disks.{history_of, moment_of, disk_calls, is_listed, IsNew, FailsExactly, ListsMiss, Recorded, Starved, WroteSome, DiskFaulted, LinkFaulted, LinkCounted, LinkPassed, LinkEnded, KeepsPlan};
    ghost use Rattle.mem_disk.specs.Made.{call_of};
    ghost use Rattle.mem_disk.specs.Replay.{IsNoWrite, after};

    /// A disk with these bytes, which a crash leaves. The disk calls with the numbers in `failing` fail, the first
    /// one being 0; link calls are not counted.
    pub fn new(alloc: Global, image: &[u8], failing: &[u64]) -> Result<MemDisk, NoMemory>
        ensures { IfOk result (IsNew image.now failing.now) }
    {
        Ok(MemDisk {
            alloc,
            first: Vec::from_slice(alloc, image)?,
            bytes: Vec::from_slice(alloc, image)?,
            failing: Vec::from_slice(alloc, failing)?,
            calls: Vec::new(alloc),
            idle: 0,
            made: Calls::Start,
            starved: 0,
            disk_faults: 0,
            link_faults: 0,
            link_calls: 0,
            linked: false,
        })
    }

    /// The number of calls so far, failed ones too.
    pub fn calls(&self) -> u64
        ensures { result ≡ moment_of self.now }
    {
        self.calls.len() as u64 + self.idle
    }

    /// How many calls failed because the disk itself found no memory.
    pub fn starved(&self) -> u64
        ensures { result ≡ self.now.starved }
    {
        self.starved
    }

    /// The number of disk calls so far, failed ones too.
    pub fn disk_calls(&self) -> u64
        ensures { result ≡ disk_calls self.now }
    {
        self.calls() - self.link_calls
    }

    /// The number of link calls so far, failed ones too.
    pub fn link_calls(&self) -> u64
        ensures { result ≡ self.now.link_calls }
    {
        self.link_calls
    }

    /// Whether it is the last moment.
    pub fn is_over(&self) -> bool
        ensures { IsTrue result ↔ moment_of self.now ≡ LAST }
    {
        self.calls() >= LAST
    }

    /// Whether the last dial succeeded.
    pub fn is_linked(&self) -> bool
        ensures { result ≡ self.now.linked }
    {
        self.linked
    }

    // Whether the next disk call is listed to fail.
    fn listed(&self) -> bool
        ensures { result ≡ is_listed self.now }
    {
        let number = self.disk_calls();
        self.failing.contains(&number)
    }

    // Counts a call that found no memory.
    fn starve(&mut self, made: Made)
        requires { moment_of self.old < LAST }
        ensures { Starved (call_of made) self.old self.new }
    {
        let before = Snapshot::of(&self.made);
        self.made = Calls::Then(Snapshot::of(&made), before);
        self.idle += 1;
        self.starved += 1;
    }

    // Records a call that leaves the bytes, if there is memory.
    fn record(&mut self, made: Made, done: Done) -> bool
        requires room { moment_of self.old < LAST }
        requires keeps { IsNoWrite done }
        ensures yes { OnTrue result (Recorded (call_of made) done self.old self.new) }
        ensures no { OnFalse result (Starved (call_of made) self.old self.new) }
    {
        if self.idle > 0 {
            self.starve(made);
            return false;
        }
        match self.calls.push(done) {
            Ok(()) => {
                let before = Snapshot::of(&self.made);
                self.made = Calls::Then(Snapshot::of(&made), before);
                true
            }
            Err(_) => {
                self.starve(made);
                false
            }
        }
    }

    // Writes and records it, if there is memory.
    fn record_write(&mut self, made: Made, at: usize, bytes: &[u8]) -> bool
        requires room { moment_of self.old < LAST }
        requires within { at ≤ length self.old.bytes.items }
        ensures yes { OnTrue result (WroteSome (call_of made) at bytes.now self.old self.new) }
        ensures no { OnFalse result (Starved (call_of made) self.old self.new) }
    {
        if self.idle > 0 {
            self.starve(made);
            return false;
        }
        let Ok(next) = spliced(self.alloc, &self.bytes, at, bytes) else {
            self.starve(made);
            return false;
        };
        let Ok(copy) = copied(self.alloc, bytes) else {
            self.starve(made);
            return false;
        };
        match self.calls.push(Done::Wrote(at as u64, copy)) {
            Ok(()) => {
                self.bytes = next;
                let before = Snapshot::of(&self.made);
                self.made = Calls::Then(Snapshot::of(&made), before);
                true
            }
            Err(_) => {
                self.starve(made);
                false
            }
        }
    }

    // Counts a disk call that failed.
    fn miss_disk(&mut self)
        ensures { DiskFaulted self.old self.new }
    {
        self.disk_faults = self.disk_faults.saturating_add(1);
    }

    // Counts a link call that failed.
    fn miss_link(&mut self)
        ensures { LinkFaulted self.old self.new }
    {
        self.link_faults = self.link_faults.saturating_add(1);
    }

    // A disk call that does this where it succeeds, and nothing where it fails.
    fn disk_call(&mut self, made: Made, good: Done) -> Result<(), DeviceFault>
        requires { IsNoWrite good }
        ensures call { DiskCall (call_of made) (history_of self.old) (history_of self.new) result }
        ensures done { OnOk result (disk_now (history_of self.new) ≡ after
            (disk_now (history_of self.old)) good) }
        ensures kept { OnErr result (disk_now (history_of self.new) ≡ disk_now (history_of self.old)) }
        ensures bytes { (disk_now (history_of self.new)).bytes ≡ (disk_now (history_of self.old)).bytes }
        ensures exact { FailsExactly self.old self.new result }
        ensures calm { OnOk result (self.new.disk_faults ≡ self.old.disk_faults) }
        ensures keeps { KeepsPlan self.old self.new }
    {
        if self.calls() >= LAST {
            self.miss_disk();
            return Err(DeviceFault);
        }
        if self.listed() {
            self.record(made, Done::Kept);
            self.miss_disk();
            return Err(DeviceFault);
        }
        if self.record(made, good) {
            Ok(())
        } else {
            self.miss_disk();
            Err(DeviceFault)
        }
    }

    // A write; one that is listed to fail lists its range, and the bytes stay.
    fn write_call(&mut self, made: Made, at: usize, bytes: &[u8]) -> Result<(), DeviceFault>
        requires { at ≤ length (disk_now (history_of self.old)).bytes }
        ensures call { DiskCall (call_of made) (history_of self.old) (history_of self.new) result }
        ensures disk { WroteOrMissed at bytes.now (disk_now (history_of self.old))
            (disk_now (history_of self.new)) result }
        ensures listed { ListsMiss at (length bytes.now) self.old self.new result }
        ensures exact { FailsExactly self.old self.new result }
        ensures calm { OnOk result (self.new.disk_faults ≡ self.old.disk_faults) }
        ensures keeps { KeepsPlan self.old self.new }
    {
        if self.calls() >= LAST {
            self.miss_disk();
            return Err(DeviceFault);
        }
        if self.listed() {
            self.record(made, Done::Missed(at as u64, bytes.len() as u64));
            self.miss_disk();
            return Err(DeviceFault);
        }
        if self.record_write(made, at, bytes) {
            Ok(())
        } else {
            self.miss_disk();
            Err(DeviceFault)
        }
    }

    /// A link call of whoever has a vehicle beside this disk begins: it is counted, and the disk stays. False where there is no
    /// memory to record it; it is then to fail.
    pub fn pass_link(&mut self, made: Made) -> bool
        requires { moment_of self.old < LAST }
        ensures { LinkPassed (call_of made) result self.old self.new }
    {
        let went = self.record(made, Done::Kept);
        self.link_calls += 1;
        went
    }

    /// The end of such a call: a fault is counted, or is not, and the link is a connection or is none.
    pub fn end_link(&mut self, faulty: bool, linked: bool)
        ensures { LinkEnded faulty linked self.old self.new }
    {
        if faulty {
            self.link_faults = self.link_faults.saturating_add(1);
        }
        self.linked = linked;
    }

    // A send or a receive: nobody is there, so it fails.
    fn link_call(&mut self, made: Made) -> Result<(), DeviceFault>
        ensures fails { IsErr result }
        ensures call { LinkCall (call_of made) (history_of self.old) (history_of self.new) result }
        ensures linked { self.new.linked ≡ self.old.linked }
    {
        if self.calls() >= LAST {
            self.miss_link();
            return Err(DeviceFault);
        }
        self.record(made, Done::Kept);
        self.link_calls += 1;
        self.miss_link();
        Err(DeviceFault)
    }

    // Counts a dial, which succeeded or not.
    fn connect(&mut self, linked: bool)
        requires { self.old.link_calls < moment_of self.old }
        ensures counted { LinkCounted self.old self.new }
        ensures linked { self.new.linked ≡ linked }
    {
        self.link_calls += 1;
        self.linked = linked;
    }

    // A connection to nobody.
    fn redial_call(&mut self) -> Result<(), DeviceFault>
        ensures call { LinkCall Redial (history_of self.old) (history_of self.new) result }
        ensures linked { moment_of self.old < LAST → IsTrue self.new.linked ↔ IsOk result }
        ensures last { moment_of self.old ≡ LAST → self.new.linked ≡ self.old.linked }
    {
        if self.calls() >= LAST {
            self.miss_link();
            return Err(DeviceFault);
        }
        let went = self.record(Made::Redial, Done::Kept);
        self.connect(went);
        if went {
            Ok(())
        } else {
            self.miss_link();
            Err(DeviceFault)
        }
    }
}

/// The bytes with `bytes` put at place `at`, over what is there and past the end.
pub(crate) fn spliced(
    alloc: Global,
    old: &[u8],
    at: usize,
    bytes: &[u8],
) -> Result<Vec<u8>, NoMemory>
    requires { at ≤ length old.now }
    ensures { IfOk result (λ v. v.items ≡ spliced_list old.now at bytes.now) }
{
    let mut next = Vec::from_slice(alloc, &old[..at])?;
    next.extend_from_slice(bytes)?;
    if bytes.len() < old.len() - at {
        next.extend_from_slice(&old[at + bytes.len()..])?;
    }
    Ok(next)
}

/// The same bytes.
pub(crate) fn copied(alloc: Global, bytes: &[u8]) -> Result<Vec<u8>, NoMemory>
    ensures { IfOk result (λ v. v.items ≡ bytes.now) }
{
    Ok(Vec::from_slice(alloc, bytes)?)
}

fn copy_part(from: &[u8], at: usize, out: &mut [u8])
    requires { at + length out.old ≤ length from.now }
    ensures { out.new ≡ slice_range from.now at (at + length out.old) }
{
    out.copy_from_slice(&from[at..at + out.len()]);
}

impl Shop for MemDisk {
    ghost use Rattle.std.proofs.lemmas.Bool.{false≢true};
    ghost use Rattle.std.specs.Prelude.{◌≡◌, ◌+◌, ◌≤◌, true, false, IsTrue, IfOk, OnOk, length, slice_range};
    ghost use Rattle.shop_model.specs.History.{DiskCall, Len, ReadAt, WriteAt, Sync, WroteOrMissed, SyncedOrNot, disk_now};
    ghost use Rattle.mem_disk.specs.Disks.{history_of, FailsExactly, KeepsPlan, ListsMiss};
    ghost use Rattle.mem_disk.specs.Laws.{readable_of};

    ghost tells_disk = { true };

    ghost tells_vehicle = { false };

    ghost history = { history_of };

    ghost bounded = { λ s. s.few };

    ghost readable = { readable_of };

    ghost stepped = { λ s m told lt. absurd (false≢true told) };

    fn len(&mut self) -> Result<u64, DeviceFault>
        ensures call { DiskCall Len (history_of self.old) (history_of self.new) result }
        ensures disk { disk_now (history_of self.new) ≡ disk_now (history_of self.old) }
        ensures len { IfOk result (λ n. n ≡ length (disk_now (history_of self.old)).bytes) }
        ensures exact { FailsExactly self.old self.new result }
        ensures calm { OnOk result (self.new.disk_faults ≡ self.old.disk_faults) }
        ensures keeps { KeepsPlan self.old self.new }
    {
        self.disk_call(Made::Len, Done::Kept)?;
        Ok(self.bytes.len() as u64)
    }

    fn read_at(&mut self, at: u64, out: &mut [u8]) -> Result<(), DeviceFault>
        requires { at + length out.old ≤ length (disk_now (history_of self.old)).bytes }
        ensures call { DiskCall (ReadAt at (length out.old)) (history_of self.old)
            (history_of self.new) result }
        ensures disk { disk_now (history_of self.new) ≡ disk_now (history_of self.old) }
        ensures bytes { OnOk result (out.new ≡ slice_range (disk_now (history_of self.old)).bytes at
            (at + length out.old)) }
        ensures exact { FailsExactly self.old self.new result }
        ensures calm { OnOk result (self.new.disk_faults ≡ self.old.disk_faults) }
        ensures keeps { KeepsPlan self.old self.new }
    {
        self.disk_call(Made::ReadAt(at, out.len() as u64), Done::Kept)?;
        copy_part(&self.bytes, at as usize, out);
        Ok(())
    }

    fn write_at(&mut self, at: u64, bytes: &[u8]) -> Result<(), DeviceFault>
        requires { at ≤ length (disk_now (history_of self.old)).bytes }
        ensures call { DiskCall (WriteAt at bytes.now) (history_of self.old) (history_of self.new) result }
        ensures disk { WroteOrMissed at bytes.now (disk_now (history_of self.old))
            (disk_now (history_of self.new)) result }
        ensures listed { ListsMiss at (length bytes.now) self.old self.new result }
        ensures exact { FailsExactly self.old self.new result }
        ensures calm { OnOk result (self.new.disk_faults ≡ self.old.disk_faults) }
        ensures keeps { KeepsPlan self.old self.new }
    {
        self.write_call(Made::WriteAt(at, seen(bytes)), at as usize, bytes)
    }

    fn sync(&mut self) -> Result<(), DeviceFault>
        ensures call { DiskCall Sync (history_of self.old) (history_of self.new) result }
        ensures disk { SyncedOrNot (disk_now (history_of self.old)) (disk_now (history_of self.new)) result }
        ensures exact { FailsExactly self.old self.new result }
        ensures calm { OnOk result (self.new.disk_faults ≡ self.old.disk_faults) }
        ensures keeps { KeepsPlan self.old self.new }
    {
        self.disk_call(Made::Sync, Done::Synced)
    }

    fn send(&mut self, bytes: &[u8]) -> Result<(), DeviceFault> {
        self.link_call(Made::Send(seen(bytes)))
    }

    fn receive(&mut self, _out: &mut [u8]) -> Result<Got, DeviceFault> {
        self.link_call(Made::Receive)?;
        Ok(Got::Quiet)
    }

    fn redial(&mut self) -> Result<(), DeviceFault> {
        self.redial_call()
    }
}
