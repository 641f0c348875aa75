ghost use Rattle.std.specs.Prelude.{◌≡◌, ◌↔◌, ◌+◌, ◌≤◌, ◌<◌, ◌^◌, Bool, ℕ, length, IsTrue, IsOk, IfOk, OnOk, slice_range};
ghost use Rattle.disk_model.specs.Disk.{IsCrashImage};
ghost use Rattle.flash_base.specs.Counts.{Rises};
ghost use Rattle.shop_model.specs.Stepping.{StepsUnits};
ghost use Rattle.shop_model.specs.History.{History, LAST, disk_now, vehicle_now, DiskCall, LinkCall, Len, ReadAt, WriteAt, Sync, Send, Receive, Redial, Sent, Received, Redialed, IsPiece, WroteOrMissed, SyncedOrNot};

use disk_model::DeviceFault;
use unit_model::Got;

/// The disk with the journal, and the link to the vehicle's gateway.
///
/// Every call, also one that fails, is one moment, up to 2^63 moments; at the last one every
/// call fails and changes nothing but its count of faults. What there was at a past moment never
/// changes. The two counts of faults never fall, and a call that fails raises its own, unless
/// that has come to 2^64 - 1.
///
/// A shop tells what its disk holds, what its vehicle does, both or neither: clauses on content
/// hold for the part that is told.
pub trait Shop {
    /// Whether it is told what the disk holds.
    ghost tells_disk: { Bool };

    /// Whether it is told what the vehicle does.
    ghost tells_vehicle: { Bool };

    /// What there was at each moment so far.
    ghost history: { Self → History };

    /// The length of the file in bytes; a file that is not there has length 0.
    fn len(&mut self) -> Result<u64, DeviceFault>
        ensures call { DiskCall Len (history self.old) (history self.new) result }
        ensures disk { disk_now (history self.new) ≡ disk_now (history self.old) }
        ensures len { IsTrue tells_disk → IfOk result (λ n. n ≡ length (disk_now (history self.old)).bytes) };

    /// Fills `out` with the bytes from place `at`. After a failure `out` holds anything.
    fn read_at(&mut self, at: u64, out: &mut [u8]) -> Result<(), DeviceFault>
        requires { IsTrue tells_disk → at + length out.old ≤ length (disk_now (history self.old)).bytes }
        ensures call { DiskCall (ReadAt at (length out.old)) (history self.old) (history self.new) result }
        ensures disk { disk_now (history self.new) ≡ disk_now (history self.old) }
        ensures bytes { IsTrue tells_disk →
            OnOk result (out.new ≡ slice_range (disk_now (history self.old)).bytes at
            (at + length out.old)) };

    /// Puts the bytes at place `at`, over what is there and past the end. Until the next sync a
    /// crash may leave anything in that range.
    fn write_at(&mut self, at: u64, bytes: &[u8]) -> Result<(), DeviceFault>
        requires { IsTrue tells_disk → at ≤ length (disk_now (history self.old)).bytes }
        ensures call { DiskCall (WriteAt at bytes.now) (history self.old) (history self.new) result }
        ensures disk { IsTrue tells_disk →
            WroteOrMissed at bytes.now (disk_now (history self.old)) (disk_now (history self.new)) result };

    /// Makes what a read gives what a crash leaves.
    fn sync(&mut self) -> Result<(), DeviceFault>
        ensures call { DiskCall Sync (history self.old) (history self.new) result }
        ensures disk { IsTrue tells_disk →
            SyncedOrNot (disk_now (history self.old)) (disk_now (history self.new)) result };

    /// Sends 1 to 65,600 bytes to the gateway. After a failure a prefix of them was sent, and the
    /// connection may be broken.
    fn send(&mut self, bytes: &[u8]) -> Result<(), DeviceFault>
        requires linked { IsTrue (history self.old).linked }
        requires some { 1 ≤ length bytes.now }
        requires few { length bytes.now ≤ 65600 }
        ensures call { LinkCall (Send bytes.now) (history self.old) (history self.new) result }
        ensures linked { (history self.new).linked ≡ (history self.old).linked }
        ensures vehicle { IsTrue tells_vehicle →
            Sent bytes.now (vehicle_now (history self.old)) (vehicle_now (history self.new)) result };

    /// Takes bytes that are due, at most as many as `out` has room for; where none is due, a tick
    /// passes in the vehicle.
    fn receive(&mut self, out: &mut [u8]) -> Result<Got, DeviceFault>
        requires linked { IsTrue (history self.old).linked }
        requires room { 1 ≤ length out.old }
        ensures call { LinkCall Receive (history self.old) (history self.new) result }
        ensures linked { (history self.new).linked ≡ (history self.old).linked }
        ensures piece { IfOk result (IsPiece (length out.old)) }
        ensures vehicle { IsTrue tells_vehicle →
            Received out.new (¬ Rises (history self.old).link_faults (history self.new).link_faults)
            (vehicle_now (history self.old)) (vehicle_now (history self.new)) result };

    /// Makes the connection new, the first one too. A gateway forgets the activation and all that
    /// was on its way; units keep their state.
    fn redial(&mut self) -> Result<(), DeviceFault>
        ensures call { LinkCall Redial (history self.old) (history self.new) result }
        ensures linked { (history self.old).moment < LAST → IsTrue (history self.new).linked ↔ IsOk result }
        ensures last { (history self.old).moment ≡ LAST
            → (history self.new).linked ≡ (history self.old).linked }
        ensures vehicle { IsTrue tells_vehicle →
            Redialed (vehicle_now (history self.old)) (vehicle_now (history self.new)) result };

    /// No moment is above the last one.
    ghost bounded: { (s : Self) → (history s).moment ≤ LAST };

    /// What a read gives is one of the images that a crash may leave.
    ghost readable: { (s : Self) (m : ℕ)
        → IsCrashImage ((history s).disk_at m) ((history s).disk_at m).bytes };

    /// Where the vehicle is told, each unit is at the next moment, its counts of troubles aside, that unit after some
    /// list of unit steps, and no unit comes or goes.
    ghost stepped: { (s : Self) (m : ℕ) → IsTrue tells_vehicle → m < (history s).moment
        → ∥ StepsUnits ((history s).vehicle_at m) ((history s).vehicle_at (m + 1)) ∥₁ };
}
