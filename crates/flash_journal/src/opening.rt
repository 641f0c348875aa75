ghost use Rattle.std.specs.Prelude.{◌≡◌, ◌≢◌, true, IsTrue, IfOk, IfErr};
ghost use Rattle.disk_model.specs.Disk.{IsSettled};
ghost use Rattle.shop_model.specs.History.{disk_now};
ghost use Rattle.journal_model.specs.Records.{is_fresh, is_journal, label_of, form_of};
ghost use Rattle.journal_steps.specs.Later.{IsDiskLater, HoldsOnDisk, SameDisk};
ghost use Rattle.journal_steps.specs.Make.{Starts, AllFollow};
ghost use Rattle.journal_steps.specs.Read.{IsFront, limit_of};
ghost use Rattle.flash_journal.specs.Kept.{IsKeptOn, journal_form};
ghost use Rattle.flash_journal.specs.Look.{HasCause, SaysOther, IsWant};
ghost use Rattle.flash_journal.specs.Opened.{IsOf, IsEmpty, IsOrdered, IsOpened, OpenAnswer, OnRefusal, HasBytes};
ghost use Rattle.flash_journal.specs.Seen.{IsReading};
ghost use Rattle.flash_journal.specs.declared.layout.Version.TheVariants.{Old as ItOld};

use crate::journal::Journal;
use crate::layout::{Version, limit};
use crate::looking::OpenFault;
use crate::making::{make_file, way_of};
use crate::moving::write_second;
use crate::parts::{Parts, moved_parts, new_parts};
use crate::reading::{ReadFault, read_front};
use crate::verdict::{Reading, Verdict, look_at};
use flash_plan::Plan;
use shop_model::Shop;
use std::alloc::Global;

// Makes a fresh file. Memory is taken before anything is written.
fn make_journal<S: Shop>(
    alloc: Global,
    shop: &mut S,
    front: &[u8],
    plan: &Plan,
) -> Result<Journal, OpenFault>
    requires fresh { is_fresh front.now ≡ true }
    requires settled { IsTrue S.tells_disk → IsSettled (disk_now (S.history shop.old)) }
    requires front { IsTrue S.tells_disk
        → IsFront (limit_of (label_of plan.now)) (disk_now (S.history shop.old)).bytes front.now }
    ensures of { IfOk result (IsOf (label_of plan.now)) }
    ensures none { IfOk result IsEmpty }
    ensures kept { IfOk result (λ j. IsTrue S.tells_disk → IsKeptOn j (disk_now (S.history shop.new))) }
    ensures any_moment { IsTrue S.tells_disk
        → HoldsOnDisk (S.history shop.old) (S.history shop.new) (Starts (label_of plan.now)) }
    ensures want { IfErr result IsWant }
    ensures untouched { OnRefusal result (SameDisk (S.history shop.old) (S.history shop.new)) }
    ensures cause { IfErr result (HasCause (S.history shop.old) (S.history shop.new)) }
    ensures later { IsDiskLater (S.history shop.old) (S.history shop.new) }
{
    let Ok(parts) = new_parts(alloc, plan) else {
        return Err(OpenFault::NoMemory);
    };
    let Parts {
        layout,
        tables,
        file,
    } = parts;
    match make_file(shop, way_of(front), &file) {
        Ok(()) => Ok(Journal::with_tables(plan, layout, tables)),
        Err(_) => Err(OpenFault::DiskFault),
    }
}

// Migrates a version 1 file that begins so and has these tables. Memory is taken before anything is written.
fn migrate<S: Shop>(
    alloc: Global,
    shop: &mut S,
    front: &[u8],
    plan: &Plan,
    reading: Reading,
) -> Result<Journal, OpenFault>
    requires old { reading.version ≡ ItOld }
    requires journal { is_journal (label_of plan.now) front.now ≡ true }
    requires reading { IsReading (label_of plan.now) front.now reading }
    requires settled { IsTrue S.tells_disk → IsSettled (disk_now (S.history shop.old)) }
    requires front { IsTrue S.tells_disk
        → IsFront (limit_of (label_of plan.now)) (disk_now (S.history shop.old)).bytes front.now }
    ensures of { IfOk result (IsOf (label_of plan.now)) }
    ensures ordered { IfOk result IsOrdered }
    ensures opened { IfOk result (λ j. IsTrue S.tells_disk
        → IsOpened (label_of plan.now) (disk_now (S.history shop.old)).bytes j
        (disk_now (S.history shop.new))) }
    ensures any_moment { IsTrue S.tells_disk → HoldsOnDisk (S.history shop.old) (S.history shop.new)
        (AllFollow (label_of plan.now) (disk_now (S.history shop.old))) }
    ensures want { IfErr result IsWant }
    ensures untouched { OnRefusal result (SameDisk (S.history shop.old) (S.history shop.new)) }
    ensures cause { IfErr result (HasCause (S.history shop.old) (S.history shop.new)) }
    ensures later { IsDiskLater (S.history shop.old) (S.history shop.new) }
{
    let Reading {
        version: _version,
        layout: _layout,
        tables: old,
    } = reading;
    let Ok(parts) = moved_parts(alloc, plan, front, old) else {
        return Err(OpenFault::NoMemory);
    };
    let Parts {
        layout,
        tables,
        file,
    } = parts;
    match write_second(shop, layout.at() as u64, &file) {
        Ok(()) => Ok(Journal::with_tables(plan, layout, tables)),
        Err(_) => Err(OpenFault::DiskFault),
    }
}

// The journal of a file whose slots are of version 2, from what was read of its first bytes.
fn journal_of(plan: &Plan, front: &[u8], reading: Reading) -> Journal
    requires new { reading.version ≢ ItOld }
    requires journal { is_journal (label_of plan.now) front.now ≡ true }
    requires reading { IsReading (label_of plan.now) front.now reading }
    ensures of { IsOf (label_of plan.now) result }
    ensures ordered { IsOrdered result }
    ensures form { journal_form result ≡ form_of (label_of plan.now) front.now }
    ensures gates { result.gates.items ≡ reading.tables.gates.items }
    ensures found { result.found.items ≡ reading.tables.found.items }
{
    let Reading {
        version: _version,
        layout,
        tables,
    } = reading;
    Journal::with_tables(plan, layout, tables)
}

// The journal of a file that has one of this plan, from what was read of it: a version 1 file is migrated.
fn take_up<S: Shop>(
    alloc: Global,
    shop: &mut S,
    front: &[u8],
    plan: &Plan,
    reading: Reading,
) -> Result<Journal, OpenFault>
    requires journal { is_journal (label_of plan.now) front.now ≡ true }
    requires reading { IsReading (label_of plan.now) front.now reading }
    requires settled { IsTrue S.tells_disk → IsSettled (disk_now (S.history shop.old)) }
    requires front { IsTrue S.tells_disk
        → IsFront (limit_of (label_of plan.now)) (disk_now (S.history shop.old)).bytes front.now }
    ensures of { IfOk result (IsOf (label_of plan.now)) }
    ensures ordered { IfOk result IsOrdered }
    ensures opened { IfOk result (λ j. IsTrue S.tells_disk
        → IsOpened (label_of plan.now) (disk_now (S.history shop.old)).bytes j
        (disk_now (S.history shop.new))) }
    ensures any_moment { IsTrue S.tells_disk → HoldsOnDisk (S.history shop.old) (S.history shop.new)
        (AllFollow (label_of plan.now) (disk_now (S.history shop.old))) }
    ensures want { IfErr result IsWant }
    ensures untouched { OnRefusal result (SameDisk (S.history shop.old) (S.history shop.new)) }
    ensures cause { IfErr result (HasCause (S.history shop.old) (S.history shop.new)) }
    ensures later { IsDiskLater (S.history shop.old) (S.history shop.new) }
{
    match reading.version {
        Version::Old => migrate(alloc, shop, front, plan, reading),
        _ => Ok(journal_of(plan, front, reading)),
    }
}

// Opens the journal of a disk that was synced.
fn open_synced<S: Shop>(alloc: Global, shop: &mut S, plan: &Plan) -> Result<Journal, OpenFault>
    requires { IsTrue S.tells_disk → IsSettled (disk_now (S.history shop.old)) }
    ensures of { IfOk result (IsOf (label_of plan.now)) }
    ensures ordered { IfOk result IsOrdered }
    ensures answer { IsTrue S.tells_disk
        → OpenAnswer (label_of plan.now) (disk_now (S.history shop.old)).bytes result
        (disk_now (S.history shop.new)) }
    ensures any_moment { IsTrue S.tells_disk → HoldsOnDisk (S.history shop.old) (S.history shop.new)
        (AllFollow (label_of plan.now) (disk_now (S.history shop.old))) }
    ensures untouched { OnRefusal result (SameDisk (S.history shop.old) (S.history shop.new)) }
    ensures other { IfErr result (SaysOther (label_of plan.now).digest) }
    ensures cause { IfErr result (HasCause (S.history shop.old) (S.history shop.new)) }
    ensures later { IsDiskLater (S.history shop.old) (S.history shop.new) }
{
    let front = match read_front(alloc, shop, limit(plan) as u64) {
        Ok(front) => front,
        Err(ReadFault::Disk) => return Err(OpenFault::DiskFault),
        Err(ReadFault::Memory) => return Err(OpenFault::NoMemory),
    };
    match look_at(alloc, &front, plan) {
        Ok(Verdict::Fresh) => make_journal(alloc, shop, &front, plan),
        Ok(Verdict::NotJournal) => Err(OpenFault::NotJournal),
        Ok(Verdict::OtherPlan(said)) => Err(OpenFault::OtherPlan { said }),
        Ok(Verdict::Journal(reading)) => take_up(alloc, shop, &front, plan, reading),
        Err(_) => Err(OpenFault::NoMemory),
    }
}

impl Journal {
    /// Opens the journal of a plan: syncs, reads as [`look`](crate::look) does, makes the file where it is not
    /// made yet, and migrates a version 1 file.
    ///
    /// All memory that later appends need is taken here.
    pub fn open<S: Shop>(alloc: Global, shop: &mut S, plan: &Plan) -> Result<Journal, OpenFault>
        ensures of { IfOk result (IsOf (label_of plan.now)) }

        // Also over a disk that is not told: none is complete or marked that is not begun.
        ensures ordered { IfOk result IsOrdered }

        // The journal has the entries of what a read gave, and so has each image from now on. A refusal is
        // answered exactly where the tests find it.
        ensures answer { IsTrue S.tells_disk
            → OpenAnswer (label_of plan.now) (disk_now (S.history shop.old)).bytes result
            (disk_now (S.history shop.new)) }

        // At each moment each image has the entries of some image at the start, and can be opened if that one
        // can; the vehicle is that of the start.
        ensures any_moment { IsTrue S.tells_disk → HoldsOnDisk (S.history shop.old) (S.history shop.new)
            (AllFollow (label_of plan.now) (disk_now (S.history shop.old))) }

        // Nothing is written to a file that is refused, nor where memory is wanting.
        ensures untouched { IsTrue S.tells_disk → OnRefusal result
            (HoldsOnDisk (S.history shop.old) (S.history shop.new)
            (HasBytes (disk_now (S.history shop.old)).bytes)) }
        ensures other { IfErr result (SaysOther (label_of plan.now).digest) }
        ensures cause { IfErr result (HasCause (S.history shop.old) (S.history shop.new)) }
        ensures later { IsDiskLater (S.history shop.old) (S.history shop.new) }
    {
        match shop.sync() {
            Ok(()) => open_synced(alloc, shop, plan),
            Err(_) => Err(OpenFault::DiskFault),
        }
    }
}
