ghost use Rattle.std.specs.Prelude.{◌≡◌, [], IsTrue, IfOk, IfErr};
ghost use Rattle.shop_model.specs.History.{disk_now};
ghost use Rattle.journal_model.specs.Records.{label_of};
ghost use Rattle.journal_steps.specs.Later.{IsDiskLater, SameDisk};
ghost use Rattle.flash_journal.specs.Look.{CameOfRead, IsLookAnswer, HasCause, SaysOther};

use crate::layout::limit;
use crate::reading::{ReadFault, read_front};
use crate::tables::Tables;
use crate::verdict::{Reading, Verdict, look_at};
use flash_plan::{Entries, Plan};
use shop_model::Shop;
use std::alloc::Global;

/// Why a journal was not opened.
#[derive(Debug, Drop)]
pub enum OpenFault {
    /// The file is no journal, or one that is cut short or has a body that is not in the form.
    NotJournal,
    /// The file is the journal of a plan with this digest.
    OtherPlan { said: [u8; 32] },
    /// The disk failed.
    DiskFault,
    /// There was no memory.
    NoMemory,
}

/// The entries that the journal of a plan records, in the order of their slots; none where the file is not made
/// yet.
///
/// Only reads: the length once, and then at most what the plan's slots need, in one read. A version 1 file is
/// read and not migrated.
pub fn look<S: Shop>(alloc: Global, shop: &mut S, plan: &Plan) -> Result<Entries, OpenFault>
    // The entries are the records of what a read gives; a refusal is answered exactly where the tests find it.
    ensures answer { IsTrue S.tells_disk
        → IsLookAnswer (label_of plan.now) (disk_now (S.history shop.old)).bytes result }
    ensures read { CameOfRead S.tells_disk (label_of plan.now) (disk_now (S.history shop.old)).bytes result }
    ensures other { IfErr result (SaysOther (label_of plan.now).digest) }
    ensures cause { IfErr result (HasCause (S.history shop.old) (S.history shop.new)) }

    // At each moment disk and vehicle are as at the start.
    ensures same { SameDisk (S.history shop.old) (S.history shop.new) }
    ensures disk { disk_now (S.history shop.new) ≡ disk_now (S.history shop.old) }
    ensures later { IsDiskLater (S.history shop.old) (S.history shop.new) }
{
    let front = match read_front(alloc, shop, limit(plan) as u64) {
        Ok(front) => front,
        Err(ReadFault::Disk) => return Err(OpenFault::DiskFault),
        Err(ReadFault::Memory) => return Err(OpenFault::NoMemory),
    };
    look_bytes(alloc, &front, plan)
}

/// The entries that these bytes record, by the tests of [`look`]. It makes no call of a disk, and never answers
/// a disk fault.
pub fn look_bytes(alloc: Global, image: &[u8], plan: &Plan) -> Result<Entries, OpenFault>
    ensures answer { IsLookAnswer (label_of plan.now) image.now result }
    ensures other { IfErr result (SaysOther (label_of plan.now).digest) }
    ensures no_fault { result ≡ Err OpenFault.DiskFault → ⊥ }
{
    match look_at(alloc, image, plan) {
        Ok(Verdict::Fresh) => Ok(Entries::new(alloc)),
        Ok(Verdict::NotJournal) => Err(OpenFault::NotJournal),
        Ok(Verdict::OtherPlan(said)) => Err(OpenFault::OtherPlan { said }),
        Ok(Verdict::Journal(reading)) => Ok(entries_of(reading)),
        Err(_) => Err(OpenFault::NoMemory),
    }
}

// The entries that were read.
fn entries_of(reading: Reading) -> Entries
    ensures { result ≡ reading.tables.entries.items }
{
    let Reading {
        version: _version,
        layout: _layout,
        tables,
    } = reading;
    let Tables {
        gates: _gates,
        found: _found,
        entries,
    } = tables;
    Entries::from_vec(entries)
}
