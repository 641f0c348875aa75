ghost use Rattle.std.specs.Prelude.{◌≡◌, ◌≤◌, Bool, length, IsTrue, IsErr, OnOk};
ghost use Rattle.flash_base.specs.Counts.{Rises};
ghost use Rattle.flash_plan.specs.declared.outcome.Entry.{Entry as AnEntry};
ghost use Rattle.shop_model.specs.History.{disk_now};
ghost use Rattle.journal_model.specs.Records.{Label};
ghost use Rattle.journal_steps.specs.Later.{IsDiskLater, HoldsOnDisk};
ghost use Rattle.journal_steps.specs.Move.{AllRecord, CanMove, HasMoved};

use crate::layout::LAST;
use shop_model::{DeviceFault, Shop};

/// Writes a version 2 journal behind the slots of a version 1 file, and then the byte that makes it the one that
/// counts.
pub fn write_second<S: Shop>(shop: &mut S, at: u64, second: &[u8]) -> Result<(), DeviceFault>
    requires behind { 64 ≤ at }
    requires long { IsTrue S.tells_disk → at ≤ length (disk_now (S.history shop.old)).bytes }

    // At each moment each image has the entries of the version 1 journal.
    ensures any_moment { IsTrue S.tells_disk → (P : Label) (R : AnEntry → Bool)
        → CanMove P R (disk_now (S.history shop.old)) at second.now
        → HoldsOnDisk (S.history shop.old) (S.history shop.new) (AllRecord P R) }
    ensures moved { OnOk result (IsTrue S.tells_disk → (P : Label) (R : AnEntry → Bool)
        → CanMove P R (disk_now (S.history shop.old)) at second.now
        → HasMoved P R (disk_now (S.history shop.old)).bytes (disk_now (S.history shop.new))) }
    ensures fault { IsErr result → Rises (S.history shop.old).disk_faults (S.history shop.new).disk_faults }
    ensures later { IsDiskLater (S.history shop.old) (S.history shop.new) }
{
    shop.write_at(at, second)?;
    shop.sync()?;
    shop.write_at(LAST as u64, &[0xA5])?;
    shop.sync()?;
    Ok(())
}
