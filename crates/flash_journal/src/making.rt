ghost use Rattle.std.specs.Prelude.{◌≡◌, ◌≤◌, ℕ, true, length, IsTrue, IsErr, OnOk, slice_range};
ghost use Rattle.disk_model.specs.Disk.{IsSettled};
ghost use Rattle.flash_base.specs.Counts.{Rises};
ghost use Rattle.shop_model.specs.History.{disk_now};
ghost use Rattle.journal_model.specs.Records.{Label, is_fresh};
ghost use Rattle.journal_steps.specs.Later.{IsDiskLater, HoldsOnDisk};
ghost use Rattle.journal_steps.specs.Make.{Starts, CanFill, CanMake, CanStart, IsNew};
ghost use Rattle.flash_journal.specs.Ways.{IsWay, IsShort};

use shop_model::{DeviceFault, Shop};

/// How a fresh file is made: whether byte 0 is first written, and from where the rest is filled in.
#[derive(Clone, Copy, Debug, PartialEq, Eq)]
pub enum Way {
    /// No byte 0 that can be kept: it is written and synced, and the rest from place 1 on.
    First,
    /// Byte 0 is 0: the rest from place 1 on.
    FromOne,
    /// A closed gate that is not 0 before the magic, which stays so that byte 0 cannot open old slots.
    FromEight,
}

/// The way for a file that begins so.
pub fn way_of(front: &[u8]) -> Way
    requires { is_fresh front.now ≡ true }
    ensures { IsWay front.now result }
{
    if front.len() == 0 || (front.len() == 1 && front[0] != 0) {
        Way::First
    } else if front[0] == 0 {
        Way::FromOne
    } else {
        Way::FromEight
    }
}

// Makes byte 0 of a file of no byte or one 0.
fn clear_first<S: Shop>(shop: &mut S) -> Result<(), DeviceFault>
    ensures any_moment { IsTrue S.tells_disk → (P : Label) → IsShort (disk_now (S.history shop.old))
        → HoldsOnDisk (S.history shop.old) (S.history shop.new) (Starts P) }
    ensures zeroed { OnOk result (IsTrue S.tells_disk → IsShort (disk_now (S.history shop.old))
        → IsSettled (disk_now (S.history shop.new)) × CanFill (disk_now (S.history shop.new)).bytes 1) }
    ensures fault { IsErr result → Rises (S.history shop.old).disk_faults (S.history shop.new).disk_faults }
    ensures later { IsDiskLater (S.history shop.old) (S.history shop.new) }
{
    shop.write_at(0, &[0])?;
    shop.sync()?;
    Ok(())
}

// Writes the rest of the file from a place on, and then opens the header's gate.
fn fill<S: Shop>(shop: &mut S, start: u64, rest: &[u8]) -> Result<(), DeviceFault>
    requires { IsTrue S.tells_disk → start ≤ length (disk_now (S.history shop.old)).bytes }
    ensures any_moment { IsTrue S.tells_disk → (P : Label)
        → CanMake P (disk_now (S.history shop.old)) start rest.now
        → HoldsOnDisk (S.history shop.old) (S.history shop.new) (Starts P) }
    ensures made { OnOk result (IsTrue S.tells_disk → (P : Label)
        → CanMake P (disk_now (S.history shop.old)) start rest.now
        → IsNew P (disk_now (S.history shop.new))) }
    ensures fault { IsErr result → Rises (S.history shop.old).disk_faults (S.history shop.new).disk_faults }
    ensures later { IsDiskLater (S.history shop.old) (S.history shop.new) }
{
    shop.write_at(start, rest)?;
    shop.sync()?;
    shop.write_at(0, &[0xA5])?;
    shop.sync()?;
    Ok(())
}

fn rest_from(file: &[u8], start: usize) -> &[u8]
    requires { start ≤ length file.now }
    ensures { result.now ≡ slice_range file.now start (length file.now) }
{
    &file[start..]
}

/// Makes a file out of a fresh one: `file` has the bytes of a new journal.
pub fn make_file<S: Shop>(shop: &mut S, way: Way, file: &[u8]) -> Result<(), DeviceFault>
    requires long { 8 ≤ length file.now }
    requires way { IsTrue S.tells_disk → IsWay (disk_now (S.history shop.old)).bytes way }
    requires settled { IsTrue S.tells_disk → IsSettled (disk_now (S.history shop.old)) }

    // At each moment each image is a file that is not made yet, or a journal without entries.
    ensures any_moment { IsTrue S.tells_disk → (P : Label)
        → CanStart P (disk_now (S.history shop.old)) file.now
        → HoldsOnDisk (S.history shop.old) (S.history shop.new) (Starts P) }
    ensures made { OnOk result (IsTrue S.tells_disk → (P : Label)
        → CanStart P (disk_now (S.history shop.old)) file.now
        → IsNew P (disk_now (S.history shop.new))) }
    ensures fault { IsErr result → Rises (S.history shop.old).disk_faults (S.history shop.new).disk_faults }
    ensures later { IsDiskLater (S.history shop.old) (S.history shop.new) }
{
    match way {
        Way::First => {
            clear_first(shop)?;
            fill(shop, 1, rest_from(file, 1))?;
            Ok(())
        }
        Way::FromOne => {
            fill(shop, 1, rest_from(file, 1))?;
            Ok(())
        }
        Way::FromEight => {
            fill(shop, 8, rest_from(file, 8))?;
            Ok(())
        }
    }
}
