ghost use Rattle.std.specs.Prelude.{◌≡◌, ◌+◌, ◌<◌, ◌≤◌, Bool, ℕ, length, IsTrue, IsErr, OnOk};
ghost use Rattle.flash_base.specs.Counts.{Rises};
ghost use Rattle.flash_plan.specs.declared.outcome.Entry.{Entry as AnEntry};
ghost use Rattle.shop_model.specs.History.{disk_now};
ghost use Rattle.journal_model.specs.Records.{Label, slots_of, end_of};
ghost use Rattle.journal_steps.specs.Append.{CanAppendGroup, AddsSome, HasAddedGroup};
ghost use Rattle.journal_steps.specs.Later.{IsDiskLater, HoldsOnDisk, MadeCalls, append_calls};
ghost use Rattle.flash_journal.specs.Layouts.{layout_form};

use crate::layout::Layout;
use shop_model::{DeviceFault, Shop};

/// Records entries in a run of closed slots: all bodies in one write and all gates in one, each synced.
///
/// `slot` is the first of the run, `bodies` has 16 bytes for each entry, and `gates` one open gate.
pub fn append_run<S: Shop>(
    shop: &mut S,
    layout: &Layout,
    slot: usize,
    bodies: &[u8],
    gates: &[u8],
) -> Result<(), DeviceFault>
    requires slot { slot < slots_of (layout_form layout.now) }
    requires long { IsTrue S.tells_disk
        → end_of (layout_form layout.now) ≤ length (disk_now (S.history shop.old)).bytes }

    // At each moment, each image records what was recorded, and some of the group.
    ensures any_moment { IsTrue S.tells_disk → (P : Label) (R : AnEntry → Bool) (at : ℕ → AnEntry) (m : ℕ)
        → CanAppendGroup P (layout_form layout.now) R
        (disk_now (S.history shop.old)) slot at m bodies.now gates.now
        → HoldsOnDisk (S.history shop.old) (S.history shop.new) (AddsSome P R at m) }
    ensures added { OnOk result (IsTrue S.tells_disk
        → (P : Label) (R : AnEntry → Bool) (at : ℕ → AnEntry) (m : ℕ)
        → CanAppendGroup P (layout_form layout.now) R
        (disk_now (S.history shop.old)) slot at m bodies.now gates.now
        → HasAddedGroup P (layout_form layout.now) R (disk_now (S.history shop.old)).bytes slot at m
        (disk_now (S.history shop.new))) }
    ensures calls { OnOk result (MadeCalls (S.history shop.old) (S.history shop.new)
        (append_calls (layout_form layout.now) slot bodies.now gates.now)) }
    ensures few { (S.history shop.new).moment ≤ (S.history shop.old).moment + 4 }
    ensures fault { IsErr result → Rises (S.history shop.old).disk_faults (S.history shop.new).disk_faults }
    ensures later { IsDiskLater (S.history shop.old) (S.history shop.new) }
{
    let body_at = layout.body_at(slot) as u64;
    let gate_at = layout.gate_at(slot) as u64;
    shop.write_at(body_at, bodies)?;
    shop.sync()?;
    shop.write_at(gate_at, gates)?;
    shop.sync()?;
    Ok(())
}
