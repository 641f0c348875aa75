ghost use Rattle.std.specs.Prelude.{IsTrue};
ghost use Rattle.flash_journal.specs.Kept.{is_live, IsKeptOn};
ghost use Rattle.shop_model.specs.History.{disk_now};

use flash_journal::{Entry, Journal};
use shop_model::Shop;
use std::process::Abort;

/// Appends an entry if it may be appended. True: it was recorded.
pub fn add<S: Shop>(shop: &mut S, journal: &mut Journal, entry: Entry) -> bool
    requires kept { IsTrue (is_live journal.old) → IsTrue S.tells_disk
        → IsKeptOn journal.old (disk_now (S.history shop.old)) }
    ensures kept { IsTrue (is_live journal.new) → IsTrue S.tells_disk
        → IsKeptOn journal.new (disk_now (S.history shop.new)) }
{
    if !journal.live() || !journal.may_append(entry) {
        return false;
    }
    match journal.append(shop, entry) {
        Ok(()) => true,
        Err(_) => false,
    }
}

/// Appends each of the entries that may be appended, and those alone are recorded of which it is said.
pub fn add_each<S: Shop>(
    rt: &impl Abort,
    shop: &mut S,
    journal: &mut Journal,
    rows: &[(Entry, bool)],
)
    requires kept { IsTrue (is_live journal.old) → IsTrue S.tells_disk
        → IsKeptOn journal.old (disk_now (S.history shop.old)) }
    ensures kept { IsTrue (is_live journal.new) → IsTrue S.tells_disk
        → IsKeptOn journal.new (disk_now (S.history shop.new)) }
{
    for (entry, is_recorded) in rows {
        assert!(rt; add(shop, journal, *entry) == *is_recorded, "{entry:?}");
    }
}

/// Appends the begins of the units 0 and 1 as a group, if they may be appended. Some: how many were recorded.
pub fn begin_both<S: Shop>(shop: &mut S, journal: &mut Journal) -> Option<u16>
    requires kept { IsTrue (is_live journal.old) → IsTrue S.tells_disk
        → IsKeptOn journal.old (disk_now (S.history shop.old)) }
    ensures kept { IsTrue (is_live journal.new) → IsTrue S.tells_disk
        → IsKeptOn journal.new (disk_now (S.history shop.new)) }
{
    if !journal.live()
        || !journal.may_append(Entry::Begun(0))
        || !journal.may_append(Entry::Begun(1))
    {
        return None;
    }
    match journal.append_group(shop, &[Entry::Begun(0), Entry::Begun(1)]) {
        Ok(count) => Some(count),
        Err(_) => None,
    }
}

/// As `begin_both`, of the units 0, 1 and 2.
pub fn begin_three<S: Shop>(shop: &mut S, journal: &mut Journal) -> Option<u16>
    requires kept { IsTrue (is_live journal.old) → IsTrue S.tells_disk
        → IsKeptOn journal.old (disk_now (S.history shop.old)) }
    ensures kept { IsTrue (is_live journal.new) → IsTrue S.tells_disk
        → IsKeptOn journal.new (disk_now (S.history shop.new)) }
{
    if !journal.live()
        || !journal.may_append(Entry::Begun(0))
        || !journal.may_append(Entry::Begun(1))
        || !journal.may_append(Entry::Begun(2))
    {
        return None;
    }
    match journal.append_group(shop, &[Entry::Begun(0), Entry::Begun(1), Entry::Begun(2)]) {
        Ok(count) => Some(count),
        Err(_) => None,
    }
}

/// As `begin_both`, of the completions.
pub fn complete_both<S: Shop>(shop: &mut S, journal: &mut Journal) -> Option<u16>
    requires kept { IsTrue (is_live journal.old) → IsTrue S.tells_disk
        → IsKeptOn journal.old (disk_now (S.history shop.old)) }
    ensures kept { IsTrue (is_live journal.new) → IsTrue S.tells_disk
        → IsKeptOn journal.new (disk_now (S.history shop.new)) }
{
    if !journal.live()
        || !journal.may_append(Entry::Complete(0))
        || !journal.may_append(Entry::Complete(1))
    {
        return None;
    }
    match journal.append_group(shop, &[Entry::Complete(0), Entry::Complete(1)]) {
        Ok(count) => Some(count),
        Err(_) => None,
    }
}
