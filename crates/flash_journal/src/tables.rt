ghost use Rattle.std.specs.Prelude.{◌≡◌, ◌<◌, ◌≤◌, [], false, length, replicate, get_or, IfOk};
ghost use Rattle.std.specs.List.{list_all};
ghost use Rattle.journal_model.specs.Records.{slots_of, end_of};
ghost use Rattle.journal_steps.specs.Read.{needs_none};
ghost use Rattle.flash_journal.specs.Layouts.{layout_form};
ghost use Rattle.flash_journal.specs.Seen.{HasSlotsUpTo, IsReadSlot, AreSlots};

use crate::layout::Layout;
use crate::spelling::entry_at;
use flash_base::NoMemory;
use flash_plan::Entry;
use std::alloc::Global;

/// The slots of a journal, as tables in memory.
#[derive(Drop)]
pub struct Tables {
    // of each slot, whether it is open
    pub gates: Vec<bool>,
    // of each entry of the plan, whether it is recorded
    pub found: Vec<bool>,
    // the entries in the order of their slots
    pub entries: Vec<Entry>,
}

/// The tables of a journal with so many slots and no entry.
pub fn no_tables(alloc: Global, slots: usize) -> Result<Tables, NoMemory>
    ensures gates { IfOk result (λ t. t.gates.items ≡ replicate slots false) }
    ensures found { IfOk result (λ t. t.found.items ≡ replicate slots false) }
    ensures entries { IfOk result (λ t. t.entries.items ≡ []) }
{
    Ok(Tables {
        gates: vec![in alloc; false; slots]?,
        found: vec![in alloc; false; slots]?,
        entries: Vec::new(alloc),
    })
}

// Reads one slot into the tables. False: it is open, and its body is not in the form, names no unit or segment
// of the plan, or stands in a lower slot too.
fn read_slot(
    bytes: &[u8],
    layout: &Layout,
    slot: usize,
    tables: &mut Tables,
) -> Result<bool, NoMemory>
    requires long { end_of (layout_form layout.now) ≤ length bytes.now }
    requires slot { slot < slots_of (layout_form layout.now) }
    requires so_far { HasSlotsUpTo (layout_form layout.now) bytes.now slot tables.old }
    ensures { IfOk result (IsReadSlot (layout_form layout.now) bytes.now slot tables.new) }
{
    if bytes[layout.gate_at(slot)] != 0xA5 {
        return Ok(true);
    }
    let Some(entry) = entry_at(bytes, layout.body_at(slot)) else {
        return Ok(false);
    };
    let Some(place) = layout.place(entry) else {
        return Ok(false);
    };
    if tables.found[place] {
        return Ok(false);
    }
    tables.entries.push(entry)?;
    tables.gates[slot] = true;
    tables.found[place] = true;
    Ok(true)
}

/// The tables of the slots, if each open body is in the form and none stands twice.
pub fn read_slots(alloc: Global, bytes: &[u8], layout: &Layout) -> Result<Option<Tables>, NoMemory>
    requires { end_of (layout_form layout.now) ≤ length bytes.now }
    ensures { IfOk result (AreSlots (layout_form layout.now) bytes.now) }
{
    let mut tables = no_tables(alloc, layout.slots())?;
    for slot in 0..layout.slots() {
        if !read_slot(bytes, layout, slot, &mut tables)? {
            return Ok(None);
        }
    }
    Ok(Some(tables))
}

// Whether the table has an entry at the place.
fn is_set(found: &[bool], place: usize) -> bool
    ensures { result ≡ get_or found.now place false }
{
    match found.get(place) {
        Some(set) => *set,
        None => false,
    }
}

/// Whether an entry is of a unit that is begun, or says itself that it is.
pub fn is_behind(found: &[bool], entry: Entry) -> bool
    ensures { result ≡ needs_none found.now entry }
{
    match entry {
        Entry::Begun(_unit) => true,
        Entry::Marked { unit, .. } => is_set(found, 2 * unit as usize),
        Entry::Complete(unit) => is_set(found, 2 * unit as usize),
    }
}

/// Whether no entry is complete or marked that is not begun.
pub fn ordered(found: &[bool], entries: &[Entry]) -> bool
    ensures { result ≡ list_all (needs_none found.now) entries.now }
{
    entries.iter().all(|entry| is_behind(found, *entry))
}
