ghost use Rattle.std.specs.Prelude.{◌≡◌, ◌≤◌, ◌++◌, false, length, replicate, IfOk, OnOk};
ghost use Rattle.journal_model.specs.Records.{label_of, behind};
ghost use Rattle.flash_journal.specs.Parts.{AreNew, AreMoved};

use crate::file::{new_file, second_file};
use crate::layout::{Layout, mark_slots, place_behind, slot_count};
use crate::tables::{Tables, no_tables};
use flash_base::NoMemory;
use flash_plan::Plan;
use std::alloc::Global;

/// The parts of a journal that is to be written: its slots, what they hold, and its bytes.
#[derive(Drop)]
pub struct Parts {
    pub layout: Layout,
    pub tables: Tables,
    pub file: Vec<u8>,
}

/// Those of a new journal.
pub fn new_parts(alloc: Global, plan: &Plan) -> Result<Parts, NoMemory>
    ensures { IfOk result (AreNew (label_of plan.now)) }
{
    let layout = Layout::new_at(alloc, plan, 0)?;
    let tables = no_tables(alloc, slot_count(plan))?;
    let file = new_file(alloc, plan)?;
    Ok(Parts {
        layout,
        tables,
        file,
    })
}

// So many places more in which nothing is set.
fn push_unset(alloc: Global, table: &mut Vec<bool>, count: usize) -> Result<(), NoMemory>
    ensures { OnOk result (table.new.items ≡ table.old.items ++ replicate count false) }
{
    let unset = vec![in alloc; false; count]?;
    table.extend_from_slice(&unset)?;
    Ok(())
}

/// Those of the journal that is written behind a version 1 file, whose bytes are `old` and which has these tables.
pub fn moved_parts(
    alloc: Global,
    plan: &Plan,
    old: &[u8],
    tables: Tables,
) -> Result<Parts, NoMemory>
    requires { behind (label_of plan.now) ≤ length old.now }
    ensures { IfOk result (AreMoved (label_of plan.now) old.now tables) }
{
    let Tables {
        mut gates,
        mut found,
        entries,
    } = tables;
    let marks = mark_slots(plan);
    push_unset(alloc, &mut gates, marks)?;
    push_unset(alloc, &mut found, marks)?;
    let layout = Layout::new_at(alloc, plan, place_behind(plan))?;
    let file = second_file(alloc, plan, old)?;
    Ok(Parts {
        layout,
        tables: Tables {
            gates,
            found,
            entries,
        },
        file,
    })
}
