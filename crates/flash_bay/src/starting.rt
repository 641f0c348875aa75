//! The run of a journal that was opened.
ghost use Rattle.std.specs.Prelude.{◌≡◌, ◌≤◌, ◌<◌, ◌+◌, ◌||◌, ◌&&◌, ℕ, false, length, IfOk, OnOk};
ghost use Rattle.barrier_board.specs.Board.{has_entry as is_found};
ghost use Rattle.flash_bay.specs.Starting.{IsStarted, below};
ghost use Rattle.flash_journal.specs.Kept.{journal_label, has_entry};
ghost use Rattle.flash_plan.specs.Outcomes.{same_entry};
ghost use Rattle.flash_plan.specs.Plan.{plan_of, count_of};
ghost use Rattle.flash_plan.specs.declared.outcome.Entry.{Entry as AnEntry};
ghost use Rattle.flash_plan.specs.declared.outcome.Entry.TheVariants.{Marked};
ghost use Rattle.journal_model.specs.Records.{label_of};

use flash_base::NoMemory;
use flash_journal::Journal;
use flash_plan::{Entries, Entry, LinkRules, Plan};
use flash_run::Run;
use std::alloc::Global;

/// The number of segments of a unit.
fn segment_count(plan: &Plan, unit: u16) -> u16
    requires { unit < count_of plan.now }
    ensures { result ≡ length (plan_of plan.now unit).segments }
{
    plan.is_accepted();
    plan.unit(unit).segments.len() as u16
}

/// Puts the entry into the list, where the journal has it.
fn list_one(all: &mut Entries, journal: &Journal, entry: Entry) -> Result<(), NoMemory>
    ensures { OnOk result ((x : AnEntry)
        → is_found all.new x ≡ (is_found all.old x || (same_entry x entry && has_entry journal.now entry))) }
{
    if journal.has(entry) {
        all.push(entry)?;
    }
    Ok(())
}

/// Puts the entries of a unit of so many segments into the list, behind those of the units below it.
fn list_unit(all: &mut Entries, journal: &Journal, unit: u16, segments: u16) -> Result<(), NoMemory>
    requires past { (k : ℕ) → segments ≤ k → has_entry journal.now (Marked unit k) ≡ false }
    requires so_far { (x : AnEntry) → is_found all.old x ≡ below unit (has_entry journal.now) x }
    ensures { OnOk result ((x : AnEntry) → is_found all.new x ≡ below (unit + 1) (has_entry journal.now) x) }
{
    list_one(all, journal, Entry::Begun(unit))?;
    for segment in 0..segments {
        list_one(all, journal, Entry::Marked { unit, segment })?;
    }
    list_one(all, journal, Entry::Complete(unit))
}

/// The entries of a journal of the plan.
fn listed(alloc: Global, plan: &Plan, journal: &Journal) -> Result<Entries, NoMemory>
    requires { journal_label journal.now ≡ label_of plan.now }
    ensures { IfOk result (λ all. (x : AnEntry) → is_found all x ≡ has_entry journal.now x) }
{
    let mut all = Entries::new(alloc);
    for unit in 0..plan.units() {
        let segments = segment_count(plan, unit);
        list_unit(&mut all, journal, unit, segments)?;
    }
    Ok(all)
}

/// A run of the plan that begins with what its journal has.
pub(crate) fn start(
    alloc: Global,
    plan: &Plan,
    rules: &LinkRules,
    journal: &Journal,
) -> Result<Run, NoMemory>
    requires { journal_label journal.now ≡ label_of plan.now }
    ensures { IfOk result (IsStarted plan.now rules.now journal.now) }
{
    let found = listed(alloc, plan, journal)?;
    Run::start(alloc, plan, rules, found)
}
