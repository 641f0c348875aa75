ghost use Rattle.std.specs.Prelude.{◌≡◌, ◌+◌, ◌*◌, ◌<◌, ◌≤◌, length, IfOk, IfSome};
ghost use Rattle.flash_plan.specs.Plan.{plan_of, count_of};
ghost use Rattle.journal_model.specs.Records.{total, label_of, slots_of, old_form, new_form, behind};
ghost use Rattle.journal_steps.specs.Read.{limit_of};
ghost use Rattle.journal_steps.specs.Tables.{starts_of};

use flash_base::NoMemory;
use flash_plan::{Entry, Plan};
use std::alloc::Global;

/// The place of the last byte of a version 1 header: `A5` where the file is migrated.
pub const LAST: usize = 63;

/// How a journal file is laid out.
#[derive(Clone, Copy, Debug, PartialEq, Eq)]
pub enum Version {
    /// Version 1: two slots for each unit, and none for a mark.
    Old,
    /// Version 2: a slot more for each segment.
    New,
    /// Version 1 with a version 2 journal behind it, which is the one that counts.
    Moved,
}

/// The slots of a journal: where they lie in the file, and for which entries of the plan they are.
#[derive(Drop)]
pub struct Layout {
    // where the header begins, in bytes
    at: usize,
    units: u16,
    slots: usize,
    // of each unit how many segments can be marked; version 1 has none
    segments: Vec<u16>,
    // of each unit the place of its first mark in the table of all entries
    starts: Vec<usize>,
    ghost counts: { slots ≡ 2 * units + total segments.items },
    ghost places: { starts.items ≡ starts_of (2 * units) segments.items },
    ghost few: { slots ≤ 16512 },
    ghost near: { at ≤ 2240 },
}

// The number of segments of a unit.
fn segment_count(plan: &Plan, unit: u16) -> u16
    requires { unit < count_of plan.now }
    ensures count { result ≡ length (plan_of plan.now unit).segments }
    ensures few { result ≤ 256 }
{
    plan.is_accepted();
    plan.unit(unit).segments.len() as u16
}

/// How many slots a version 1 journal of the plan has: two for each unit.
pub fn unit_slots(plan: &Plan) -> usize
    ensures slots { result ≡ slots_of (old_form (label_of plan.now)) }
    ensures few { result ≤ 128 }
{
    plan.is_accepted();
    2 * plan.units() as usize
}

/// How many slots version 2 has more: one for each segment.
pub fn mark_slots(plan: &Plan) -> usize
    ensures slots { result ≡ total (label_of plan.now).segments }
    ensures few { result ≤ 16384 }
{
    plan.is_accepted();
    let mut slots = 0;
    for unit in 0..plan.units() {
        slots += segment_count(plan, unit) as usize;
    }
    slots
}

/// How many slots a version 2 journal of the plan has.
pub fn slot_count(plan: &Plan) -> usize
    ensures slots { result ≡ slots_of (new_form (label_of plan.now) 0) }
    ensures few { result ≤ 16512 }
{
    unit_slots(plan) + mark_slots(plan)
}

/// Where a version 1 journal of the plan ends.
pub fn place_behind(plan: &Plan) -> usize
    ensures place { result ≡ behind (label_of plan.now) }
    ensures far { 64 ≤ result }
    ensures near { result ≤ 2240 }
{
    64 + 17 * unit_slots(plan)
}

/// How many bytes the tests of a file look at: up to the end of the slots of a migrated file.
pub fn limit(plan: &Plan) -> usize
    ensures { result ≡ limit_of (label_of plan.now) }
{
    place_behind(plan) + 64 + 17 * slot_count(plan)
}

impl Layout {
    ghost use Rattle.std.specs.Prelude.{◌≡◌, ◌+◌, ◌*◌, ◌<◌, ◌≤◌, length, IfOk, IfSome};
    ghost use Rattle.flash_plan.specs.declared.outcome.Entry.TheVariants.{Marked};
    ghost use Rattle.journal_model.specs.Records.{label_of, old_form, new_form, slots_of, segments_of, end_of, gate_at, body_at};
    ghost use Rattle.flash_journal.specs.Layouts.{layout_form, form_as, place_in};

    /// Version 2 of a plan's journal, from a place on.
    pub fn new_at(alloc: Global, plan: &Plan, at: usize) -> Result<Layout, NoMemory>
        requires { at ≤ 2240 }
        ensures { IfOk result (λ l. layout_form l ≡ new_form (label_of plan.now) at) }
    {
        plan.is_accepted();
        let units = plan.units();
        let mut segments = Vec::new(alloc);
        let mut starts = Vec::new(alloc);
        let mut slots = 2 * units as usize;
        for unit in 0..units {
            let count = segment_count(plan, unit);
            segments.push(count)?;
            starts.push(slots)?;
            slots += count as usize;
        }
        Ok(Layout {
            at,
            units,
            slots,
            segments,
            starts,
        })
    }

    /// Version 1 of a plan's journal.
    pub fn old(alloc: Global, plan: &Plan) -> Layout
        ensures { layout_form result ≡ old_form (label_of plan.now) }
    {
        plan.is_accepted();
        let units = plan.units();
        Layout {
            at: 0,
            units,
            slots: 2 * units as usize,
            segments: Vec::new(alloc),
            starts: Vec::new(alloc),
        }
    }

    /// The slots that count in a file of this version.
    pub fn of_version(alloc: Global, plan: &Plan, version: Version) -> Result<Layout, NoMemory>
        ensures { IfOk result (λ l. layout_form l ≡ form_as (label_of plan.now) version) }
    {
        match version {
            Version::Old => Ok(Layout::old(alloc, plan)),
            Version::New => Layout::new_at(alloc, plan, 0),
            Version::Moved => Layout::new_at(alloc, plan, place_behind(plan)),
        }
    }

    pub fn at(&self) -> usize
        ensures place { result ≡ (layout_form self.now).at }
        ensures near { result ≤ 2240 }
    {
        self.at
    }

    pub fn slots(&self) -> usize
        ensures slots { result ≡ slots_of (layout_form self.now) }
        ensures few { result ≤ 16512 }
    {
        self.slots
    }

    /// The place behind the last body.
    pub fn end(&self) -> usize
        ensures { result ≡ end_of (layout_form self.now) }
    {
        self.at + 64 + 17 * self.slots
    }

    /// The place of a slot's gate.
    pub fn gate_at(&self, slot: usize) -> usize
        requires { slot < slots_of (layout_form self.now) }
        ensures place { result ≡ gate_at (layout_form self.now) slot }
        ensures within { result < end_of (layout_form self.now) }
    {
        self.at + 64 + slot
    }

    /// The place of a slot's body.
    pub fn body_at(&self, slot: usize) -> usize
        requires { slot < slots_of (layout_form self.now) }
        ensures place { result ≡ body_at (layout_form self.now) slot }
        ensures within { result + 16 ≤ end_of (layout_form self.now) }
    {
        self.at + 64 + self.slots + 16 * slot
    }

    /// Where an entry stands in the table of all entries, if there is a slot for it.
    pub fn place(&self, entry: Entry) -> Option<usize>
        ensures place { result ≡ place_in (layout_form self.now) entry }
        ensures within { IfSome result (λ p. p < slots_of (layout_form self.now)) }
    {
        match entry {
            Entry::Begun(unit) => {
                if unit < self.units {
                    Some(2 * unit as usize)
                } else {
                    None
                }
            }
            Entry::Marked { unit, segment } => self.mark(unit, segment),
            Entry::Complete(unit) => {
                if unit < self.units {
                    Some(2 * unit as usize + 1)
                } else {
                    None
                }
            }
        }
    }

    // Where the mark of a segment stands.
    fn mark(&self, unit: u16, segment: u16) -> Option<usize>
        ensures place { result ≡ place_in (layout_form self.now) (Marked unit segment) }
        ensures within { IfSome result (λ p. p < slots_of (layout_form self.now)) }
    {
        if unit >= self.units || segment >= self.segments_of(unit) {
            return None;
        }
        Some(self.starts[unit as usize] + segment as usize)
    }

    // How many segments of a unit can be marked.
    fn segments_of(&self, unit: u16) -> u16
        ensures { result ≡ segments_of (layout_form self.now) unit }
    {
        match self.segments.get(unit as usize) {
            Some(count) => *count,
            None => 0,
        }
    }
}
