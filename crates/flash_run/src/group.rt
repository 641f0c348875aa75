//! Entries of several units that are recorded together.
ghost use Rattle.std.specs.Prelude.{◌≡◌, ◌++◌, ◌+◌, ◌≤◌, ◌<◌, length, map, take, IfOk, OnOk};
ghost use Rattle.flash_plan.specs.Plan.{count_of};
ghost use Rattle.flash_run.specs.Group.{IsGroupDue, entries_by, entries_due, failed_as, group_of, marked_by, recorded_as, takes_all, TakesAll};
ghost use Rattle.flash_run.specs.Need.{ask_in};
ghost use Rattle.flash_run.specs.Run.{core_of_run, left_in};

use crate::need::Need;
use crate::run::Run;
use bay_core::Event;
use flash_base::NoMemory;
use flash_plan::{Entries, Entry, Plan};
use std::alloc::Global;
use unit_session::Ask;

/// That it was recorded.
fn recorded_as(entry: Entry) -> Event
    ensures { result ≡ recorded_as entry }
{
    match entry {
        Entry::Begun(unit) => Event::Began { unit },
        Entry::Marked { unit, segment } => Event::Marked { unit, segment },
        Entry::Complete(unit) => Event::Completed { unit },
    }
}

/// That its append failed.
fn failed_as(entry: Entry) -> Event
    ensures { result ≡ failed_as entry }
{
    let unit = match entry {
        Entry::Begun(unit) | Entry::Marked { unit, .. } | Entry::Complete(unit) => unit,
    };
    Event::DiskFailed { unit, entry }
}

/// Puts the entry that stands to be recorded of a unit into the group, by what is due for it.
fn join(group: &mut Entries, unit: u16, ask: Ask, need: Need) -> Result<(), NoMemory>
    ensures { OnOk result (group.new ≡ group.old ++ entries_by unit ask need) }
{
    match need {
        Need::Begin => group.push(Entry::Begun(unit))?,
        Need::Mark => {
            if let Ask::Mark { segment } = ask {
                group.push(Entry::Marked { unit, segment })?;
            }
        }
        Need::Complete => group.push(Entry::Complete(unit))?,
        Need::Gone | Need::End | Need::Tend | Need::Send | Need::Collect => {}
    }
    Ok(())
}

impl Run {
    /// A law without code: the entries that stand to be recorded are of different units, and may be recorded, or
    /// fail to be, one after another.
    pub fn is_group_due(&self)
        ensures { IsGroupDue self.now }
    {
        self.is_kept();
        self.is_due();
    }

    /// The entries that stand to be recorded: of each unit its own, ascending.
    pub fn group(&self, alloc: Global, plan: &Plan) -> Result<Entries, NoMemory>
        requires { plan.now ≡ self.now.plan }
        ensures { IfOk result (λ g. g ≡ group_of self.now) }
    {
        let mut group = Entries::new(alloc);
        for unit in 0..plan.units() {
            let ask = self.ask(plan, unit);
            let need = self.need(plan, unit);
            join(&mut group, unit, ask, need)?;
        }
        Ok(group)
    }

    /// Notes that the first entries of a group were recorded, in room that was taken. It wants no memory.
    pub fn record(&mut self, plan: &Plan, group: &Entries, count: usize)
        requires plan { plan.now ≡ self.old.plan }
        requires count { count ≤ length group.now }
        requires allowed { TakesAll self.old (map recorded_as (take count group.now)) }
        requires room { left_in self.old.plan (core_of_run self.old) + count ≤ self.old.room }
        ensures { self.new ≡ takes_all (map recorded_as (take count group.now)) self.old }
    {
        for i in 0..count {
            self.note(plan, recorded_as(*group.at(i)));
        }
    }

    /// Notes that the append of each entry of a group failed, in room that was taken. It wants no memory.
    pub fn fail(&mut self, plan: &Plan, group: &Entries)
        requires plan { plan.now ≡ self.old.plan }
        requires allowed { TakesAll self.old (map failed_as group.now) }
        requires room { left_in self.old.plan (core_of_run self.old) + length group.now ≤ self.old.room }
        ensures { self.new ≡ takes_all (map failed_as group.now) self.old }
    {
        for i in 0..group.len() {
            self.note(plan, failed_as(*group.at(i)));
        }
    }
}
