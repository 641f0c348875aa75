ghost use Rattle.std.specs.Prelude.{◌≡◌, ◌++◌, ◌<◌, ◌≤◌, bytes_eq, length, map, IfOk, OnOk};
ghost use Rattle.flash_plan.specs.Accepting.{after_of, units_of};
ghost use Rattle.flash_plan.specs.Numbering.{has_text, names_task, numbered_with, one_if, TakesLast};

use crate::naming::draft_at;
use crate::unit::{Draft, UnitPlan};
use flash_base::{Items, Names, NoMemory, Text};
use std::alloc::Global;

fn is_text(text: &Text, other: &Text) -> bool
    ensures { result ≡ bytes_eq text.now other.now }
{
    text.is(other.as_str())
}

/// Whether the text is one of these.
fn has_text(names: &Names, text: &Text) -> bool
    ensures { result ≡ has_text names.now text.now }
{
    for i in 0..names.len() {
        if is_text(names.at(i), text) {
            return true;
        }
    }
    false
}

/// Whether a draft names task `w`.
fn names_task(drafts: &[Draft], draft: &Draft, w: usize) -> bool
    requires { w < length drafts.now }
    ensures { result ≡ names_task drafts.now draft.now w }
{
    has_text(&draft.after, &draft_at(drafts, w).name)
}

fn push_if(numbers: &mut Items<u16>, number: u16, is: bool) -> Result<(), NoMemory>
    ensures { OnOk result (numbers.new ≡ numbers.old ++ one_if is number) }
{
    if is {
        return numbers.push(number);
    }
    Ok(())
}

/// The numbers of the tasks that a draft names, each once and ascending.
fn after_of(alloc: Global, drafts: &[Draft], draft: &Draft) -> Result<Items<u16>, NoMemory>
    requires { length drafts.now ≤ 64 }
    ensures { IfOk result (λ numbers. numbers ≡ after_of drafts.now draft.now) }
{
    let mut numbers = Items::new(alloc);
    for w in 0..drafts.len() {
        let is = names_task(drafts, draft, w);
        push_if(&mut numbers, w as u16, is)?;
    }
    Ok(numbers)
}

/// The numbers for each draft.
pub(crate) fn all_after(alloc: Global, drafts: &[Draft]) -> Result<Items<Items<u16>>, NoMemory>
    requires { length drafts.now ≤ 64 }
    ensures { IfOk result (λ afters. afters ≡ map (after_of drafts.now) drafts.now) }
{
    let mut afters = Items::new(alloc);
    for n in 0..drafts.len() {
        let after = after_of(alloc, drafts, &drafts[n])?;
        afters.push(after)?;
    }
    Ok(afters)
}

/// The unit of a draft that waits for these units.
fn unit_with(draft: Draft, after: Items<u16>) -> UnitPlan
    ensures { result ≡ numbered_with draft after }
{
    let Draft {
        name,
        address,
        width,
        check,
        key,
        idents,
        after: _,
        segments,
    } = draft;
    UnitPlan {
        name,
        address,
        width,
        check,
        key,
        idents,
        after,
        segments,
    }
}

/// The last draft's unit.
fn last_unit(drafts: &mut Vec<Draft>, afters: &mut Vec<Items<u16>>) -> Option<UnitPlan>
    ensures { TakesLast drafts.old.items afters.old.items drafts.new.items afters.new.items result }
{
    let draft = drafts.pop()?;
    let after = afters.pop()?;
    Some(unit_with(draft, after))
}

/// The units of the drafts, whose fields they take over.
pub(crate) fn units_of(
    alloc: Global,
    drafts: Items<Draft>,
    afters: Items<Items<u16>>,
) -> Result<Items<UnitPlan>, NoMemory>
    requires { afters ≡ map (after_of drafts) drafts }
    ensures { IfOk result (λ units. units ≡ units_of drafts) }
{
    let mut left = drafts.into_vec();
    let mut numbers = afters.into_vec();
    let mut units = Items::new(alloc);
    while let Some(unit) = last_unit(&mut left, &mut numbers) {
        units.push_front(unit)?;
    }
    Ok(units)
}
