//! The text of what a journal records.
ghost use Rattle.std.specs.Prelude.{◌≡◌, ◌≤◌, ◌++◌, IfOk, OnOk, if◌then◌else◌};
ghost use Rattle.run_report.specs.Recorded.{complete_from, is_among, recorded_line, recorded_lines, standing_text, status_text};

use crate::pieces::put_lower;
use crate::text::{put_decimal, put_four};
use flash_base::{Bytes, NoMemory};
use flash_plan::{Entries, Entry, Plan, UnitPlan};
use std::alloc::Global;

/// Whether the entry is among those.
fn has(entries: &[Entry], entry: Entry) -> bool
    ensures { result ≡ is_among entries.now entry }
{
    for e in entries {
        if *e == entry {
            return true;
        }
    }
    false
}

/// Puts what is recorded of the unit with a number.
fn put_standing(out: &mut Bytes, entries: &[Entry], n: u16) -> Result<(), NoMemory>
    ensures { OnOk result (out.new ≡ out.old ++ standing_text (is_among entries.now) n) }
{
    if has(entries, Entry::Complete(n)) {
        return out.extend(b"complete");
    }
    if has(entries, Entry::Begun(n)) {
        return out.extend(b"incomplete");
    }
    out.extend(b"untouched")
}

/// Puts the line of a unit.
fn put_recorded(
    alloc: Global,
    out: &mut Bytes,
    unit: &UnitPlan,
    entries: &[Entry],
    n: u16,
) -> Result<(), NoMemory>
    ensures { OnOk result (out.new ≡ out.old ++ recorded_line (is_among entries.now) n unit.now) }
{
    out.extend(b"unit ")?;
    out.extend(unit.name.as_str().as_bytes())?;
    out.extend(b" ")?;
    put_four(alloc, out, unit.address)?;
    out.extend(b" ")?;
    put_standing(out, entries, n)?;
    out.extend(b"\n")?;
    Ok(())
}

fn put_units(alloc: Global, out: &mut Bytes, plan: &Plan, entries: &[Entry]) -> Result<(), NoMemory>
    ensures { OnOk result (out.new ≡ out.old ++ recorded_lines (is_among entries.now) 0 plan.now) }
{
    for n in 0..plan.units() {
        put_recorded(alloc, out, plan.unit(n), entries, n)?;
    }
    Ok(())
}

/// One where the unit with a number is recorded complete, else none.
fn one_complete(entries: &[Entry], n: u16) -> u16
    ensures is { result ≡ (if is_among entries.now (Entry.Complete n) then 1 else 0) }
    ensures small { result ≤ 1 }
{
    if has(entries, Entry::Complete(n)) {
        1
    } else {
        0
    }
}

/// How many units are recorded complete.
fn complete(plan: &Plan, entries: &[Entry]) -> u16
    ensures { result ≡ complete_from (is_among entries.now) 0 plan.now }
{
    let mut count = 0u16;
    for n in 0..plan.units() {
        count += one_complete(entries, n);
    }
    count
}

/// What a journal records of a plan: the line `plan DIGEST`, for each unit `unit NAME ADDRESS` and
/// `untouched`, `incomplete` (begun and not complete) or `complete`, and `complete C of N`.
/// Addresses are printed with 4 hexadecimal digits in upper case, the digest in lower case, other
/// numbers in decimal.
pub fn status_text(alloc: Global, plan: &Plan, entries: &Entries) -> Result<Bytes, NoMemory>
    ensures { IfOk result (λ b. b ≡ status_text plan.now (is_among entries.now)) }
{
    let digest = plan.digest();
    let entries = entries.as_slice();
    let mut out = Bytes::from_slice(alloc, b"plan ")?;
    put_lower(alloc, &mut out, &digest[..])?;
    out.extend(b"\n")?;
    put_units(alloc, &mut out, plan, entries)?;
    out.extend(b"complete ")?;
    put_decimal(&mut out, complete(plan, entries) as u64)?;
    out.extend(b" of ")?;
    put_decimal(&mut out, plan.units() as u64)?;
    out.extend(b"\n")?;
    Ok(out)
}
