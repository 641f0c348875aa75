//! The text of a plan that was built and not run.
ghost use Rattle.std.specs.Prelude.{◌≡◌, ◌<◌, ◌≤◌, ◌++◌, IfOk, OnOk};
ghost use Rattle.std.specs.List.{flat_map};
ghost use Rattle.flash_plan.specs.Plan.{count_of, plan_of, size_of, total_of};
ghost use Rattle.run_report.specs.Checking.{after_text, check_text, checksum_line, checksum_lines, further_name, planned_line, planned_part, planned_parts};

use crate::pieces::{put_lower, put_shown};
use crate::text::{put_decimal, put_four, put_name};
use flash_base::{Bytes, NoMemory, Text};
use flash_plan::{Plan, Segment, UnitPlan};
use plan_build::{Built, TaskChecks};
use session_image::Checked;
use std::alloc::Global;

/// How many bytes the segments have.
fn size_of(segments: &[Segment]) -> u64
    requires { size_of segments.now ≤ 16777216 }
    ensures { result ≡ size_of segments.now }
{
    let mut sum = 0u64;
    for i in 0..segments.len() {
        sum += segments[i].body.len() as u64;
    }
    sum
}

/// How many bytes the units have.
fn total_of(plan: &Plan) -> u64
    ensures { result ≡ total_of plan.now }
{
    plan.is_accepted();
    let mut sum = 0u64;
    for n in 0..plan.units() {
        sum += size_of(plan.unit(n).segments.as_slice());
    }
    sum
}

fn put_further(out: &mut Bytes, plan: &Plan, after: &[u16]) -> Result<(), NoMemory>
    ensures { OnOk result (out.new ≡ out.old ++ flat_map (further_name plan.now) after.now) }
{
    for n in after {
        put_further_name(out, plan, *n)?;
    }
    Ok(())
}

fn put_further_name(out: &mut Bytes, plan: &Plan, n: u16) -> Result<(), NoMemory>
    ensures { OnOk result (out.new ≡ out.old ++ further_name plan.now n) }
{
    out.extend(b",")?;
    put_name(out, plan, n)
}

/// Puts the names of the units that come before a unit, or `-`.
fn put_after(out: &mut Bytes, plan: &Plan, after: &[u16]) -> Result<(), NoMemory>
    ensures { OnOk result (out.new ≡ out.old ++ after_text plan.now after.now) }
{
    match after {
        [] => out.extend(b"-"),
        [first, rest @ ..] => {
            put_name(out, plan, *first)?;
            put_further(out, plan, rest)
        }
    }
}

/// Puts the line of a unit.
fn put_planned(alloc: Global, out: &mut Bytes, plan: &Plan, unit: &UnitPlan) -> Result<(), NoMemory>
    requires { size_of unit.now.segments ≤ 16777216 }
    ensures { OnOk result (out.new ≡ out.old ++ planned_line plan.now unit.now) }
{
    out.extend(b"unit ")?;
    out.extend(unit.name.as_str().as_bytes())?;
    out.extend(b" ")?;
    put_four(alloc, out, unit.address)?;
    out.extend(b" segments ")?;
    put_decimal(out, unit.segments.len() as u64)?;
    out.extend(b" bytes ")?;
    put_decimal(out, size_of(unit.segments.as_slice()))?;
    out.extend(b" after ")?;
    put_after(out, plan, unit.after.as_slice())?;
    out.extend(b"\n")?;
    Ok(())
}

/// Puts the line of a checksum of a task.
fn put_checksum(out: &mut Bytes, task: &Text, check: &Checked) -> Result<(), NoMemory>
    ensures { OnOk result (out.new ≡ out.old ++ checksum_line task.now check.now) }
{
    out.extend(b"checksum ")?;
    out.extend(task.as_str().as_bytes())?;
    out.extend(b" ")?;
    put_shown(out, check.name.as_str())?;
    if check.done {
        out.extend(b" ok\n")
    } else {
        out.extend(b" not checked\n")
    }
}

fn put_checksums(out: &mut Bytes, task: &Text, checks: &[Checked]) -> Result<(), NoMemory>
    ensures { OnOk result (out.new ≡ out.old ++ flat_map (checksum_line task.now) checks.now) }
{
    for check in checks {
        put_checksum(out, task, check)?;
    }
    Ok(())
}

/// Puts the lines of a task's checksums, where it is the task with this number.
fn put_task(out: &mut Bytes, n: u16, name: &Text, task: &TaskChecks) -> Result<(), NoMemory>
    ensures { OnOk result (out.new ≡ out.old ++ checksum_lines n name.now task.now) }
{
    if task.task == n {
        return put_checksums(out, name, task.checks.as_slice());
    }
    Ok(())
}

fn put_tasks(out: &mut Bytes, n: u16, name: &Text, tasks: &[TaskChecks]) -> Result<(), NoMemory>
    ensures { OnOk result (out.new ≡ out.old ++ flat_map (checksum_lines n name.now) tasks.now) }
{
    for task in tasks {
        put_task(out, n, name, task)?;
    }
    Ok(())
}

/// Puts the line of a unit and those of its checksums.
fn put_part(
    alloc: Global,
    out: &mut Bytes,
    plan: &Plan,
    tasks: &[TaskChecks],
    n: u16,
) -> Result<(), NoMemory>
    requires { n < count_of plan.now }
    ensures { OnOk result (out.new ≡ out.old ++ planned_part plan.now tasks.now n) }
{
    plan.is_accepted();
    let unit = plan.unit(n);
    put_planned(alloc, out, plan, unit)?;
    put_tasks(out, n, &unit.name, tasks)
}

fn put_parts(
    alloc: Global,
    out: &mut Bytes,
    plan: &Plan,
    tasks: &[TaskChecks],
) -> Result<(), NoMemory>
    ensures { OnOk result (out.new ≡ out.old ++ planned_parts plan.now tasks.now (count_of plan.now)) }
{
    for n in 0..plan.units() {
        put_part(alloc, out, plan, tasks, n)?;
    }
    Ok(())
}

/// The text of a plan that was built: the line `plan DIGEST`, for each unit the line
/// `unit NAME ADDRESS segments K bytes B after LIST` and behind it a line for each checksum of its
/// session, `checksum TASK NAME ok` or `checksum TASK NAME not checked`, and `units N bytes B`.
/// LIST has the names of the units that have to be complete before, in the order of their numbers,
/// joined by `,`, or is `-`.
pub fn check_text(alloc: Global, built: &Built) -> Result<Bytes, NoMemory>
    ensures { IfOk result (λ b. b ≡ check_text built.now) }
{
    let plan = &built.plan;
    let digest = plan.digest();
    let mut out = Bytes::from_slice(alloc, b"plan ")?;
    put_lower(alloc, &mut out, &digest[..])?;
    out.extend(b"\n")?;
    put_parts(alloc, &mut out, plan, built.checks.as_slice())?;
    out.extend(b"units ")?;
    put_decimal(&mut out, plan.units() as u64)?;
    out.extend(b" bytes ")?;
    put_decimal(&mut out, total_of(plan))?;
    out.extend(b"\n")?;
    Ok(out)
}
