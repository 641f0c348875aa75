ghost use Rattle.std.specs.Prelude.{◌≡◌, ◌++◌, [], OnOk, decimal};
ghost use Rattle.flash_plan.specs.declared.outcome.Outcome.TheVariants.{CheckFailed, Refused};
ghost use Rattle.flash_plan.specs.Plan.{plan_of};
ghost use Rattle.run_report.specs.Report.{four, outcome_text, two, unit_line};

use flash_base::{Bytes, NoMemory};
use flash_plan::{Outcome, Plan, UnitPlan};
use itoa::Buffer;
use std::alloc::Global;

/// Puts a number in decimal digits.
pub fn put_decimal(out: &mut Bytes, n: u64) -> Result<(), NoMemory>
    ensures { OnOk result (out.new ≡ out.old ++ decimal n) }
{
    let mut buffer = Buffer::new();
    out.extend(buffer.format(n).as_bytes())
}

/// Puts a byte as two hexadecimal digits.
fn put_two(alloc: Global, out: &mut Bytes, n: u8) -> Result<(), NoMemory>
    ensures { OnOk result (out.new ≡ out.old ++ two n) }
{
    let digits = hex::encode_upper(alloc, &[n][..])?;
    out.extend(digits.as_str().as_bytes())
}

/// Puts a number as four hexadecimal digits.
pub fn put_four(alloc: Global, out: &mut Bytes, n: u16) -> Result<(), NoMemory>
    ensures { OnOk result (out.new ≡ out.old ++ four n) }
{
    let digits = hex::encode_upper(alloc, &[(n / 256) as u8, (n % 256) as u8][..])?;
    out.extend(digits.as_str().as_bytes())
}

/// Puts the name of a unit; of a number that is no unit's, nothing.
pub fn put_name(out: &mut Bytes, plan: &Plan, n: u16) -> Result<(), NoMemory>
    ensures { OnOk result (out.new ≡ out.old ++ (plan_of plan.now n).name) }
{
    if n < plan.units() {
        out.extend(plan.unit(n).name.as_str().as_bytes())
    } else {
        Ok(())
    }
}

/// Puts some words and a byte.
fn put_coded(alloc: Global, out: &mut Bytes, words: &[u8], n: u8) -> Result<(), NoMemory>
    ensures { OnOk result (out.new ≡ out.old ++ (words.now ++ two n)) }
{
    out.extend(words)?;
    put_two(alloc, out, n)
}

/// Puts some words and a number of four digits.
pub fn put_named(alloc: Global, out: &mut Bytes, words: &[u8], n: u16) -> Result<(), NoMemory>
    ensures { OnOk result (out.new ≡ out.old ++ (words.now ++ four n)) }
{
    out.extend(words)?;
    put_four(alloc, out, n)
}

fn put_refused(alloc: Global, out: &mut Bytes, sid: u8, nrc: u8) -> Result<(), NoMemory>
    ensures { OnOk result (out.new ≡ out.old ++ outcome_text [] (Refused sid nrc)) }
{
    put_coded(alloc, out, b"refused ", sid)?;
    put_coded(alloc, out, b" ", nrc)
}

fn put_check(
    alloc: Global,
    out: &mut Bytes,
    routine: u16,
    segment: u16,
    status: u8,
) -> Result<(), NoMemory>
    ensures { OnOk result (out.new ≡ out.old ++ outcome_text [] (CheckFailed routine segment status)) }
{
    put_named(alloc, out, b"check failed ", routine)?;
    out.extend(b" ")?;
    put_decimal(out, segment as u64)?;
    out.extend(b" ")?;
    put_two(alloc, out, status)?;
    Ok(())
}

/// Puts the words of an outcome.
fn put_outcome(
    alloc: Global,
    out: &mut Bytes,
    plan: &Plan,
    outcome: &Outcome,
) -> Result<(), NoMemory>
    ensures { OnOk result (out.new ≡ out.old ++ outcome_text plan.now outcome.now) }
{
    match *outcome {
        Outcome::Complete => out.extend(b"complete"),
        Outcome::IdentMismatch { did } => put_named(alloc, out, b"ident mismatch ", did),
        Outcome::Refused { sid, nrc } => put_refused(alloc, out, sid, nrc),
        Outcome::BadAnswer { sid } => put_coded(alloc, out, b"bad answer ", sid),
        Outcome::CheckFailed {
            routine,
            segment,
            status,
        } => put_check(alloc, out, routine, segment, status),
        Outcome::Undelivered { code } => put_coded(alloc, out, b"undelivered ", code),
        Outcome::NoAnswer { sid } => put_coded(alloc, out, b"no answer ", sid),
        Outcome::PendingLimit { sid } => put_coded(alloc, out, b"pending limit ", sid),
        Outcome::BusyLimit { sid } => put_coded(alloc, out, b"busy limit ", sid),
        Outcome::LinkLost { times } => {
            out.extend(b"link lost ")?;
            put_decimal(out, times as u64)
        }
        Outcome::LinkRefused { code } => put_coded(alloc, out, b"link refused ", code),
        Outcome::Blocked { by } => {
            out.extend(b"blocked by ")?;
            put_name(out, plan, by)
        }
        Outcome::DiskFault => out.extend(b"disk fault"),
        Outcome::NoMemory => out.extend(b"no memory"),
    }
}

/// Puts the line of a unit.
pub fn put_line(
    alloc: Global,
    out: &mut Bytes,
    plan: &Plan,
    unit: &UnitPlan,
    outcome: &Outcome,
) -> Result<(), NoMemory>
    ensures { OnOk result (out.new ≡ out.old ++ unit_line plan.now unit.now outcome.now) }
{
    out.extend(b"unit ")?;
    out.extend(unit.name.as_str().as_bytes())?;
    out.extend(b" ")?;
    put_four(alloc, out, unit.address)?;
    out.extend(b" ")?;
    put_outcome(alloc, out, plan, outcome)?;
    out.extend(b"\n")?;
    Ok(())
}
