ghost use Rattle.std.specs.Prelude.{◌≡◌, ◌++◌, IfOk, OnOk, length, count_by};
ghost use Rattle.flash_plan.specs.Plan.{count_of};
ghost use Rattle.run_report.specs.Report.{is_complete, lines, report_text};

use crate::text::{put_decimal, put_line};
use flash_base::{Bytes, Items, NoMemory};
use flash_plan::{Outcome, Plan};
use std::alloc::Global;

fn is_done(outcome: &Outcome) -> bool
    ensures { result ≡ is_complete outcome.now }
{
    match outcome {
        Outcome::Complete => true,
        _ => false,
    }
}

/// How many outcomes are complete.
fn complete(outcomes: &[Outcome]) -> usize
    ensures { result ≡ count_by is_complete outcomes.now }
{
    outcomes.iter().filter(|outcome| is_done(*outcome)).count()
}

fn put_lines(
    alloc: Global,
    out: &mut Bytes,
    plan: &Plan,
    outcomes: &Items<Outcome>,
) -> Result<(), NoMemory>
    requires { length outcomes.now ≡ count_of plan.now }
    ensures { OnOk result (out.new ≡ out.old ++ lines plan.now plan.now outcomes.now) }
{
    for n in 0..plan.units() {
        put_line(alloc, out, plan, plan.unit(n), outcomes.at(n as usize))?;
    }
    Ok(())
}

/// The report of a run: the line `plan DIGEST`, a line for each unit, and `complete C of N`. Unit
/// addresses and identifiers are printed with 4 hexadecimal digits, service bytes and codes with
/// 2, in upper case, the digest in lower case, other numbers in decimal.
pub fn report(alloc: Global, plan: &Plan, outcomes: &Items<Outcome>) -> Result<Bytes, NoMemory>
    requires { length outcomes.now ≡ count_of plan.now }
    ensures { IfOk result (λ b. b ≡ report_text plan.now outcomes.now) }
{
    let digest = plan.digest();
    let named = hex::encode(alloc, &digest[..])?;
    let mut out = Bytes::from_slice(alloc, b"plan ")?;
    out.extend(named.as_str().as_bytes())?;
    out.extend(b"\n")?;
    put_lines(alloc, &mut out, plan, outcomes)?;
    out.extend(b"complete ")?;
    put_decimal(&mut out, complete(outcomes.as_slice()) as u64)?;
    out.extend(b" of ")?;
    put_decimal(&mut out, plan.units() as u64)?;
    out.extend(b"\n")?;
    Ok(out)
}
