//! The lines that stand alone.
ghost use Rattle.std.specs.Prelude.{◌≡◌, IfOk};
ghost use Rattle.run_report.specs.OneLine.{disk_fault_line, drill_line, no_journal_line, other_plan_line, usage_line};

use crate::pieces::put_lower;
use crate::text::put_decimal;
use flash_base::{Bytes, NoMemory};
use std::alloc::Global;

/// The line of words that are not in the form.
pub fn usage_line() -> &'static [u8]
    ensures { result.now ≡ usage_line }
{
    b"usage\n"
}

/// The line of a file that is no journal.
pub fn no_journal_line() -> &'static [u8]
    ensures { result.now ≡ no_journal_line }
{
    b"journal not a journal\n"
}

/// The line of a disk that failed before a run.
pub fn disk_fault_line() -> &'static [u8]
    ensures { result.now ≡ disk_fault_line }
{
    b"disk fault\n"
}

/// The line of another plan's journal, `journal other plan SAID OURS`: the digest that the journal
/// says, and that of the plan, in lower case.
pub fn other_plan_line(alloc: Global, said: &[u8], ours: &[u8]) -> Result<Bytes, NoMemory>
    ensures { IfOk result (λ b. b ≡ other_plan_line said.now ours.now) }
{
    let mut out = Bytes::from_slice(alloc, b"journal other plan ")?;
    put_lower(alloc, &mut out, said)?;
    out.extend(b" ")?;
    put_lower(alloc, &mut out, ours)?;
    out.extend(b"\n")?;
    Ok(out)
}

/// The first line of a drill, `drill N units U bytes B blocks K`: its number, how many units the
/// vehicle has, how many bytes they are given, and in how many blocks.
pub fn drill_line(
    alloc: Global,
    n: u32,
    units: u64,
    bytes: u64,
    blocks: u64,
) -> Result<Bytes, NoMemory>
    ensures { IfOk result (λ b. b ≡ drill_line n units bytes blocks) }
{
    let mut out = Bytes::from_slice(alloc, b"drill ")?;
    put_decimal(&mut out, n as u64)?;
    out.extend(b" units ")?;
    put_decimal(&mut out, units)?;
    out.extend(b" bytes ")?;
    put_decimal(&mut out, bytes)?;
    out.extend(b" blocks ")?;
    put_decimal(&mut out, blocks)?;
    out.extend(b"\n")?;
    Ok(out)
}
