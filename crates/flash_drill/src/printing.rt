//! What a drill prints: its summary line, and the lines of its run behind it.
ghost use Rattle.std.specs.Prelude.{◌≡◌, ◌≤◌, ◌++◌, IfOk};
ghost use Rattle.flash_drill.specs.Ending.{IsPrinted, IsPrintedRun, cut_off, summary};

use bench_gen::{blocks, bytes, units};
use flash_base::{Bytes, NoMemory};
use flash_shelf::Sink;
use plan_commands::Status;
use run_report::drill_line;
use std::alloc::Global;

/// The summary line of drill `n` with these lines behind it.
fn text_of(alloc: Global, n: u32, lines: &[u8]) -> Result<Bytes, NoMemory>
    requires { n ≤ 999999 }
    ensures { IfOk result (λ text. text ≡ summary n ++ lines.now) }
{
    let mut text = drill_line(alloc, n, units(n) as u64, bytes(n), blocks(n))?;
    text.extend(lines)?;
    Ok(text)
}

/// The status where a text could not be written whole.
fn cut_off(status: Status) -> Status
    ensures { result ≡ cut_off status }
{
    match status {
        Status::Done => Status::Sink,
        Status::Units => Status::Sink,
        other => other,
    }
}

/// Prints the summary line and the lines of a run, and tells the status; where there is no memory for
/// the text nothing is printed.
fn print_all<K: Sink>(alloc: Global, out: &mut K, n: u32, lines: &[u8], status: Status) -> Status
    requires { n ≤ 999999 }
    ensures { IsPrinted K.tells (K.history out.old) (K.history out.new) (summary n ++ lines.now) status result }
{
    let Ok(text) = text_of(alloc, n, lines) else {
        return Status::NoMemory;
    };
    match out.write(text.as_slice()) {
        Ok(()) => status,
        Err(_) => cut_off(status),
    }
}

/// Prints the summary line and the lines of a run, and tells the status. Where a call found no memory the status is
/// `NoMemory`, and the lines of the run are left out.
pub(crate) fn print_run<K: Sink>(
    alloc: Global,
    out: &mut K,
    n: u32,
    lines: &[u8],
    status: Status,
    starved: bool,
) -> Status
    requires { n ≤ 999999 }
    ensures { IsPrintedRun K.tells (K.history out.old) (K.history out.new) n lines.now status starved result }
{
    if starved {
        return print_all(alloc, out, n, &[], Status::NoMemory);
    }
    print_all(alloc, out, n, lines, status)
}
