//! What is printed at the end of a run: its report, or the one line of what was refused before it.
ghost use Rattle.std.specs.Prelude.{◌≡◌, ◌≤◌, length, Err, IfOk};
ghost use Rattle.flash_plan.specs.Plan.{count_of};
ghost use Rattle.plan_commands.specs.Looking.{Shows};
ghost use Rattle.flash_commands.specs.Outcomes.{on_board, status_by};
ghost use Rattle.flash_commands.specs.Printing.{PrintsFilesLine, PrintsJournalLine, PrintsReport};

use crate::outcomes::{cut_off, outcomes_of, status_by};
use barrier_board::Board;
use flash_base::{Bytes, Items, NoMemory};
use flash_journal::OpenFault;
use flash_plan::{Outcome, Plan};
use flash_shelf::Sink;
use plan_build::BuildFault;
use plan_commands::{Answer, Status, print, refused};
use run_report::{disk_fault_line, no_journal_line, other_plan_line, report};
use std::alloc::Global;

/// Prints why there is no plan, and tells the status; `NoMemory` has no line.
pub fn refuse_files<K: Sink>(alloc: Global, out: &mut K, fault: BuildFault) -> Status
    ensures never_falls { (K.history out.old).faults ≤ (K.history out.new).faults }
    ensures said { PrintsFilesLine K.tells (K.history out.old) (K.history out.new) fault result }
{
    print_refusal(alloc, out, &fault)
}

fn print_refusal<K: Sink>(alloc: Global, out: &mut K, fault: &BuildFault) -> Status
    ensures never_falls { (K.history out.old).faults ≤ (K.history out.new).faults }
    ensures said { PrintsFilesLine K.tells (K.history out.old) (K.history out.new) fault.now result }
{
    match refused(alloc, fault) {
        Ok(answer) => print(out, &answer),
        Err(_) => Status::NoMemory,
    }
}

/// What a journal that could not be opened answers; `NoMemory` has no answer.
fn unopened(alloc: Global, plan: &Plan, fault: &OpenFault) -> Result<Answer, NoMemory>
    ensures { IfOk result (Shows plan.now (Err fault.now)) }
{
    match fault {
        OpenFault::NotJournal => Ok(Answer {
            status: Status::Journal,
            text: Bytes::from_slice(alloc, no_journal_line())?,
        }),
        OpenFault::OtherPlan { said } => {
            let ours = plan.digest();
            let text = other_plan_line(alloc, &said[..], &ours[..])?;
            Ok(Answer {
                status: Status::Journal,
                text,
            })
        }
        OpenFault::DiskFault => Ok(Answer {
            status: Status::Disk,
            text: Bytes::from_slice(alloc, disk_fault_line())?,
        }),
        OpenFault::NoMemory => Err(NoMemory),
    }
}

/// Prints why a journal could not be opened, and tells the status; `NoMemory` has no line.
pub fn refuse_journal<K: Sink>(alloc: Global, out: &mut K, plan: &Plan, fault: &OpenFault) -> Status
    ensures never_falls { (K.history out.old).faults ≤ (K.history out.new).faults }
    ensures said { PrintsJournalLine K.tells (K.history out.old) (K.history out.new)
        plan.now fault.now result }
{
    match unopened(alloc, plan, fault) {
        Ok(answer) => print(out, &answer),
        Err(_) => Status::NoMemory,
    }
}

/// Prints the report of these outcomes, and tells the status.
fn print_report<K: Sink>(
    alloc: Global,
    out: &mut K,
    plan: &Plan,
    outcomes: &Items<Outcome>,
) -> Status
    requires { length outcomes.now ≡ count_of plan.now }
    ensures never_falls { (K.history out.old).faults ≤ (K.history out.new).faults }
    ensures printed { PrintsReport K.tells (K.history out.old) (K.history out.new)
        plan.now outcomes.now result }
{
    let Ok(text) = report(alloc, plan, outcomes) else {
        return Status::NoMemory;
    };
    let status = status_by(outcomes.as_slice());
    match out.write(text.as_slice()) {
        Ok(()) => status,
        Err(_) => cut_off(status),
    }
}

/// Prints the report of a run that is over, and tells how the command ended: no memory for a unit or text,
/// a disk that failed, a report that could not be written whole, and else whether every unit is complete.
pub fn finish<K: Sink>(alloc: Global, out: &mut K, plan: &Plan, board: &Board) -> Status
    requires { length board.now ≡ count_of plan.now }
    ensures never_falls { (K.history out.old).faults ≤ (K.history out.new).faults }
    ensures printed { PrintsReport K.tells (K.history out.old) (K.history out.new)
        plan.now (on_board board.now) result }
{
    match outcomes_of(alloc, plan, board) {
        Ok(outcomes) => print_report(alloc, out, plan, &outcomes),
        Err(_) => Status::NoMemory,
    }
}
