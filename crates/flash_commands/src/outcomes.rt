//! The outcomes of a run's units, and the status that they lead to.
ghost use Rattle.std.specs.Prelude.{◌≡◌, length, IfOk};
ghost use Rattle.flash_base.specs.Lists.{all_of};
ghost use Rattle.flash_plan.specs.Plan.{count_of};
ghost use Rattle.run_report.specs.Report.{is_complete};
ghost use Rattle.flash_commands.specs.Outcomes.{cut_off, given, is_disk_fault, lacks_memory, on_board, some_is, status_by};

use barrier_board::Board;
use flash_base::{Items, NoMemory};
use flash_plan::{Outcome, Plan};
use plan_commands::Status;
use std::alloc::Global;

/// The outcome of a unit; each unit of a run that is over has one.
fn given(outcome: Option<Outcome>) -> Outcome
    ensures { result ≡ given outcome }
{
    match outcome {
        Some(outcome) => outcome,
        None => Outcome::NoMemory,
    }
}

/// The outcomes on a board, in the order of the plan.
pub fn outcomes_of(alloc: Global, plan: &Plan, board: &Board) -> Result<Items<Outcome>, NoMemory>
    requires { length board.now ≡ count_of plan.now }
    ensures { IfOk result (λ outcomes. outcomes ≡ on_board board.now) }
{
    let mut outcomes = Items::new(alloc);
    for unit in 0..plan.units() {
        outcomes.push(given(board.outcome(unit)))?;
    }
    Ok(outcomes)
}

fn is_complete(outcome: Outcome) -> bool
    ensures { result ≡ is_complete outcome }
{
    match outcome {
        Outcome::Complete => true,
        _ => false,
    }
}

fn all_complete(outcomes: &[Outcome]) -> bool
    ensures { result ≡ all_of outcomes.now is_complete }
{
    for outcome in outcomes {
        if !is_complete(*outcome) {
            return false;
        }
    }
    true
}

fn lacks_memory(outcome: Outcome) -> bool
    ensures { result ≡ lacks_memory outcome }
{
    match outcome {
        Outcome::NoMemory => true,
        _ => false,
    }
}

fn some_lacks_memory(outcomes: &[Outcome]) -> bool
    ensures { result ≡ some_is lacks_memory outcomes.now }
{
    for outcome in outcomes {
        if lacks_memory(*outcome) {
            return true;
        }
    }
    false
}

fn is_disk_fault(outcome: Outcome) -> bool
    ensures { result ≡ is_disk_fault outcome }
{
    match outcome {
        Outcome::DiskFault => true,
        _ => false,
    }
}

fn some_disk_fault(outcomes: &[Outcome]) -> bool
    ensures { result ≡ some_is is_disk_fault outcomes.now }
{
    for outcome in outcomes {
        if is_disk_fault(*outcome) {
            return true;
        }
    }
    false
}

/// The status of a run with these outcomes, before anything is printed.
pub fn status_by(outcomes: &[Outcome]) -> Status
    ensures { result ≡ status_by outcomes.now }
{
    if some_lacks_memory(outcomes) {
        return Status::NoMemory;
    }
    if some_disk_fault(outcomes) {
        return Status::Disk;
    }
    if all_complete(outcomes) {
        return Status::Done;
    }
    Status::Units
}

/// The status where the report could not be written whole.
pub fn cut_off(status: Status) -> Status
    ensures { result ≡ cut_off status }
{
    match status {
        Status::Done => Status::Sink,
        Status::Units => Status::Sink,
        other => other,
    }
}
