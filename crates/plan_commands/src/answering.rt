ghost use Rattle.std.specs.Prelude.{◌≡◌, ◌<◌, Err, IfOk, IfSome};
ghost use Rattle.flash_plan.specs.Plan.{count_of};
ghost use Rattle.plan_commands.specs.Answering.{answered, image_of, number_of, refused, shown_for, status_of};

use crate::status::Status;
use crate::words::Command;
use flash_base::{Bytes, NoMemory};
use flash_plan::Plan;
use plan_build::{BuildFault, Built};
use run_report::{check_text, image_text, no_task_line, refusal_line};
use std::alloc::Global;

/// What a command answers: its status, and the text that it prints.
#[derive(Debug, Drop)]
pub struct Answer {
    pub status: Status,
    pub text: Bytes,
}

fn status_of(fault: &BuildFault) -> Status
    ensures { result ≡ status_of fault.now }
{
    match fault {
        BuildFault::Shelf { name: _, fault: _ } => Status::Shelf,
        BuildFault::Input { name: _, cause: _ } => Status::Input,
        BuildFault::NoMemory => Status::NoMemory,
    }
}

/// What a refusal of the files answers; `NoMemory` has no answer.
pub fn refused(alloc: Global, fault: &BuildFault) -> Result<Answer, NoMemory>
    ensures is { IfOk result (λ answer. answer ≡ refused fault.now) }
    ensures some { IfOk result (λ answer. ¬ (fault.now ≡ BuildFault.NoMemory)) }
{
    let status = status_of(fault);
    if status == Status::NoMemory {
        return Err(NoMemory);
    }
    let text = refusal_line(alloc, fault)?;
    Ok(Answer { status, text })
}

/// The number of the unit with a name.
fn number_of(plan: &Plan, task: &str) -> Option<u16>
    ensures is { result ≡ number_of task.now plan.now }
    ensures within { IfSome result (λ n. n < count_of plan.now) }
{
    for n in 0..plan.units() {
        if plan.unit(n).name.is(task) {
            return Some(n);
        }
    }
    None
}

fn image_of(alloc: Global, order: &str, task: &str, built: &Built) -> Result<Answer, NoMemory>
    ensures { IfOk result (λ answer.
        answer ≡ image_of order.now task.now built.now (number_of task.now built.now.plan)) }
{
    match number_of(&built.plan, task) {
        None => Ok(Answer {
            status: Status::Input,
            text: no_task_line(alloc, order, task)?,
        }),
        Some(n) => Ok(Answer {
            status: Status::Done,
            text: image_text(alloc, built, n)?,
        }),
    }
}

fn shown_for(alloc: Global, command: &Command, built: &Built) -> Result<Answer, NoMemory>
    ensures { IfOk result (λ answer. answer ≡ shown_for command.now built.now) }
{
    match command {
        Command::Check { order: _ } => Ok(Answer {
            status: Status::Done,
            text: check_text(alloc, built)?,
        }),
        Command::Image { order, task } => image_of(alloc, order.as_str(), task.as_str(), built),
    }
}

/// What a command answers to what its files gave; `NoMemory` has no answer.
pub fn answered(
    alloc: Global,
    command: &Command,
    built: &Result<Built, BuildFault>,
) -> Result<Answer, NoMemory>
    ensures is { IfOk result (λ answer. answer ≡ answered command.now built.now) }
    ensures some { IfOk result (λ answer. ¬ (built.now ≡ Err BuildFault.NoMemory)) }
{
    match built {
        Ok(built) => shown_for(alloc, command, built),
        Err(fault) => refused(alloc, fault),
    }
}
