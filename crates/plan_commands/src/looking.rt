//! What `status` answers.
ghost use Rattle.std.specs.Prelude.{◌≡◌, ◌≤◌, IfOk};
ghost use Rattle.plan_commands.specs.Looking.{IsLooked, IsStatusAnswer, IsStatusServed, OnlyReads, ServesStatus, Shows};

use crate::answering::{Answer, refused};
use crate::printing::print;
use crate::status::Status;
use flash_base::{Bytes, NoMemory};
use flash_journal::{Entries, OpenFault, look};
use flash_plan::Plan;
use flash_shelf::{Shelf, Sink};
use plan_build::laws::files_give_one_answer;
use plan_build::{BuildFault, Built, build};
use run_report::{disk_fault_line, no_journal_line, other_plan_line, status_text};
use shop_model::Shop;
use std::alloc::Global;
use std::thread::Threads;

/// What is answered to what a look at the journal gave; want of memory has no answer.
fn shown(
    alloc: Global,
    plan: &Plan,
    looked: &Result<Entries, OpenFault>,
) -> Result<Answer, NoMemory>
    ensures { IfOk result (Shows plan.now looked.now) }
{
    match looked {
        Ok(entries) => {
            let text = status_text(alloc, plan, entries)?;
            Ok(Answer {
                status: Status::Done,
                text,
            })
        }
        Err(OpenFault::NotJournal) => {
            let text = Bytes::from_slice(alloc, no_journal_line())?;
            Ok(Answer {
                status: Status::Journal,
                text,
            })
        }
        Err(OpenFault::OtherPlan { said }) => {
            let ours = plan.digest();
            let text = other_plan_line(alloc, &said[..], &ours[..])?;
            Ok(Answer {
                status: Status::Journal,
                text,
            })
        }
        Err(OpenFault::DiskFault) => {
            let text = Bytes::from_slice(alloc, disk_fault_line())?;
            Ok(Answer {
                status: Status::Disk,
                text,
            })
        }
        Err(OpenFault::NoMemory) => Err(NoMemory),
    }
}

/// Looks at the journal of a plan.
fn looked<S: Shop>(alloc: Global, shop: &mut S, plan: &Plan) -> Result<Answer, NoMemory>
    ensures is { IfOk result (IsLooked S.tells_disk (S.history shop.old) (S.history shop.new) plan.now) }
    ensures reads { OnlyReads (S.history shop.old) (S.history shop.new) }
{
    let given = look(alloc, shop, plan);
    shown(alloc, plan, &given)
}

/// What `status` answers to what the files gave: the journal is looked at where they gave a plan.
fn status_answer<S: Shop>(
    alloc: Global,
    built: &Result<Built, BuildFault>,
    shop: &mut S,
) -> Result<Answer, NoMemory>
    ensures is { IfOk result
        (IsStatusAnswer S.tells_disk (S.history shop.old) (S.history shop.new) built.now) }
    ensures reads { OnlyReads (S.history shop.old) (S.history shop.new) }
{
    match built {
        Ok(built) => looked(alloc, shop, &built.plan),
        Err(fault) => refused(alloc, fault),
    }
}

/// Builds the plan of an order file, and prints what `status` answers.
fn answer_status<R: Threads + Sync, F: Shelf, S: Shop, K: Sink>(
    rt: &R,
    alloc: Global,
    order: &str,
    shelf: &mut F,
    shop: &mut S,
    out: &mut K,
) -> Status
    ensures keeps { (F.history shelf.new).contents ≡ (F.history shelf.old).contents }
    ensures never_falls { (F.history shelf.old).faults ≤ (F.history shelf.new).faults }
    ensures sink_never_falls { (K.history out.old).faults ≤ (K.history out.new).faults }
    ensures reads { OnlyReads (S.history shop.old) (S.history shop.new) }
    ensures served { IsStatusServed F.tells (F.history shelf.old) (F.history shelf.new)
        S.tells_disk (S.history shop.old) (S.history shop.new)
        K.tells (K.history out.old) (K.history out.new) order.now result }
{
    let built = build(rt, alloc, shelf, order);
    match status_answer(alloc, &built, shop) {
        Ok(answer) => print(out, &answer),
        Err(_) => Status::NoMemory,
    }
}

/// Serves `status ORDER`: builds the plan of the order file, and prints what the journal records of
/// it, or the one line of the first refusal. A journal that is not made yet records nothing.
///
/// It reads the disk, and at no moment changes it; it makes no link call. A version 1 journal is
/// read as such and not migrated.
pub fn serve_status<R: Threads + Sync, F: Shelf, S: Shop, K: Sink>(
    rt: &R,
    alloc: Global,
    order: &str,
    shelf: &mut F,
    shop: &mut S,
    out: &mut K,
) -> Status
    ensures keeps { (F.history shelf.new).contents ≡ (F.history shelf.old).contents }
    ensures never_falls { (F.history shelf.old).faults ≤ (F.history shelf.new).faults }
    ensures sink_never_falls { (K.history out.old).faults ≤ (K.history out.new).faults }

    // What `status` promises: the text, the status and its cause, and that the disk is only read.
    ensures serves { ServesStatus F.tells (F.history shelf.old) (F.history shelf.new)
        S.tells_disk (S.history shop.old) (S.history shop.new)
        K.tells (K.history out.old) (K.history out.new) order.now result }
{
    files_give_one_answer();
    answer_status(rt, alloc, order, shelf, shop, out)
}
