//! The refusals of the parts, each with the file that it speaks of.
ghost use Rattle.std.specs.Prelude.{◌≡◌, ◌⊎◌, IfOk};
ghost use Rattle.plan_build.specs.Refusals.{data_file, file_with, image_refusal, lines_refusal, mem_refusal, name_of, order_refusal, plan_refusal, tree_refusal};

use crate::built::Catalogue;
use crate::fault::{BuildFault, Cause};
use ecu_mem::{Flash, MemFault, Source};
use flash_base::{NoMemory, Text};
use flash_order::{OrderFault, Task};
use flash_plan::PlanFault;
use odx_tree::TreeFault;
use rec_text::RecFault;
use session_image::ImageFault;
use std::alloc::Global;

/// The refusal of what is said in a file.
pub(crate) fn input(alloc: Global, name: &str, cause: Cause) -> BuildFault
    ensures { (result ≡ BuildFault.NoMemory) ⊎ (result ≡ BuildFault.Input name.now cause) }
{
    match Text::from_str(alloc, name) {
        Ok(name) => BuildFault::Input { name, cause },
        Err(_) => BuildFault::NoMemory,
    }
}

pub(crate) fn order_refusal(alloc: Global, name: &str, fault: OrderFault) -> BuildFault
    ensures { (result ≡ BuildFault.NoMemory) ⊎ (result ≡ order_refusal name.now fault) }
{
    match fault {
        OrderFault::NotJson => input(alloc, name, Cause::NotJson),
        OrderFault::BadField { task, field } => input(alloc, name, Cause::BadField { task, field }),
        OrderFault::NoMemory => BuildFault::NoMemory,
    }
}

pub(crate) fn tree_refusal(alloc: Global, name: &str, fault: TreeFault) -> BuildFault
    ensures { (result ≡ BuildFault.NoMemory) ⊎ (result ≡ tree_refusal name.now fault) }
{
    match fault {
        TreeFault::TooLarge => input(alloc, name, Cause::TooLarge),
        TreeFault::NotJson => input(alloc, name, Cause::NotJson),
        TreeFault::NotTree { path } => input(alloc, name, Cause::NotTree { path }),
        TreeFault::NoMemory => BuildFault::NoMemory,
    }
}

pub(crate) fn mem_refusal(alloc: Global, name: &str, fault: MemFault) -> BuildFault
    ensures { (result ≡ BuildFault.NoMemory) ⊎ (result ≡ mem_refusal name.now fault) }
{
    match fault {
        MemFault::Missing { path, tag } => input(alloc, name, Cause::Missing { path, tag }),
        MemFault::BadNumber { path } => input(alloc, name, Cause::BadNumber { path }),
        MemFault::Twice { id } => input(alloc, name, Cause::Twice { id }),
        MemFault::Dangling { id } => input(alloc, name, Cause::Dangling { id }),
        MemFault::NoMemory => BuildFault::NoMemory,
    }
}

fn lines_refusal(alloc: Global, name: &str, fault: RecFault) -> BuildFault
    ensures { (result ≡ BuildFault.NoMemory) ⊎ (result ≡ lines_refusal name.now fault) }
{
    match fault {
        RecFault::BadLine { n } => input(alloc, name, Cause::BadLine { n }),
        RecFault::BadSum { n } => input(alloc, name, Cause::BadSum { n }),
        RecFault::BadCount { said, seen } => input(alloc, name, Cause::BadCount { said, seen }),
        RecFault::AfterEnd { n } => input(alloc, name, Cause::AfterEnd { n }),
        RecFault::Conflict { at } => input(alloc, name, Cause::Conflict { at }),
        RecFault::NoEnd => input(alloc, name, Cause::NoEnd),
        RecFault::NoMemory => BuildFault::NoMemory,
    }
}

/// The file that has some data: the data file, or the catalogue where they stand inside.
fn file_with<'a>(name: &'a str, source: &'a Source) -> &'a str
    ensures { result.now ≡ file_with name.now source.now }
{
    match source {
        Source::Inside(_) => name,
        Source::File(file) => file.as_str(),
    }
}

/// The file that has the flash data with an ID.
fn data_file<'a>(name: &'a str, id: &str, flashes: &'a [Flash]) -> &'a str
    ensures { result.now ≡ data_file name.now id.now flashes.now }
{
    for flash in flashes {
        if flash.id.is(id) {
            return file_with(name, &flash.source);
        }
    }
    name
}

pub(crate) fn image_refusal(alloc: Global, catalogue: &Catalogue, fault: ImageFault) -> BuildFault
    ensures { (result ≡ BuildFault.NoMemory) ⊎ (result ≡ image_refusal catalogue.now fault) }
{
    let name = catalogue.name.as_str();
    match fault {
        ImageFault::Compressed { flash } => input(alloc, name, Cause::Compressed { id: flash }),
        ImageFault::UserDefined { flash } => input(alloc, name, Cause::UserDefined { id: flash }),
        ImageFault::BadText { flash } => input(alloc, name, Cause::BadText { id: flash }),
        ImageFault::Lines { flash, fault } => {
            let file = data_file(name, flash.as_str(), catalogue.mem.flashes.as_slice());
            lines_refusal(alloc, file, fault)
        }
        ImageFault::NoSegment { block } => input(alloc, name, Cause::NoSegment { id: block }),
        ImageFault::TooLarge => input(alloc, name, Cause::TooLarge),
        ImageFault::BinarySize { block, said, seen } => {
            let id = block;
            input(alloc, name, Cause::BinarySize { id, said, seen })
        }
        ImageFault::Hole { segment, at } => input(alloc, name, Cause::Hole { segment, at }),
        ImageFault::OutOfRange { segment } => input(alloc, name, Cause::OutOfRange { segment }),
        ImageFault::Overlap { at } => input(alloc, name, Cause::Overlap { at }),
        ImageFault::ChecksumDiffers {
            name: check,
            said,
            got,
        } => {
            let cause = Cause::ChecksumDiffers {
                name: check,
                said,
                got,
            };
            input(alloc, name, cause)
        }
        ImageFault::NoMemory => BuildFault::NoMemory,
    }
}

/// The name of a task by its number in the order.
fn name_of(alloc: Global, tasks: &[Task], n: u16) -> Result<Text, NoMemory>
    ensures { IfOk result (λ name. name ≡ name_of tasks.now n) }
{
    match tasks.get(n as usize) {
        Some(task) => Text::from_str(alloc, task.name.as_str()),
        None => Text::from_str(alloc, ""),
    }
}

pub(crate) fn plan_refusal(
    alloc: Global,
    name: &str,
    tasks: &[Task],
    fault: PlanFault,
) -> BuildFault
    ensures { (result ≡ BuildFault.NoMemory) ⊎ (result ≡ plan_refusal name.now tasks.now fault) }
{
    match fault {
        PlanFault::TooMany { what } => input(alloc, name, Cause::TooMany { what }),
        PlanFault::SameName { task } => match name_of(alloc, tasks, task) {
            Ok(of) => input(alloc, name, Cause::SameName { name: of }),
            Err(_) => BuildFault::NoMemory,
        },
        PlanFault::SameUnit { address } => input(alloc, name, Cause::SameUnit { address }),
        PlanFault::UnknownAfter { task } => match name_of(alloc, tasks, task) {
            Ok(of) => input(alloc, name, Cause::UnknownAfter { name: of }),
            Err(_) => BuildFault::NoMemory,
        },
        PlanFault::Cycle { task } => match name_of(alloc, tasks, task) {
            Ok(of) => input(alloc, name, Cause::Cycle { name: of }),
            Err(_) => BuildFault::NoMemory,
        },
        PlanFault::TooWide { task } => match name_of(alloc, tasks, task) {
            Ok(of) => input(alloc, name, Cause::TooWide { name: of }),
            Err(_) => BuildFault::NoMemory,
        },
        PlanFault::NoMemory => BuildFault::NoMemory,
    }
}
