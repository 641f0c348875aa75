ghost use Rattle.std.specs.Prelude.{◌≡◌, IfOk};
ghost use Rattle.flash_base.specs.Lists.{Each};
ghost use Rattle.flash_plan.specs.Accepting.{IsPlanAnswer, IsDraft};
ghost use Rattle.flash_plan.specs.Refusals.{IsRefusal};
ghost use Rattle.flash_plan.specs.Plan.{IsAccepted};

use crate::cycle::first_cycle;
use crate::fault::PlanFault;
use crate::limits::too_many;
use crate::naming::{draft_at, same_address, same_name, too_wide, unknown_after};
use crate::numbering::{all_after, units_of};
use crate::plan::Plan;
use crate::unit::Draft;
use flash_base::Items;
use std::alloc::Global;

/// The first limit or name by which the drafts make no plan.
fn refusal(drafts: &[Draft]) -> Option<PlanFault>
    ensures { IsRefusal drafts.now result }
{
    if let Some(what) = too_many(drafts) {
        return Some(PlanFault::TooMany { what });
    }
    if let Some(task) = same_name(drafts) {
        return Some(PlanFault::SameName { task });
    }
    if let Some(task) = same_address(drafts) {
        let address = draft_at(drafts, task as usize).address;
        return Some(PlanFault::SameUnit { address });
    }
    if let Some(task) = unknown_after(drafts) {
        return Some(PlanFault::UnknownAfter { task });
    }
    None
}

/// The plan of drafts, whose fields it takes over: unit `n` is draft `n`, with the names in `after` as
/// numbers. It has to be known of each draft that its name, width, key rule and check routine are in their
/// ranges and its segments apart and not empty. The refusals are looked for in the order of `PlanFault`,
/// and each before `Cycle` without any memory.
pub fn accept(alloc: Global, drafts: Items<Draft>) -> Result<Plan, PlanFault>
    requires { Each IsDraft drafts }
    ensures answer { IsPlanAnswer drafts result }
    ensures accepted { IfOk result (λ units. IsAccepted units) }
{
    if let Some(fault) = refusal(drafts.as_slice()) {
        return Err(fault);
    }
    let wide = too_wide(drafts.as_slice());
    let afters = all_after(alloc, drafts.as_slice())?;
    let units = units_of(alloc, drafts, afters)?;
    if let Some(task) = first_cycle(units.as_slice()) {
        return Err(PlanFault::Cycle { task });
    }
    if let Some(task) = wide {
        return Err(PlanFault::TooWide { task });
    }
    Ok(Plan::of_units(alloc, units)?)
}
