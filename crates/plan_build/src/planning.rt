//! The plan of all drafts.
ghost use Rattle.std.specs.Prelude.{◌≡◌, ◌⊎◌, Err, IfOk};
ghost use Rattle.flash_base.specs.Lists.{Each};
ghost use Rattle.flash_order.specs.Promises.{IsOrder};
ghost use Rattle.flash_plan.specs.Accepting.{IsDraft};
ghost use Rattle.plan_build.specs.Building.{planned};
ghost use Rattle.plan_build.specs.Whole.{IsWholePlan, AreFor};

use crate::built::{Built, Parts};
use crate::fault::BuildFault;
use crate::refusals::plan_refusal;
use flash_order::Order;
use flash_plan::accept;
use std::alloc::Global;

/// What is built of an order and the parts of its tasks.
pub(crate) fn planned(
    alloc: Global,
    name: &str,
    order: Order,
    parts: Parts,
) -> Result<Built, BuildFault>
    requires order { IsOrder order }
    requires drafts { Each IsDraft parts.drafts }
    requires parts { AreFor order.tasks parts }
    ensures is { (result ≡ Err BuildFault.NoMemory) ⊎ planned name.now order parts result }
    ensures whole { IfOk result IsWholePlan }
{
    let Parts {
        drafts,
        checks,
        own,
    } = parts;
    match accept(alloc, drafts) {
        Ok(plan) => Ok(Built {
            order,
            plan,
            checks,
            own,
        }),
        Err(fault) => Err(plan_refusal(alloc, name, order.tasks.as_slice(), fault)),
    }
}
