ghost use Rattle.std.specs.Prelude.{◌≡◌, ◌⊎◌, Err, IfOk, codes};
ghost use Rattle.serde_json.specs.View.{view};
ghost use Rattle.flash_order.specs.Fields.{needed, task_name};
ghost use Rattle.flash_order.specs.Orders.{task};
ghost use Rattle.flash_order.specs.Promises.{IsTask};
ghost use Rattle.flash_plan.specs.Plan.{IsTaskName};

use crate::fault::FieldFault;
use crate::fields::{address_at, bad, check_at, task_name_of, width_at};
use crate::key::key_at;
use crate::listed::strange_in_task;
use crate::lists::after_at;
use crate::order::Task;
use crate::source::source_at;
use flash_base::Text;
use serde_json::Value;
use std::alloc::Global;

fn name_at(alloc: Global, value: &Value) -> Result<Text, FieldFault>
    ensures is { (result ≡ Err FieldFault.NoMemory)
        ⊎ (result ≡ needed (codes "name") task_name (view value.now)) }
    ensures form { IfOk result IsTaskName }
{
    let Some(found) = value.get("name") else {
        return Err(bad(alloc, "name"));
    };
    match task_name_of(found) {
        Some(name) => Ok(Text::from_str(alloc, name)?),
        None => Err(bad(alloc, "name")),
    }
}

/// The task that an object is, or the first member that is not in its form.
pub(crate) fn task_in(alloc: Global, value: &Value) -> Result<Task, FieldFault>
    ensures is { (result ≡ Err FieldFault.NoMemory) ⊎ (result ≡ task (view value.now)) }
    ensures form { IfOk result IsTask }
{
    let name = name_at(alloc, value)?;
    let unit = address_at(alloc, value, "unit")?;
    let width = width_at(alloc, value)?;
    let check = check_at(alloc, value)?;
    let key = key_at(alloc, value)?;
    let source = source_at(alloc, value)?;
    let after = after_at(alloc, value)?;
    if let Some(name) = strange_in_task(value) {
        return Err(bad(alloc, name));
    }
    Ok(Task {
        name,
        unit,
        width,
        check,
        key,
        source,
        after,
    })
}
