ghost use Rattle.std.specs.Prelude.{◌≡◌, ◌⊎◌, ◌≤◌, Err, Some, None, IfOk, IfSome, IsTrue, MatchOption, codes, length, option_map};
ghost use Rattle.serde_json.specs.View.{view, items_view};
ghost use Rattle.flash_base.specs.Lists.{Each};
ghost use Rattle.flash_order.specs.Fields.{chosen, mapped, needed};
ghost use Rattle.flash_order.specs.Orders.{are_objects, fault_in, head, named_file, order_in, order_of, task_list, tasks_at, tasks_from};
ghost use Rattle.flash_order.specs.Promises.{IsHead, IsOrder, IsTask};
ghost use Rattle.text_forms.specs.FileNames.{file_name};

use crate::fault::{FieldFault, OrderFault};
use crate::fields::{address_at, bad, file_of, relinks_at};
use crate::listed::strange_in_order;
use crate::order::{Order, Task};
use crate::task::task_in;
use flash_base::{Items, Text};
use serde_json::{Category, Value};
use std::alloc::Global;

/// The most tasks of an order.
const TASK_LIMIT: usize = 1000;

/// The refusal of a member, of this task or of the order itself.
fn refusal(task: Option<u16>, fault: FieldFault) -> OrderFault
    ensures { result ≡ fault_in task fault }
{
    match fault {
        FieldFault::Bad(field) => OrderFault::BadField { task, field },
        FieldFault::NoMemory => OrderFault::NoMemory,
    }
}

/// The catalogue's file, if one is named.
fn catalogue_at(alloc: Global, value: &Value) -> Result<Option<Text>, FieldFault>
    ensures is { (result ≡ Err FieldFault.NoMemory)
        ⊎ (result ≡ chosen (codes "catalogue") None named_file (view value.now)) }
    ensures form { IfOk result (λ o. IfSome o (λ f. IsTrue (file_name f))) }
{
    let Some(found) = value.get("catalogue") else {
        return Ok(None);
    };
    match file_of(found) {
        Some(name) => Ok(Some(Text::from_str(alloc, name)?)),
        None => Err(bad(alloc, "catalogue")),
    }
}

fn are_objects(list: &[Value]) -> bool
    ensures { result ≡ are_objects (items_view list.now) }
{
    for i in 0..list.len() {
        if !list[i].is_object() {
            return false;
        }
    }
    true
}

#[tactic(auto, using(crate::proofs::Steps::count_of))]
fn task_list_of(value: &Value) -> Option<&[Value]>
    ensures is { option_map (λ l. items_view l.now) result ≡ task_list (view value.now) }
    ensures few { IfSome result (λ l. length l.now ≤ 1000) }
{
    let list = value.as_array()?.as_slice();
    if list.len() > TASK_LIMIT {
        return None;
    }
    if !are_objects(list) {
        return None;
    }
    Some(list)
}

fn task_list_at(alloc: Global, value: &Value) -> Result<&[Value], FieldFault>
    ensures is { (result ≡ Err FieldFault.NoMemory)
        ⊎ (mapped (λ l. items_view l.now) result ≡ needed (codes "tasks") task_list (view value.now)) }
    ensures few { IfOk result (λ l. length l.now ≤ 1000) }
{
    let Some(found) = value.get("tasks") else {
        return Err(bad(alloc, "tasks"));
    };
    match task_list_of(found) {
        Some(list) => Ok(list),
        None => Err(bad(alloc, "tasks")),
    }
}

fn tasks_in(alloc: Global, list: &[Value]) -> Result<Items<Task>, OrderFault>
    requires { length list.now ≤ 1000 }
    ensures is { (result ≡ Err OrderFault.NoMemory) ⊎ (result ≡ tasks_from 0 (items_view list.now)) }
    ensures few { IfOk result (λ ts. length ts ≤ 1000) }
    ensures form { IfOk result (Each IsTask) }
{
    let mut found = Items::new(alloc);
    for i in 0..list.len() {
        match task_in(alloc, &list[i]) {
            Ok(task) => found.push(task)?,
            Err(fault) => return Err(refusal(Some(i as u16), fault)),
        }
    }
    Ok(found)
}

/// What an order says beside its tasks.
#[derive(Debug, Drop)]
struct Head {
    tester: u16,
    relinks: u8,
    catalogue: Option<Text>,
}

fn head_in(alloc: Global, value: &Value) -> Result<Head, FieldFault>
    ensures is { (result ≡ Err FieldFault.NoMemory) ⊎ (result ≡ head (view value.now)) }
    ensures form { IfOk result IsHead }
{
    let tester = address_at(alloc, value, "tester")?;
    let relinks = relinks_at(alloc, value)?;
    let catalogue = catalogue_at(alloc, value)?;
    Ok(Head {
        tester,
        relinks,
        catalogue,
    })
}

fn all_tasks(alloc: Global, value: &Value) -> Result<Items<Task>, OrderFault>
    ensures is { (result ≡ Err OrderFault.NoMemory) ⊎ (result ≡ tasks_at (view value.now)) }
    ensures few { IfOk result (λ ts. length ts ≤ 1000) }
    ensures form { IfOk result (Each IsTask) }
{
    match task_list_at(alloc, value) {
        Ok(list) => tasks_in(alloc, list),
        Err(fault) => Err(refusal(None, fault)),
    }
}

fn order_from(alloc: Global, value: &Value) -> Result<Order, OrderFault>
    ensures is { (result ≡ Err OrderFault.NoMemory) ⊎ (result ≡ order_in (view value.now)) }
    ensures form { IfOk result IsOrder }
{
    let head = match head_in(alloc, value) {
        Ok(head) => head,
        Err(fault) => return Err(refusal(None, fault)),
    };
    let tasks = all_tasks(alloc, value)?;
    if let Some(name) = strange_in_order(value) {
        return Err(refusal(None, bad(alloc, name)));
    }
    Ok(Order {
        tester: head.tester,
        relinks: head.relinks,
        catalogue: head.catalogue,
        tasks,
    })
}

/// The order that the bytes of a file are.
///
/// Members are tested in the order of the table, a task's where the task stands, and a member that
/// is not in the table behind all others of its object, the least name first. Where a member stands
/// twice, the last counts.
pub fn read(alloc: Global, bytes: &[u8]) -> Result<Order, OrderFault>
    ensures is { (result ≡ Err OrderFault.NoMemory) ⊎ (result ≡ order_of bytes.now) }
    ensures form { IfOk result IsOrder }
{
    match Value::from_slice(alloc, bytes) {
        Ok(value) => order_from(alloc, &value),
        Err(fault) => match fault.classify() {
            Category::Memory => Err(OrderFault::NoMemory),
            _ => Err(OrderFault::NotJson),
        },
    }
}
