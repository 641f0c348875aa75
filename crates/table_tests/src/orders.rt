//! What an order file is read as. Its input is the file.
use flash_base::{KeyRule, NoMemory};
use flash_order::{Order, OrderFault, Source, Task, read};
use std::alloc::Global;

/// `ok`, or the refusal: the task's number or `-`, and the field.
pub fn answer(alloc: Global, text: &str, out: &mut String) -> Result<(), NoMemory> {
    match read(alloc, text.as_bytes()) {
        Ok(_) => Ok(out.push_str("ok")?),
        Err(fault) => put_fault(out, &fault),
    }
}

fn put_fault(out: &mut String, fault: &OrderFault) -> Result<(), NoMemory> {
    match fault {
        OrderFault::NotJson => out.push_str("not json")?,
        OrderFault::NoMemory => out.push_str("no memory")?,
        OrderFault::BadField { task, field } => {
            put_place(out, *task)?;
            out.push_str(field.as_str())?;
        }
    }
    Ok(())
}

/// The number of a task or `-`, and a blank.
pub fn put_place(out: &mut String, task: Option<u16>) -> Result<(), NoMemory> {
    match task {
        None => out.push_str("- ")?,
        Some(n) => write!(out, "{n} ")?,
    }
    Ok(())
}

fn is_digest(key: &KeyRule) -> bool {
    match key {
        KeyRule::Digest {
            level,
            length,
            secret,
        } => { *level == 3 && *length == 4 && secret.as_slice() == [0x0au8, 0xbc].as_slice() }
        _ => false,
    }
}

fn is_raw(source: &Source) -> bool {
    match source {
        Source::Raw { file, at, idents } => {
            file.as_str() == "b.bin" && *at == 0x8000 && idents.len() == 1
        }
        Source::Session { .. } => false,
    }
}

fn is_whole_task(task: &Task) -> bool {
    task.name.as_str() == "B"
        && task.unit == 0x1002
        && task.width.size == 2
        && task.width.at == 3
        && task.check == 0x0203
        && is_digest(&task.key)
        && is_raw(&task.source)
        && task.after.len() == 1
}

fn is_whole(order: &Order) -> bool {
    order.tester == 0x0E80
        && order.relinks == 1
        && order.catalogue.is_none()
        && order.tasks.len() == 2
        && is_whole_task(order.tasks.at(1))
}

/// Whether all members of an order and of its second task are those of the table's one such row.
pub fn answer_members(alloc: Global, text: &str, out: &mut String) -> Result<(), NoMemory> {
    match read(alloc, text.as_bytes()) {
        Ok(order) => Ok(out.push_str(if is_whole(&order) { "yes" } else { "no" })?),
        Err(_) => Ok(out.push_str("no order")?),
    }
}
