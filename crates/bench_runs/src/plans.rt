//! Plans of plain units, at addresses from 1001 on: each has one segment, at 1000.
ghost use Rattle.std.specs.Prelude.{◌≤◌, length, IfOk};
ghost use Rattle.flash_base.specs.Lists.{Each};
ghost use Rattle.flash_plan.specs.Accepting.{IsDraft};
ghost use Rattle.flash_plan.specs.Plan.{IsTaskName};

use flash_base::{Bytes, Items, KeyRule, Names, NoMemory, Text, Width};
use flash_plan::{Draft, Plan, Segment, accept};
use std::alloc::Global;

/// So many bytes, and at least one.
fn body(alloc: Global, size: u32) -> Result<Bytes, NoMemory>
    ensures { IfOk result (λ b. 1 ≤ length b) }
{
    let mut body = Bytes::from_vec(Vec::with_capacity(alloc, size as usize)?);
    for i in 1..size {
        body.push((i % 251) as u8)?;
    }
    body.push(0)?;
    Ok(body)
}

/// The names of the units.
fn name(number: u16) -> &'static str
    ensures { IsTaskName result.now }
{
    match number {
        0 => "A",
        1 => "B",
        2 => "C",
        3 => "D",
        4 => "E",
        5 => "F",
        6 => "G",
        7 => "H",
        8 => "I",
        9 => "J",
        10 => "K",
        11 => "L",
        12 => "M",
        13 => "N",
        14 => "O",
        _ => "P",
    }
}

/// A task with so many bytes.
fn draft(alloc: Global, number: u16, size: u32) -> Result<Draft, NoMemory>
    ensures { IfOk result IsDraft }
{
    let body = body(alloc, size)?;
    let mut segments = Items::new(alloc);
    segments.push(Segment { at: 0x1000, body })?;
    Ok(Draft {
        name: Text::from_str(alloc, name(number))?,
        address: number.wrapping_add(0x1001),
        width: Width { size: 4, at: 4 },
        check: 0x0202,
        key: KeyRule::Free,
        idents: Items::new(alloc),
        after: Names::new(alloc),
        segments,
    })
}

/// The first task with so many bytes, and the others with so many each.
fn drafts(alloc: Global, units: u16, first: u32, others: u32) -> Result<Items<Draft>, NoMemory>
    ensures { IfOk result (Each IsDraft) }
{
    let mut drafts = Items::new(alloc);
    for number in 0..units {
        let size = if number == 0 { first } else { others };
        drafts.push(draft(alloc, number, size)?)?;
    }
    Ok(drafts)
}

/// A plan of up to 16 units: the first has so many bytes, and the others so many each.
pub(crate) fn plan(alloc: Global, units: u16, first: u32, others: u32) -> Result<Plan, NoMemory> {
    let drafts = drafts(alloc, units, first, others)?;
    match accept(alloc, drafts) {
        Ok(plan) => Ok(plan),
        Err(_) => Err(NoMemory),
    }
}
