//! What the order `o.json` of a shelf is built to. The inputs are the numbers of the reads that fail, and the files.
use crate::causes::put_cause;
use crate::files::shelf_of;
use ecu_mem::Ident;
use flash_base::NoMemory;
use flash_plan::UnitPlan;
use flash_shelf::ShelfFault;
use plan_build::{BuildFault, Built, build};
use std::alloc::Global;
use std::thread::Threads;
use test_rows::{first, put_digits};

fn put_shelf_fault(out: &mut String, fault: &ShelfFault) -> Result<(), NoMemory> {
    let word = match fault {
        ShelfFault::Missing => " missing",
        ShelfFault::TooLarge => " too large",
        ShelfFault::Failed => " failed",
        ShelfFault::NoMemory => " no memory",
    };
    Ok(out.push_str(word)?)
}

/// A refusal in words.
fn put_fault(out: &mut String, fault: &BuildFault) -> Result<(), NoMemory> {
    match fault {
        BuildFault::Shelf { name, fault } => {
            out.push_str("shelf ")?;
            out.push_str(name.as_str())?;
            put_shelf_fault(out, fault)
        }
        BuildFault::Input { name, cause } => {
            out.push_str(name.as_str())?;
            out.push(' ')?;
            put_cause(out, cause)
        }
        BuildFault::NoMemory => Ok(out.push_str("no memory")?),
    }
}

fn put_unit(out: &mut String, unit: &UnitPlan) -> Result<(), NoMemory> {
    out.push_str(unit.name.as_str())?;
    let address = unit.address;
    write!(out, " {address:04X}")?;
    for segment in unit.segments.as_slice() {
        let at = segment.at;
        write!(out, " {at:x}:")?;
        put_digits(out, segment.body.as_slice())?;
    }
    for wanted in unit.idents.as_slice() {
        let did = wanted.did;
        let count = wanted.values.len();
        write!(out, " {did:04X}x{count}")?;
    }
    for n in unit.after.as_slice() {
        write!(out, " after {n}")?;
    }
    Ok(out.push_str("; ")?)
}

fn put_own(out: &mut String, idents: &[Ident]) -> Result<(), NoMemory> {
    for ident in idents {
        out.push_str(" own ")?;
        out.push_str(ident.name.as_str())?;
    }
    Ok(())
}

fn put_checks(out: &mut String, built: &Built) -> Result<(), NoMemory> {
    for checks in built.checks.as_slice() {
        let task = checks.task;
        for check in checks.checks.as_slice() {
            let name = check.name.as_str();
            let done = check.done;
            write!(out, "; {task} {name} {done}")?;
        }
    }
    Ok(())
}

/// What was built, in words.
fn put_built(out: &mut String, built: &Built) -> Result<(), NoMemory> {
    for n in 0..built.plan.units() {
        put_unit(out, built.plan.unit(n))?;
    }
    put_checks(out, built)?;
    for own in built.own.as_slice() {
        let task = own.task;
        write!(out, "; {task}")?;
        put_own(out, own.own.as_slice())?;
    }
    Ok(())
}

pub fn answer<R: Threads + Sync>(
    rt: &R,
    alloc: Global,
    inputs: &str,
    out: &mut String,
) -> Result<(), NoMemory> {
    let (failing, parts) = first(inputs);
    let mut shelf = shelf_of(alloc, parts, failing)?;
    match build(rt, alloc, &mut shelf, "o.json") {
        Ok(built) => put_built(out, &built),
        Err(fault) => put_fault(out, &fault),
    }
}
