//! What a report says of an outcome of the plan of one unit. The inputs are the outcome, its name and its numbers in
//! hexadecimal digits, and the files of `o.json`.
use crate::files::shelf_of;
use flash_base::{Items, NoMemory};
use flash_plan::{Outcome, Plan};
use plan_build::build;
use run_report::report;
use std::alloc::Global;
use std::thread::Threads;
use test_rows::{first, put_bytes};

/// A number in hexadecimal digits; 0 for each other text.
fn hex(text: &str) -> u16 {
    u16::from_str_radix(text, 16).unwrap_or(0)
}

/// A byte in hexadecimal digits; 0 for each other text.
fn byte(text: &str) -> u8 {
    u8::from_str_radix(text, 16).unwrap_or(0)
}

/// An outcome with a number.
fn of_one(name: &str, digits: &str) -> Outcome {
    let byte = byte(digits);
    match name {
        "ident" => Outcome::IdentMismatch { did: hex(digits) },
        "bad" => Outcome::BadAnswer { sid: byte },
        "undelivered" => Outcome::Undelivered { code: byte },
        "silent" => Outcome::NoAnswer { sid: byte },
        "pending" => Outcome::PendingLimit { sid: byte },
        "busy" => Outcome::BusyLimit { sid: byte },
        "lost" => Outcome::LinkLost {
            times: u32::from(byte),
        },
        "denied" => Outcome::LinkRefused { code: byte },
        "blocked" => Outcome::Blocked { by: hex(digits) },
        "disk" => Outcome::DiskFault,
        "memory" => Outcome::NoMemory,
        _ => Outcome::Complete,
    }
}

fn outcome(text: &str) -> Outcome {
    let (name, rest) = text.split_once(' ').unwrap_or((text, ""));
    match name {
        "refused" => {
            let (sid, nrc) = rest.split_once(' ').unwrap_or((rest, ""));
            Outcome::Refused {
                sid: byte(sid),
                nrc: byte(nrc),
            }
        }
        "failed" => {
            let (routine, rest) = rest.split_once(' ').unwrap_or((rest, ""));
            let (segment, status) = rest.split_once(' ').unwrap_or((rest, ""));
            Outcome::CheckFailed {
                routine: hex(routine),
                segment: hex(segment),
                status: byte(status),
            }
        }
        _ => of_one(name, rest),
    }
}

fn put_report(
    alloc: Global,
    plan: &Plan,
    outcomes: &Items<Outcome>,
    out: &mut String,
) -> Result<(), NoMemory> {
    if outcomes.len() != plan.units() as usize {
        return Ok(out.push_str("another plan")?);
    }
    let text = report(alloc, plan, outcomes)?;
    put_bytes(out, text.as_slice())
}

fn put_outcome(
    alloc: Global,
    plan: &Plan,
    outcome: Outcome,
    out: &mut String,
) -> Result<(), NoMemory> {
    let mut outcomes = Items::new(alloc);
    outcomes.push(outcome)?;
    put_report(alloc, plan, &outcomes, out)
}

pub fn answer<R: Threads + Sync>(
    rt: &R,
    alloc: Global,
    inputs: &str,
    out: &mut String,
) -> Result<(), NoMemory> {
    let (words, parts) = first(inputs);
    let mut shelf = shelf_of(alloc, parts, "-")?;
    match build(rt, alloc, &mut shelf, "o.json") {
        Ok(built) => put_outcome(alloc, &built.plan, outcome(words), out),
        Err(_) => Ok(out.push_str("no plan")?),
    }
}
