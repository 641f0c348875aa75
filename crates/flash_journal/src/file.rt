ghost use Rattle.std.specs.Prelude.{◌≡◌, ◌++◌, ◌+◌, ◌<◌, ◌≤◌, ◌^◌, length, replicate, IfOk, OnOk};
ghost use Rattle.journal_model.specs.Records.{label_of, behind};
ghost use Rattle.journal_steps.specs.File.{front16, head_bytes, new_bytes};
ghost use Rattle.journal_steps.specs.Move.{IsSecond, second_bytes};

use crate::layout::{mark_slots, slot_count, unit_slots};
use flash_base::NoMemory;
use flash_plan::Plan;
use std::alloc::Global;

// The first 16 bytes of version 2.
fn front(gate: u8, slots: usize) -> [u8; 16]
    requires { slots < 2 ^ 32 }
    ensures { result ≡ front16 gate slots }
{
    [
        gate,
        79,
        68,
        88,
        70,
        74,
        78,
        76,
        2,
        0,
        0,
        0,
        (slots / 16777216) as u8,
        (slots / 65536 % 256) as u8,
        (slots / 256 % 256) as u8,
        (slots % 256) as u8,
    ]
}

fn push_zeros(alloc: Global, file: &mut Vec<u8>, count: usize) -> Result<(), NoMemory>
    ensures { OnOk result (file.new.items ≡ file.old.items ++ replicate count 0) }
{
    let zeros = vec![in alloc; 0u8; count]?;
    file.extend_from_slice(&zeros)?;
    Ok(())
}

// The first 48 bytes of the plan's version 2 journal.
fn head(alloc: Global, plan: &Plan, gate: u8) -> Result<Vec<u8>, NoMemory>
    ensures bytes { IfOk result (λ v. v.items ≡ head_bytes (label_of plan.now) gate) }
    ensures digest { OnOk result (length (label_of plan.now).digest ≡ 32) }
{
    let digest = plan.digest();
    let mut file = front(gate, slot_count(plan)).to_vec(alloc)?;
    file.extend_from_slice(&digest)?;
    Ok(file)
}

/// The bytes of a new journal, its header's gate closed.
pub fn new_file(alloc: Global, plan: &Plan) -> Result<Vec<u8>, NoMemory>
    ensures bytes { IfOk result (λ v. v.items ≡ new_bytes (label_of plan.now)) }
    ensures digest { OnOk result (length (label_of plan.now).digest ≡ 32) }
{
    let mut file = head(alloc, plan, 0)?;
    push_zeros(alloc, &mut file, 16 + 17 * slot_count(plan))?;
    Ok(file)
}

// A version 2 journal whose header's gate is open, with these gates and bodies in its first slots.
fn put_second(alloc: Global, plan: &Plan, gates: &[u8], bodies: &[u8]) -> Result<Vec<u8>, NoMemory>
    ensures bytes { IfOk result (λ v. v.items ≡ second_bytes (label_of plan.now) gates.now bodies.now) }
    ensures digest { OnOk result (length (label_of plan.now).digest ≡ 32) }
{
    let marks = mark_slots(plan);
    let mut file = head(alloc, plan, 0xA5)?;
    push_zeros(alloc, &mut file, 16)?;
    file.extend_from_slice(gates)?;
    push_zeros(alloc, &mut file, marks)?;
    file.extend_from_slice(bodies)?;
    push_zeros(alloc, &mut file, 16 * marks)?;
    Ok(file)
}

/// The journal that is written behind a version 1 file, whose bytes are `old`: it has the same slots, and closed
/// ones for the marks.
pub fn second_file(alloc: Global, plan: &Plan, old: &[u8]) -> Result<Vec<u8>, NoMemory>
    requires { behind (label_of plan.now) ≤ length old.now }
    ensures { IfOk result (λ v. IsSecond (label_of plan.now) old.now v.items) }
{
    let slots = unit_slots(plan);
    let gates = &old[64..64 + slots];
    let bodies = &old[64 + slots..64 + 17 * slots];
    let second = put_second(alloc, plan, gates, bodies)?;
    Ok(second)
}
