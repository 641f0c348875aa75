//! The text of one task's image.
ghost use Rattle.std.specs.Prelude.{◌≡◌, ◌<◌, ◌++◌, IfOk, OnOk};
ghost use Rattle.std.specs.List.{flat_map};
ghost use Rattle.hex.specs.Hex.{encode_lower};
ghost use Rattle.sha2.specs.Sha256.{sha256};
ghost use Rattle.flash_plan.specs.Plan.{count_of};
ghost use Rattle.run_report.specs.Imaging.{image_text, own_line, own_lines, segment_line, segment_lines, task_lines};

use crate::pieces::{put_lower, put_shown, put_ten, put_upper};
use crate::text::put_decimal;
use ecu_mem::Ident;
use flash_base::{Bytes, Items, NoMemory, Text};
use flash_plan::Segment;
use plan_build::{Built, TaskOwn};
use sha2::{Digest, Sha256};
use std::alloc::Global;

/// Puts the SHA-256 of bytes.
fn put_digest(alloc: Global, out: &mut Bytes, bytes: &[u8]) -> Result<(), NoMemory>
    ensures { OnOk result (out.new ≡ out.old ++ encode_lower (sha256 bytes.now)) }
{
    let mut hasher = Sha256::new();
    hasher.update(bytes);
    let digest = hasher.finalize();
    put_lower(alloc, out, &digest[..])
}

/// Puts the line of a segment.
fn put_segment(
    alloc: Global,
    out: &mut Bytes,
    number: usize,
    segment: &Segment,
) -> Result<(), NoMemory>
    ensures { OnOk result (out.new ≡ out.old ++ segment_line number segment.now) }
{
    out.extend(b"segment ")?;
    put_decimal(out, number as u64)?;
    out.extend(b" ")?;
    put_ten(alloc, out, segment.at)?;
    out.extend(b" ")?;
    put_decimal(out, segment.body.len() as u64)?;
    out.extend(b" ")?;
    put_digest(alloc, out, segment.body.as_slice())?;
    out.extend(b"\n")?;
    Ok(())
}

fn put_segments(alloc: Global, out: &mut Bytes, segments: &Items<Segment>) -> Result<(), NoMemory>
    ensures { OnOk result (out.new ≡ out.old ++ segment_lines 0 segments.now) }
{
    for i in 0..segments.len() {
        put_segment(alloc, out, i, segments.at(i))?;
    }
    Ok(())
}

/// Puts the line of a value of an own ident.
fn put_own(alloc: Global, out: &mut Bytes, name: &Text, value: &[u8]) -> Result<(), NoMemory>
    ensures { OnOk result (out.new ≡ out.old ++ own_line name.now value.now) }
{
    out.extend(b"own ")?;
    put_shown(out, name.as_str())?;
    out.extend(b" ")?;
    put_upper(alloc, out, value)?;
    out.extend(b"\n")?;
    Ok(())
}

fn put_values(alloc: Global, out: &mut Bytes, name: &Text, values: &[Bytes]) -> Result<(), NoMemory>
    ensures { OnOk result (out.new ≡ out.old ++ flat_map (own_line name.now) values.now) }
{
    for value in values {
        put_own(alloc, out, name, value.as_slice())?;
    }
    Ok(())
}

fn put_ident(alloc: Global, out: &mut Bytes, ident: &Ident) -> Result<(), NoMemory>
    ensures { OnOk result (out.new ≡ out.old ++ own_lines ident.now) }
{
    put_values(alloc, out, &ident.name, ident.values.as_slice())
}

fn put_idents(alloc: Global, out: &mut Bytes, idents: &[Ident]) -> Result<(), NoMemory>
    ensures { OnOk result (out.new ≡ out.old ++ flat_map own_lines idents.now) }
{
    for ident in idents {
        put_ident(alloc, out, ident)?;
    }
    Ok(())
}

/// Puts the lines of a task's own idents, where it is the task with this number.
fn put_task(alloc: Global, out: &mut Bytes, n: u16, task: &TaskOwn) -> Result<(), NoMemory>
    ensures { OnOk result (out.new ≡ out.old ++ task_lines n task.now) }
{
    if task.task == n {
        return put_idents(alloc, out, task.own.as_slice());
    }
    Ok(())
}

fn put_tasks(alloc: Global, out: &mut Bytes, n: u16, tasks: &[TaskOwn]) -> Result<(), NoMemory>
    ensures { OnOk result (out.new ≡ out.old ++ flat_map (task_lines n) tasks.now) }
{
    for task in tasks {
        put_task(alloc, out, n, task)?;
    }
    Ok(())
}

/// The text of a task's image: for each segment, from 0, the line `segment I ADDRESS SIZE SHA256`
/// with its target address (10 hexadecimal digits), its size in bytes and the SHA-256 of its bytes
/// (FIPS 180-4), and then for each own ident value of its session the line `own NAME HEX`.
pub fn image_text(alloc: Global, built: &Built, task: u16) -> Result<Bytes, NoMemory>
    requires { task < count_of built.now.plan }
    ensures { IfOk result (λ b. b ≡ image_text built.now task) }
{
    let mut out = Bytes::new(alloc);
    put_segments(alloc, &mut out, &built.plan.unit(task).segments)?;
    put_tasks(alloc, &mut out, task, built.own.as_slice())?;
    Ok(out)
}
