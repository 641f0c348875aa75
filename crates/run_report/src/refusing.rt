//! The one line of a refusal.
ghost use Rattle.std.specs.Prelude.{◌≡◌, ◌++◌, IfOk, OnOk, codes, decimal};
ghost use Rattle.hex.specs.Hex.{encode_lower};
ghost use Rattle.run_report.specs.Forms.{path_text, shown, ten};
ghost use Rattle.run_report.specs.Refusing.{cause_text, input_line, no_task_line, refusal_line, shelf_text, what_text};

use crate::pieces::{put_lower, put_path, put_shown, put_task, put_ten};
use crate::text::{put_decimal, put_four};
use flash_base::{Bytes, Items, NoMemory, Text};
use flash_plan::What;
use flash_shelf::ShelfFault;
use plan_build::{BuildFault, Cause};
use std::alloc::Global;

/// Puts words and a number in decimal digits.
fn put_number(out: &mut Bytes, words: &[u8], n: u64) -> Result<(), NoMemory>
    ensures { OnOk result (out.new ≡ out.old ++ (words.now ++ decimal n)) }
{
    out.extend(words)?;
    put_decimal(out, n)
}

/// Puts words and an address of memory.
fn put_address(alloc: Global, out: &mut Bytes, words: &[u8], at: u64) -> Result<(), NoMemory>
    ensures { OnOk result (out.new ≡ out.old ++ (words.now ++ ten at)) }
{
    out.extend(words)?;
    put_ten(alloc, out, at)
}

/// Puts words and a name that comes from a file.
fn put_id(out: &mut Bytes, words: &[u8], id: &Text) -> Result<(), NoMemory>
    ensures { OnOk result (out.new ≡ out.old ++ (words.now ++ shown id.now)) }
{
    out.extend(words)?;
    put_shown(out, id.as_str())
}

/// Puts words and the name of a task.
fn put_named(out: &mut Bytes, words: &[u8], name: &Text) -> Result<(), NoMemory>
    ensures { OnOk result (out.new ≡ out.old ++ (words.now ++ name.now)) }
{
    out.extend(words)?;
    out.extend(name.as_str().as_bytes())
}

/// Puts words and the path of an element.
fn put_at(out: &mut Bytes, words: &[u8], path: &Items<u64>) -> Result<(), NoMemory>
    ensures { OnOk result (out.new ≡ out.old ++ (words.now ++ path_text path.now)) }
{
    out.extend(words)?;
    put_path(out, path)
}

/// Puts a blank and the digits of a checksum.
fn put_digits(alloc: Global, out: &mut Bytes, bytes: &Bytes) -> Result<(), NoMemory>
    ensures { OnOk result (out.new ≡ out.old ++ (codes " " ++ encode_lower bytes.now)) }
{
    out.extend(b" ")?;
    put_lower(alloc, out, bytes.as_slice())
}

fn put_what(out: &mut Bytes, what: What) -> Result<(), NoMemory>
    ensures { OnOk result (out.new ≡ out.old ++ what_text what) }
{
    match what {
        What::Units => out.extend(b"units"),
        What::Segments => out.extend(b"segments"),
        What::Bytes => out.extend(b"bytes"),
        What::Total => out.extend(b"total"),
        What::Idents => out.extend(b"idents"),
    }
}

fn put_count(out: &mut Bytes, said: u64, seen: u64) -> Result<(), NoMemory>
    ensures { OnOk result (out.new ≡ out.old ++ cause_text (Cause.BadCount said seen)) }
{
    put_number(out, b"bad count ", said)?;
    put_number(out, b" ", seen)
}

fn put_missing(out: &mut Bytes, path: &Items<u64>, tag: &Text) -> Result<(), NoMemory>
    ensures { OnOk result (out.new ≡ out.old ++ cause_text (Cause.Missing path.now tag.now)) }
{
    out.extend(b"missing ")?;
    put_path(out, path)?;
    out.extend(b" ")?;
    out.extend(tag.as_str().as_bytes())
}

fn put_field(out: &mut Bytes, task: Option<u16>, field: &Text) -> Result<(), NoMemory>
    ensures { OnOk result (out.new ≡ out.old ++ cause_text (Cause.BadField task field.now)) }
{
    out.extend(b"bad field ")?;
    put_task(out, task)?;
    out.extend(b" ")?;
    put_shown(out, field.as_str())
}

fn put_did(out: &mut Bytes, task: &Text, name: &Text) -> Result<(), NoMemory>
    ensures { OnOk result (out.new ≡ out.old ++ cause_text (Cause.NoDid task.now name.now)) }
{
    out.extend(b"no did ")?;
    out.extend(task.as_str().as_bytes())?;
    out.extend(b" ")?;
    put_shown(out, name.as_str())
}

fn put_size(out: &mut Bytes, id: &Text, said: u64, seen: u64) -> Result<(), NoMemory>
    ensures { OnOk result (out.new ≡ out.old ++ cause_text (Cause.BinarySize id.now said seen)) }
{
    put_id(out, b"binary size ", id)?;
    put_number(out, b" ", said)?;
    put_number(out, b" ", seen)?;
    Ok(())
}

fn put_hole(alloc: Global, out: &mut Bytes, segment: u32, at: u64) -> Result<(), NoMemory>
    ensures { OnOk result (out.new ≡ out.old ++ cause_text (Cause.Hole segment at)) }
{
    out.extend(b"hole ")?;
    put_decimal(out, segment as u64)?;
    out.extend(b" ")?;
    put_ten(alloc, out, at)
}

fn put_checksum(
    alloc: Global,
    out: &mut Bytes,
    name: &Text,
    said: &Bytes,
    got: &Bytes,
) -> Result<(), NoMemory>
    ensures { OnOk result (out.new ≡ out.old ++ cause_text
        (Cause.ChecksumDiffers name.now said.now got.now)) }
{
    put_id(out, b"checksum differs ", name)?;
    put_digits(alloc, out, said)?;
    put_digits(alloc, out, got)?;
    Ok(())
}

fn put_too_many(out: &mut Bytes, what: What) -> Result<(), NoMemory>
    ensures { OnOk result (out.new ≡ out.old ++ cause_text (Cause.TooMany what)) }
{
    out.extend(b"too many ")?;
    put_what(out, what)
}

fn put_unit(alloc: Global, out: &mut Bytes, address: u16) -> Result<(), NoMemory>
    ensures { OnOk result (out.new ≡ out.old ++ cause_text (Cause.SameUnit address)) }
{
    out.extend(b"same unit ")?;
    put_four(alloc, out, address)
}

/// Puts why a file's content is refused.
fn put_cause(alloc: Global, out: &mut Bytes, cause: &Cause) -> Result<(), NoMemory>
    ensures { OnOk result (out.new ≡ out.old ++ cause_text cause.now) }
{
    match cause {
        Cause::NotJson => out.extend(b"not json"),
        Cause::NotTree { path } => put_at(out, b"not a tree ", path),
        Cause::Missing { path, tag } => put_missing(out, path, tag),
        Cause::BadNumber { path } => put_at(out, b"bad number ", path),
        Cause::Twice { id } => put_id(out, b"twice ", id),
        Cause::Dangling { id } => put_id(out, b"dangling ", id),
        Cause::TooLarge => out.extend(b"too large"),
        Cause::BadField { task, field } => put_field(out, *task, field),
        Cause::NoCatalogue { task } => put_named(out, b"no catalogue ", task),
        Cause::NoSession { task } => put_named(out, b"no session ", task),
        Cause::EmptyRaw { task } => put_named(out, b"empty raw ", task),
        Cause::NoDid { task, name } => put_did(out, task, name),
        Cause::BadLine { n } => put_number(out, b"bad line ", *n as u64),
        Cause::BadSum { n } => put_number(out, b"bad sum ", *n as u64),
        Cause::BadCount { said, seen } => put_count(out, *said, *seen),
        Cause::NoEnd => out.extend(b"no end"),
        Cause::AfterEnd { n } => put_number(out, b"after end ", *n as u64),
        Cause::Conflict { at } => put_address(alloc, out, b"conflict ", *at),
        Cause::Compressed { id } => put_id(out, b"compressed ", id),
        Cause::UserDefined { id } => put_id(out, b"user defined ", id),
        Cause::BadText { id } => put_id(out, b"bad text ", id),
        Cause::NoSegment { id } => put_id(out, b"no segment ", id),
        Cause::BinarySize { id, said, seen } => put_size(out, id, *said, *seen),
        Cause::Hole { segment, at } => put_hole(alloc, out, *segment, *at),
        Cause::OutOfRange { segment } => put_number(out, b"out of range ", *segment as u64),
        Cause::Overlap { at } => put_address(alloc, out, b"overlap ", *at),
        Cause::ChecksumDiffers { name, said, got } => put_checksum(alloc, out, name, said, got),
        Cause::TooMany { what } => put_too_many(out, *what),
        Cause::SameName { name } => put_named(out, b"same name ", name),
        Cause::SameUnit { address } => put_unit(alloc, out, *address),
        Cause::UnknownAfter { name } => put_named(out, b"unknown after ", name),
        Cause::Cycle { name } => put_named(out, b"cycle ", name),
        Cause::TooWide { name } => put_named(out, b"too wide ", name),
    }
}

fn put_shelf(out: &mut Bytes, fault: &ShelfFault) -> Result<(), NoMemory>
    ensures { OnOk result (out.new ≡ out.old ++ shelf_text fault.now) }
{
    match fault {
        ShelfFault::Missing => out.extend(b" missing\n"),
        ShelfFault::TooLarge => out.extend(b" too large\n"),
        ShelfFault::Failed => out.extend(b" failed\n"),
        ShelfFault::NoMemory => Ok(()),
    }
}

/// The line of a file that was not read.
fn shelf_line(alloc: Global, name: &Text, fault: &ShelfFault) -> Result<Bytes, NoMemory>
    ensures { IfOk result (λ b. b ≡ refusal_line (BuildFault.Shelf name.now fault.now)) }
{
    let mut out = Bytes::from_slice(alloc, b"shelf ")?;
    out.extend(name.as_str().as_bytes())?;
    put_shelf(&mut out, fault)?;
    Ok(out)
}

/// The line of a file whose content is refused.
fn input_line(alloc: Global, name: &Text, cause: &Cause) -> Result<Bytes, NoMemory>
    ensures { IfOk result (λ b. b ≡ input_line name.now (cause_text cause.now)) }
{
    let mut out = Bytes::from_slice(alloc, b"input ")?;
    out.extend(name.as_str().as_bytes())?;
    out.extend(b" ")?;
    put_cause(alloc, &mut out, cause)?;
    out.extend(b"\n")?;
    Ok(out)
}

/// The line of a refusal: `shelf FILE missing`, `shelf FILE too large` or `shelf FILE failed`, and
/// `input FILE TEXT` for a file whose content is refused. An ID or a name that a file gave is
/// printed with `?` for each byte below 20 (hexadecimal), addresses of memory with ten hexadecimal
/// digits, checksums in lower case. Want of memory has no line.
pub fn refusal_line(alloc: Global, fault: &BuildFault) -> Result<Bytes, NoMemory>
    ensures { IfOk result (λ b. b ≡ refusal_line fault.now) }
{
    match fault {
        BuildFault::Shelf { name, fault } => shelf_line(alloc, name, fault),
        BuildFault::Input { name, cause } => input_line(alloc, name, cause),
        BuildFault::NoMemory => Ok(Bytes::new(alloc)),
    }
}

/// The line of a task that the order does not have: `input ORDER no task TASK`.
pub fn no_task_line(alloc: Global, order: &str, task: &str) -> Result<Bytes, NoMemory>
    ensures { IfOk result (λ b. b ≡ no_task_line order.now task.now) }
{
    let mut out = Bytes::from_slice(alloc, b"input ")?;
    out.extend(order.as_bytes())?;
    out.extend(b" no task ")?;
    out.extend(task.as_bytes())?;
    out.extend(b"\n")?;
    Ok(out)
}
