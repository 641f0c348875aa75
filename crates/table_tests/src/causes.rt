//! Refusals of files in words.
use crate::catalogues::put_path;
use crate::orders::put_place;
use flash_base::{NoMemory, Text};
use flash_plan::What;
use plan_build::Cause;
use test_rows::put_digits;

fn amount(what: What) -> &'static str {
    match what {
        What::Units => "too many units",
        What::Segments => "too many segments",
        What::Bytes => "too many bytes",
        What::Total => "too many total",
        What::Idents => "too many idents",
    }
}

/// A word, and a name.
fn put_name(out: &mut String, word: &str, name: &Text) -> Result<(), NoMemory> {
    out.push_str(word)?;
    Ok(out.push_str(name.as_str())?)
}

/// A refusal of the order in words.
pub fn put_cause(out: &mut String, cause: &Cause) -> Result<(), NoMemory> {
    match cause {
        Cause::BadField { task, field } => {
            out.push_str("bad field ")?;
            put_place(out, *task)?;
            put_name(out, "", field)
        }
        Cause::NoDid { task, name } => {
            put_name(out, "no did ", task)?;
            put_name(out, " ", name)
        }
        Cause::TooMany { what } => Ok(out.push_str(amount(*what))?),
        Cause::SameUnit { address } => Ok(write!(out, "same unit {address:04X}")?),
        _ => put_task(out, cause),
    }
}

/// A refusal that has a task's name in words.
fn put_task(out: &mut String, cause: &Cause) -> Result<(), NoMemory> {
    match cause {
        Cause::NoCatalogue { task } => put_name(out, "no catalogue ", task),
        Cause::NoSession { task } => put_name(out, "no session ", task),
        Cause::EmptyRaw { task } => put_name(out, "empty raw ", task),
        Cause::SameName { name } => put_name(out, "same name ", name),
        Cause::UnknownAfter { name } => put_name(out, "unknown after ", name),
        Cause::Cycle { name } => put_name(out, "cycle ", name),
        Cause::TooWide { name } => put_name(out, "too wide ", name),
        _ => put_tree(out, cause),
    }
}

/// A refusal of the catalogue's tree in words.
fn put_tree(out: &mut String, cause: &Cause) -> Result<(), NoMemory> {
    match cause {
        Cause::NotJson => Ok(out.push_str("not json")?),
        Cause::NotTree { path } => {
            out.push_str("not a tree ")?;
            put_path(out, path.as_slice())
        }
        Cause::Missing { path, tag } => {
            out.push_str("missing ")?;
            put_path(out, path.as_slice())?;
            put_name(out, " ", tag)
        }
        Cause::BadNumber { path } => {
            out.push_str("bad number ")?;
            put_path(out, path.as_slice())
        }
        _ => put_id(out, cause),
    }
}

/// A refusal that has an ID in words.
fn put_id(out: &mut String, cause: &Cause) -> Result<(), NoMemory> {
    match cause {
        Cause::Twice { id } => put_name(out, "twice ", id),
        Cause::Dangling { id } => put_name(out, "dangling ", id),
        Cause::Compressed { id } => put_name(out, "compressed ", id),
        Cause::UserDefined { id } => put_name(out, "user defined ", id),
        Cause::BadText { id } => put_name(out, "bad text ", id),
        Cause::NoSegment { id } => put_name(out, "no segment ", id),
        _ => put_lines(out, cause),
    }
}

/// A refusal of record lines in words.
fn put_lines(out: &mut String, cause: &Cause) -> Result<(), NoMemory> {
    match cause {
        Cause::BadLine { n } => write!(out, "bad line {n}")?,
        Cause::BadSum { n } => write!(out, "bad sum {n}")?,
        Cause::BadCount { said, seen } => write!(out, "bad count {said} {seen}")?,
        Cause::NoEnd => out.push_str("no end")?,
        Cause::AfterEnd { n } => write!(out, "after end {n}")?,
        Cause::Conflict { at } => write!(out, "conflict {at:010X}")?,
        _ => put_image(out, cause)?,
    }
    Ok(())
}

/// A refusal of a session's image in words.
fn put_image(out: &mut String, cause: &Cause) -> Result<(), NoMemory> {
    match cause {
        Cause::BinarySize { id, said, seen } => {
            put_name(out, "binary size ", id)?;
            write!(out, " {said} {seen}")?;
        }
        Cause::Hole { segment, at } => write!(out, "hole {segment} {at:010X}")?,
        Cause::OutOfRange { segment } => write!(out, "out of range {segment}")?,
        Cause::Overlap { at } => write!(out, "overlap {at:010X}")?,
        Cause::ChecksumDiffers { name, said, got } => {
            put_name(out, "checksum differs ", name)?;
            out.push(' ')?;
            put_digits(out, said.as_slice())?;
            out.push(' ')?;
            put_digits(out, got.as_slice())?;
        }
        Cause::TooLarge => out.push_str("too large")?,
        _ => out.push_str("another cause")?,
    }
    Ok(())
}
