//! What a record text is read as, and which texts are written. The input of the first is the text; those of the second are
//! the format, and bytes in the form of `spans`.
use crate::spans::{put_pieces, spans_of};
use flash_base::{Bytes, NoMemory};
use rec_text::RecFault;
use span_store::Spans;
use std::alloc::Global;
use test_rows::{first, put_bytes};

fn put_fault(out: &mut String, fault: &RecFault) -> Result<(), NoMemory> {
    match fault {
        RecFault::BadLine { n } => write!(out, "bad line {n}")?,
        RecFault::BadSum { n } => write!(out, "bad sum {n}")?,
        RecFault::BadCount { said, seen } => write!(out, "bad count {said} {seen}")?,
        RecFault::AfterEnd { n } => write!(out, "after end {n}")?,
        RecFault::Conflict { at } => write!(out, "conflict {at:x}")?,
        RecFault::NoEnd => out.push_str("no end")?,
        RecFault::NoMemory => out.push_str("no memory")?,
    }
    Ok(())
}

pub fn put_read(read: Result<Spans, RecFault>, out: &mut String) -> Result<(), NoMemory> {
    match read {
        Ok(spans) => put_pieces(&spans, out),
        Err(fault) => put_fault(out, &fault),
    }
}

fn put_text(text: Result<Bytes, NoMemory>, out: &mut String) -> Result<(), NoMemory> {
    let text = text?;
    put_bytes(out, text.as_slice())
}

/// The text of a format, `hex` or `srec`, of bytes at addresses below 4 GiB.
fn put_written(
    alloc: Global,
    format: &str,
    spans: &Spans,
    out: &mut String,
) -> Result<(), NoMemory> {
    let None = spans.piece(0x1_0000_0000) else {
        return Ok(out.push_str("too high")?);
    };
    match format {
        "hex" => put_text(hex_rec::write(alloc, spans), out),
        _ => put_text(srec_rec::write(alloc, spans), out),
    }
}

pub fn answer_writes(alloc: Global, inputs: &str, out: &mut String) -> Result<(), NoMemory> {
    let (format, puts) = first(inputs);
    let spans = spans_of(alloc, puts, out)?;
    put_written(alloc, format, &spans, out)
}
