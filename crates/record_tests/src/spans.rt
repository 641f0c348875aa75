//! What bytes by address are asked. The inputs are what is put, as `AT:DIGITS` with single blanks between them, and the
//! question: a word and its numbers.
ghost use Rattle.std.specs.Prelude.{◌+◌, ◌≤◌};
ghost use Rattle.span_store.specs.ByteMap.{top};

use flash_base::NoMemory;
use span_store::{PutFault, Spans, TOP, Walk};
use std::alloc::Global;
use test_rows::{bytes_of_digits, first, put_digits};

fn number(text: &str) -> u64 {
    u64::from_str_radix(text, 16).unwrap_or(0)
}

/// Puts bytes where they fit, and says of a conflict its address, the byte there and the other.
fn put(spans: &mut Spans, at: u64, bytes: &[u8], out: &mut String) -> Result<(), NoMemory> {
    if bytes.len() as u64 > TOP {
        return Ok(());
    }
    if at > TOP - bytes.len() as u64 {
        return Ok(());
    }
    match spans.put(at, bytes) {
        Ok(()) => Ok(()),
        Err(PutFault::Conflict { at, old, new }) => {
            Ok(write!(out, "conflict {at:x} {old:02x} {new:02x}; ")?)
        }
        Err(PutFault::NoMemory) => Err(NoMemory),
    }
}

fn put_part(
    alloc: Global,
    spans: &mut Spans,
    part: &str,
    out: &mut String,
) -> Result<(), NoMemory> {
    let (at, digits) = part.split_once(':').unwrap_or((part, ""));
    let bytes = bytes_of_digits(alloc, digits)?;
    put(spans, number(at), bytes.as_slice(), out)
}

/// What is left of these puts.
pub fn spans_of(alloc: Global, puts: &str, out: &mut String) -> Result<Spans, NoMemory> {
    let mut spans = Spans::new(alloc);
    for part in puts.split(' ') {
        put_part(alloc, &mut spans, part, out)?;
    }
    Ok(spans)
}

/// The pieces of a walk, with their bytes.
fn put_walk(walk: Walk<'_>, out: &mut String) -> Result<(), NoMemory> {
    let mut walk = walk;
    for _ in 0..1000u32 {
        let Some((at, bytes)) = walk.next() else {
            break;
        };
        write!(out, "{at:x}:")?;
        put_digits(out, bytes)?;
        out.push(' ')?;
    }
    Ok(())
}

/// All pieces, with their bytes.
pub fn put_pieces(spans: &Spans, out: &mut String) -> Result<(), NoMemory> {
    put_walk(spans.pieces(), out)
}

fn put_list(runs: &[(u64, u64)], out: &mut String) -> Result<(), NoMemory> {
    for (at, size) in runs {
        write!(out, "{at:x}+{size:x} ")?;
    }
    Ok(())
}

/// The maximal runs, one by one and as a list.
fn put_runs(alloc: Global, spans: &Spans, out: &mut String) -> Result<(), NoMemory> {
    for i in 0..spans.extents() {
        let (at, size) = spans.extent(i);
        write!(out, "{at:x}+{size:x} ")?;
    }
    out.push_str("| ")?;
    let runs = spans.runs(alloc)?;
    put_list(runs.as_slice(), out)
}

fn put_place(place: Option<u64>, out: &mut String) -> Result<(), NoMemory> {
    match place {
        Some(at) => write!(out, "{at:x}")?,
        None => out.push_str("none")?,
    }
    Ok(())
}

/// The bytes of a range of three, or its first address without one.
fn put_three(spans: &Spans, from: u64, out: &mut String) -> Result<(), NoMemory> {
    let mut bytes = [0u8; 3];
    if from > TOP - 3 {
        return Ok(out.push_str("too high")?);
    }
    match spans.range(from, &mut bytes) {
        None => put_digits(out, &bytes),
        hole => put_place(hole, out),
    }
}

/// The range cut out, and the lowest address that it shares with the whole.
fn put_cut(spans: &Spans, from: u64, size: u64, out: &mut String) -> Result<(), NoMemory>
    requires { from + size ≤ top }
{
    let cut = spans.cut(from, size)?;
    put_pieces(&cut, out)?;
    put_place(spans.overlap(&cut), out)
}

/// What is asked of a range.
fn put_of_range(
    spans: &Spans,
    word: &str,
    from: u64,
    size: u64,
    out: &mut String,
) -> Result<(), NoMemory> {
    if from > TOP {
        return Ok(out.push_str("too high")?);
    }
    if size > TOP - from {
        return Ok(out.push_str("too large")?);
    }
    match word {
        "hole" => put_place(spans.hole_in(from, size), out),
        "cut" => put_cut(spans, from, size, out),
        _ => put_walk(spans.walk(from, size), out),
    }
}

/// Takes the range out where it is an extent, and puts what was taken and what is left.
fn put_taken(spans: &mut Spans, from: u64, size: u64, out: &mut String) -> Result<(), NoMemory> {
    match spans.take(from, size) {
        Some(bytes) => put_digits(out, bytes.as_slice())?,
        None => out.push_str("none")?,
    }
    out.push_str(" | ")?;
    put_pieces(spans, out)
}

fn put_byte(byte: Option<u8>, out: &mut String) -> Result<(), NoMemory> {
    match byte {
        Some(byte) => write!(out, "{byte:02x}")?,
        None => out.push_str("none")?,
    }
    Ok(())
}

fn put_piece(piece: Option<(u64, &[u8])>, out: &mut String) -> Result<(), NoMemory> {
    match piece {
        Some((at, bytes)) => {
            write!(out, "{at:x}:")?;
            put_digits(out, bytes)
        }
        None => Ok(out.push_str("none")?),
    }
}

fn put_answer(
    alloc: Global,
    spans: &mut Spans,
    question: &str,
    out: &mut String,
) -> Result<(), NoMemory> {
    let (word, rest) = question.split_once(' ').unwrap_or((question, ""));
    let (from, size) = rest.split_once(' ').unwrap_or((rest, ""));
    let (from, size) = (number(from), number(size));
    match word {
        "runs" => put_runs(alloc, spans, out),
        "all" => put_pieces(spans, out),
        "get" => put_byte(spans.get(from), out),
        "piece" => put_piece(spans.piece(from), out),
        "three" => put_three(spans, from, out),
        "take" => put_taken(spans, from, size, out),
        _ => put_of_range(spans, word, from, size, out),
    }
}

pub fn answer(alloc: Global, inputs: &str, out: &mut String) -> Result<(), NoMemory> {
    let (puts, question) = first(inputs);
    let mut spans = spans_of(alloc, puts, out)?;
    put_answer(alloc, &mut spans, question, out)
}
