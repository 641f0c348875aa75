//! The bytes of one segment.
ghost use Rattle.std.specs.Prelude.{◌≡◌, ◌⊎◌, ℕ, ◌+◌, ◌-◌, ◌^◌, ◌<◌, ◌≤◌, ◌++◌, [], length, replicate, List, Option, None, Err, Ok, false, IfOk, IfErr, IfNone, IfSome, OnOk};
ghost use Rattle.std.specs.FinMap.{get};
ghost use Rattle.span_store.specs.ByteMap.{top};
ghost use Rattle.session_image.specs.Filling.{gap};
ghost use Rattle.session_image.specs.Keeping.{IsReady, left_of};
ghost use Rattle.session_image.specs.Kept.{HasRoom};
ghost use Rattle.session_image.specs.Pieces.{byte_of, filled};

use crate::content::Content;
use crate::filters::Filters;
use crate::keeping::Kept;
use crate::types::ImageFault;
use flash_base::{Bytes, NoMemory};
use span_store::Spans;
use std::alloc::Global;

/// No bytes yet, with room for so many.
fn with_room(alloc: Global, size: u64) -> Result<Vec<u8>, NoMemory>
    ensures { IfOk result (λ v. v.items ≡ []) }
{
    Ok(Vec::with_capacity(alloc, size as usize)?)
}

/// Puts bytes at the end.
fn extend(out: &mut Vec<u8>, bytes: &[u8]) -> Result<(), NoMemory>
    ensures { OnOk result (out.new.items ≡ out.old.items ++ bytes.now) }
{
    out.extend_from_slice(bytes)?;
    Ok(())
}

/// Puts one byte so many times at the end.
fn repeat(out: &mut Vec<u8>, n: usize, byte: u8) -> Result<(), NoMemory>
    requires { n < 2 ^ 63 }
    ensures { OnOk result (out.new.items ≡ out.old.items ++ replicate n byte) }
{
    let size = out.len();
    out.resize(size + n, byte)?;
    Ok(())
}

/// Puts a fill byte for each address of a gap. Without one its first address is a hole.
fn pad(
    out: &mut Vec<u8>,
    from: u64,
    stop: u64,
    fill: Option<u8>,
    number: u32,
) -> Result<(), ImageFault>
    requires { stop < 2 ^ 63 }
    ensures ok { IfOk result (λ _. (bytes : List ℕ) × (gap number from (stop - from) fill ≡ Ok bytes)
        × (out.new.items ≡ out.old.items ++ bytes)) }
    ensures err { IfErr result (λ e. (e ≡ ImageFault.NoMemory)
        ⊎ (gap number from (stop - from) fill ≡ Err e)) }
{
    if stop <= from {
        return Ok(());
    }
    let Some(byte) = fill else {
        return Err(ImageFault::Hole {
            segment: number,
            at: from,
        });
    };
    repeat(out, (stop - from) as usize, byte)?;
    Ok(())
}

/// The bytes of a range, as the pieces of a walk have them, or its lowest hole.
fn of_pieces(
    alloc: Global,
    pieces: &mut Kept<'_>,
    range: (u64, u64),
    fill: Option<u8>,
    number: u32,
) -> Result<Bytes, ImageFault>
    requires ready { IsReady pieces.old }
    requires within { range.0 + range.1 ≤ top }
    requires low { (a : ℕ) → a < range.0 → get (left_of pieces.old) a ≡ None }
    requires high { (a : ℕ) → range.0 + range.1 ≤ a → get (left_of pieces.old) a ≡ None }
    ensures { (result ≡ Err ImageFault.NoMemory)
        ⊎ (result ≡ filled number (get (left_of pieces.old)) fill range.0 range.1) }
{
    let stop = range.0 + range.1;
    let mut out = with_room(alloc, range.1)?;
    let mut here = range.0;
    while let Some((start, bytes)) = pieces.next() {
        pad(&mut out, here, start, fill, number)?;
        extend(&mut out, bytes)?;
        here = start + bytes.len() as u64;
    }
    pad(&mut out, here, stop, fill, number)?;
    Ok(Bytes::from_vec(out))
}

/// The bytes of a range of a map, where filters keep its addresses.
fn of_map(
    alloc: Global,
    spans: &Spans,
    filters: &Filters<'_>,
    range: (u64, u64),
    fill: Option<u8>,
    number: u32,
) -> Result<Bytes, ImageFault>
    requires { range.0 + range.1 ≤ top }
    ensures { (result ≡ Err ImageFault.NoMemory)
        ⊎ (result ≡ filled number (byte_of (Content.Mapped spans.now) filters.now range.0 0) fill range.0
        range.1) }
{
    let walk = spans.walk(range.0, range.1);
    let mut pieces = Kept::new(filters, range.0, &[], walk);
    of_pieces(alloc, &mut pieces, range, fill, number)
}

/// The bytes of a range that are given, where filters keep its addresses.
fn of_bytes(
    alloc: Global,
    bytes: &[u8],
    filters: &Filters<'_>,
    range: (u64, u64),
    fill: Option<u8>,
    number: u32,
) -> Result<Bytes, ImageFault>
    requires within { range.0 + range.1 ≤ top }
    requires size { length bytes.now ≡ range.1 }
    ensures { (result ≡ Err ImageFault.NoMemory)
        ⊎ (result ≡ filled number (byte_of (Content.Plain bytes.now) filters.now range.0 0) fill range.0
        range.1) }
{
    let none = Spans::new(alloc);
    let mut pieces = Kept::new(filters, range.0, bytes, none.pieces());
    of_pieces(alloc, &mut pieces, range, fill, number)
}

/// The bytes of a range, taken out of a map where that is allowed, no filter asks, and one extent has them.
fn taken(
    spans: &mut Spans,
    filters: &Filters<'_>,
    range: (u64, u64),
    allowed: bool,
) -> Option<Bytes>
    ensures same { IfNone result (spans.new ≡ spans.old) }
    ensures allowed { allowed ≡ false → result ≡ None }
    ensures bytes { IfSome result (λ b. (number : ℕ) (fill : Option ℕ)
        → filled number (byte_of (Content.Mapped spans.old) filters.now range.0 0) fill range.0 range.1
        ≡ Ok b) }
{
    if !allowed {
        return None;
    }
    if !filters.is_empty() {
        return None;
    }
    spans.take(range.0, range.1)
}

/// The bytes of one segment, or its lowest hole. So many bytes of the data stand before it. Those of the last
/// segment are taken out of the data where one extent has them, since nothing asks for the data any more.
pub(crate) fn body(
    alloc: Global,
    content: &mut Content,
    filters: &Filters<'_>,
    range: (u64, u64),
    before: u64,
    fill: Option<u8>,
    number: u32,
    last: bool,
) -> Result<Bytes, ImageFault>
    requires within { range.0 + range.1 ≤ top }
    requires bytes { HasRoom content.old (before + range.1) }
    ensures bytes { (result ≡ Err ImageFault.NoMemory)
        ⊎ (result ≡ filled number (byte_of content.old filters.now range.0 before) fill range.0 range.1) }
    ensures same { last ≡ false → content.new ≡ content.old }
{
    match content {
        Content::Mapped(spans) => {
            if let Some(bytes) = taken(spans, filters, range, last) {
                return Ok(bytes);
            }
            of_map(alloc, spans, filters, range, fill, number)
        }
        Content::Plain(bytes) => {
            let first = before as usize;
            let bytes = &bytes.as_slice()[first..first + range.1 as usize];
            of_bytes(alloc, bytes, filters, range, fill, number)
        }
    }
}
