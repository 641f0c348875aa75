//! The segments of a session with their bytes.
ghost use Rattle.std.specs.Prelude.{false, ◌≡◌, ◌⊎◌, ◌≤◌, ◌<◌, ◌+◌, ◌++◌, length, Err, Ok, IfOk, OnOk, None, Some, if◌then◌else◌, ℕ};
ghost use Rattle.flash_base.specs.Lists.{Each};
ghost use Rattle.span_store.specs.ByteMap.{top};
ghost use Rattle.ecu_mem.specs.Bounds.{IsRange, IsWholeCatalogue, IsBlockAmong};
ghost use Rattle.session_image.specs.Files.{blocks_at, flash_of};
ghost use Rattle.session_image.specs.Kept.{HasRoom, IsPlaced, IsWithin, sizes};
ghost use Rattle.session_image.specs.Pieces.{bodies, has_its_size, is_outside, target_of, moved, total, own_pieces, block_pieces, session_pieces, size_of, size_limit, segments_of};

use crate::content::{Content, data_of};
use crate::files::{block_of, flash_of};
use crate::filling::body;
use crate::filters::Filters;
use crate::ranges::{ranges, total};
use crate::types::ImageFault;
use ecu_mem::{Block, EcuMem};
use flash_base::{Bytes, Files, Items, NoMemory, Text};
use flash_plan::Segment;
use span_store::TOP;
use std::alloc::Global;

/// The most bytes of a session, and of a checksum's range.
pub(crate) const SIZE_LIMIT: u64 = 16_777_216;

/// A segment: where it stands in the source, where it goes, and its bytes.
#[derive(Debug, Drop)]
pub struct Piece {
    pub source: u64,
    pub target: u64,
    pub body: Bytes,
}

/// Plain bytes have to be as many as the segments have addresses.
fn has_its_size(
    alloc: Global,
    content: Content,
    block: &Block,
    said: u64,
) -> Result<Content, ImageFault>
    ensures { (result ≡ Err ImageFault.NoMemory) ⊎ (result ≡ has_its_size content block.now said) }
{
    match content {
        Content::Mapped(spans) => Ok(Content::Mapped(spans)),
        Content::Plain(bytes) => {
            let seen = bytes.len() as u64;
            if seen == said {
                return Ok(Content::Plain(bytes));
            }
            let block = Text::from_str(alloc, block.id.as_str())?;
            Err(ImageFault::BinarySize { block, said, seen })
        }
    }
}

/// The ranges with their bytes; the first is segment `number`. Behind the last one the data are of no more use.
fn bodies(
    alloc: Global,
    content: &mut Content,
    filters: &Filters<'_>,
    fill: Option<u8>,
    first: u32,
    ranges: &[(u64, u64)],
) -> Result<Items<(u64, Bytes)>, ImageFault>
    requires ranges { Each IsRange ranges.now }
    requires bytes { HasRoom content.old (total ranges.now) }
    requires limit { first + total ranges.now ≤ size_limit }
    ensures bodies { (result ≡ Err ImageFault.NoMemory)
        ⊎ (result ≡ bodies content.old filters.now fill first 0 ranges.now) }
    ensures within { IfOk result (λ v. Each IsWithin v) }
    ensures sizes { IfOk result (λ v. sizes v ≡ total ranges.now) }
{
    let mut bodies = Items::new(alloc);
    let mut before = 0;
    let mut number = first;
    for i in 0..ranges.len() {
        let range = ranges[i];
        let last = i + 1 == ranges.len();
        let body = body(alloc, content, filters, range, before, fill, number, last)?;
        bodies.push((range.0, body))?;
        before += range.1;
        number += 1;
    }
    Ok(bodies)
}

/// Whether a segment leaves the addresses on its way to its target address.
fn is_outside(block: &Block, at: u64, size: u64) -> bool
    requires at { at + size ≤ top }
    requires offset { block.now.offset < top }
    ensures { result ≡ is_outside block.now at size }
{
    if block.down {
        at < block.offset
    } else {
        TOP < at + block.offset + size
    }
}

/// The target address of a segment.
fn target_of(block: &Block, at: u64, size: u64) -> u64
    requires at { at + size ≤ top }
    requires inside { is_outside block.now at size ≡ false }
    ensures { result ≡ target_of block.now at }
{
    if block.down {
        at - block.offset
    } else {
        at + block.offset
    }
}

/// The segments at their target addresses; the first is segment `number`.
fn moved(
    alloc: Global,
    block: &Block,
    first: u32,
    bodies: Items<(u64, Bytes)>,
) -> Result<Items<Piece>, ImageFault>
    requires within { Each IsWithin bodies }
    requires offset { block.now.offset < top }
    requires limit { first + sizes bodies ≤ size_limit }
    ensures placed { IfOk result (λ pieces. Each IsPlaced pieces) }
    ensures size { IfOk result (λ pieces. size_of pieces ≡ sizes bodies) }
    ensures pieces { (result ≡ Err ImageFault.NoMemory) ⊎ (result ≡ moved block.now first bodies) }
{
    let mut pieces = Items::new(alloc);
    let mut number = first;
    let mut rest = bodies.into_vec().into_iter();
    while let Some(piece) = rest.next() {
        let (source, body) = piece;
        let size = body.len() as u64;
        if is_outside(block, source, size) {
            return Err(ImageFault::OutOfRange { segment: number });
        }
        pieces.push(Piece {
            source,
            target: target_of(block, source, size),
            body,
        })?;
        number += 1;
    }
    Ok(pieces)
}

/// The segments of a datablock whose data are at hand.
fn own_pieces(
    alloc: Global,
    fill: Option<u8>,
    number: u32,
    size: u64,
    block: &Block,
    content: Content,
) -> Result<Items<Piece>, ImageFault>
    requires segments { Each IsRange block.now.segments }
    requires filters { Each IsRange block.now.filters }
    requires offset { block.now.offset < top }
    requires limit { number ≤ size }
    requires size { size ≤ size_limit }
    ensures placed { IfOk result (λ pieces. Each IsPlaced pieces) }
    ensures some { IfOk result (λ pieces. 1 ≤ size_of pieces) }
    ensures limit { IfOk result (λ pieces. size + size_of pieces ≤ size_limit) }
    ensures pieces { (result ≡ Err ImageFault.NoMemory)
        ⊎ (result ≡ own_pieces fill number size block.now content) }
{
    let filters = Filters::new(alloc, block.filters.as_slice())?;
    let ranges = ranges(alloc, &content, block, &filters)?;
    if ranges.is_empty() {
        let block = Text::from_str(alloc, block.id.as_str())?;
        return Err(ImageFault::NoSegment { block });
    }
    let Some(said) = total(ranges.as_slice(), SIZE_LIMIT - size) else {
        return Err(ImageFault::TooLarge);
    };
    let mut content = has_its_size(alloc, content, block, said)?;
    let ranges = ranges.as_slice();
    let bodies = bodies(alloc, &mut content, &filters, fill, number, ranges)?;
    moved(alloc, block, number, bodies)
}

/// The segments of a datablock. So many segments and bytes of the session stand before them.
fn block_pieces(
    alloc: Global,
    mem: &EcuMem,
    files: &Files,
    fill: Option<u8>,
    number: u32,
    size: u64,
    block: &Block,
) -> Result<Items<Piece>, ImageFault>
    requires block { IsBlockAmong (length mem.now.flashes) block.now }
    requires limit { number ≤ size }
    requires size { size ≤ size_limit }
    ensures placed { IfOk result (λ pieces. Each IsPlaced pieces) }
    ensures some { IfOk result (λ pieces. 1 ≤ size_of pieces) }
    ensures limit { IfOk result (λ pieces. size + size_of pieces ≤ size_limit) }
    ensures pieces { (result ≡ Err ImageFault.NoMemory)
        ⊎ (result ≡ block_pieces mem.now files.now fill number size block.now) }
{
    let content = data_of(alloc, files, flash_of(mem, block))?;
    own_pieces(alloc, fill, number, size, block, content)
}

/// Puts the segments of a datablock behind those before them, and answers how many bytes they have.
fn append(pieces: &mut Items<Piece>, more: Items<Piece>) -> Result<u64, NoMemory>
    requires { size_of more ≤ size_limit }
    ensures pieces { OnOk result (pieces.new ≡ pieces.old ++ more) }
    ensures size { IfOk result (λ size. size ≡ size_of more) }
{
    let mut size = 0;
    let mut rest = more.into_vec().into_iter();
    while let Some(piece) = rest.next() {
        size += piece.body.len() as u64;
        pieces.push(piece)?;
    }
    Ok(size)
}

/// The segments of all datablocks of a session.
pub(crate) fn session_pieces(
    alloc: Global,
    mem: &EcuMem,
    files: &Files,
    fill: Option<u8>,
    blocks: &[u64],
) -> Result<Items<Piece>, ImageFault>
    requires whole { IsWholeCatalogue mem.now }
    requires blocks { Each (λ i. i < length mem.now.blocks) blocks.now }
    ensures placed { IfOk result (λ pieces. Each IsPlaced pieces) }
    ensures some { IfOk result (λ pieces. 1 ≤ size_of pieces) }
    ensures pieces { (result ≡ Err ImageFault.NoMemory)
        ⊎ (result ≡ session_pieces mem.now files.now fill (blocks_at mem.now blocks.now)) }
{
    if blocks.is_empty() {
        let block = Text::from_str(alloc, "")?;
        return Err(ImageFault::NoSegment { block });
    }
    let mut pieces = Items::new(alloc);
    let mut size = 0;
    for at in blocks {
        let block = block_of(mem, *at);
        let number = pieces.len() as u32;
        let more = block_pieces(alloc, mem, files, fill, number, size, block)?;
        size += append(&mut pieces, more)?;
    }
    Ok(pieces)
}

/// What is programmed of the segments.
pub(crate) fn segments_of(alloc: Global, pieces: Items<Piece>) -> Result<Items<Segment>, NoMemory>
    ensures { IfOk result (λ segments. segments ≡ segments_of pieces) }
{
    let mut segments = Items::new(alloc);
    let mut rest = pieces.into_vec().into_iter();
    while let Some(piece) = rest.next() {
        segments.push(Segment {
            at: piece.target,
            body: piece.body,
        })?;
    }
    Ok(segments)
}
