//! The checksums of a session.
ghost use Rattle.std.specs.Prelude.{◌≡◌, ◌⊎◌, ℕ, ◌≤◌, ◌<◌, ◌+◌, ◌-◌, ◌%◌, ◌++◌, Err, IfOk, Some, sum, length, min, take, drop, replicate};
ghost use Rattle.ecu_mem.specs.Bounds.{IsCheck};
ghost use Rattle.flash_base.specs.Lists.{Each};
ghost use Rattle.span_store.specs.ByteMap.{top};
ghost use Rattle.session_image.specs.Algorithms.{known, value_of};
ghost use Rattle.session_image.specs.Checks.{or_byte, compared, check_bytes, checked, all_checked};
ghost use Rattle.session_image.specs.Kept.{IsPlaced, byte_in, laid};
ghost use Rattle.session_image.specs.Pieces.{size_limit};

use crate::pieces::{Piece, SIZE_LIMIT};
use crate::types::{Checked, ImageFault};
use ecu_mem::Check;
use flash_base::{Bytes, Items, NoMemory, Text};
use sha2::{Digest, Sha256};
use std::alloc::Global;

/// Copies bytes to a place, as many as go there, and answers the place behind them.
fn copied(out: &mut [u8], at: usize, bytes: &[u8]) -> usize
    requires { at ≤ length out.old }
    ensures place { result ≡ at + min (length bytes.now) (length out.old - at) }
    ensures copied { out.new ≡ take at out.old ++ (take (result - at) bytes.now ++ drop result out.old) }
{
    let n = bytes.len().min(out.len() - at);
    out[at..at + n].copy_from_slice(&bytes[..n]);
    at + n
}

/// Copies those of the bytes from an address on that lie in the range of `out`, which begins at another.
fn lay_over(out: &mut [u8], from: u64, at: u64, bytes: &[u8])
    requires range { from + length out.old ≤ top }
    requires bytes { at + length bytes.now ≤ top }
    ensures { out.new ≡ laid (byte_in at bytes.now) from out.old }
{
    let first = at.max(from);
    if at + bytes.len() as u64 <= first || from + out.len() as u64 <= first {
        return;
    }
    let there = &bytes[(first - at) as usize..];
    copied(out, (first - from) as usize, there);
}

/// What stands where no segment has an address.
fn blank_byte(fill: Option<u8>) -> u8
    ensures { result ≡ or_byte fill 255 }
{
    match fill {
        Some(byte) => byte,
        None => 255,
    }
}

/// The bytes of a range that no segment has.
fn blank(alloc: Global, fill: Option<u8>, size: u64) -> Result<Vec<u8>, NoMemory>
    ensures { IfOk result (λ v. v.items ≡ replicate size (or_byte fill 255)) }
{
    let byte = blank_byte(fill);
    Ok(vec![in alloc; byte; size as usize]?)
}

/// The bytes of a range of source addresses. Where several segments have an address, the first one
/// counts, so it is copied last.
fn check_bytes(
    alloc: Global,
    pieces: &[Piece],
    fill: Option<u8>,
    from: u64,
    size: u64,
) -> Result<Vec<u8>, NoMemory>
    requires pieces { Each IsPlaced pieces.now }
    requires range { from + size ≤ top }
    ensures { IfOk result (λ v. v.items ≡ check_bytes pieces.now fill from size) }
{
    let mut out = blank(alloc, fill, size)?;
    let mut left = pieces.len();
    while 0 < left {
        left -= 1;
        let piece = &pieces[left];
        lay_over(&mut out, from, piece.source, piece.body.as_slice());
    }
    Ok(out)
}

/// So many bytes are summed at a time, and for each segment so many more.
const PART: u64 = 65_536;

const PART_EACH: u64 = 64;

/// A sum of bytes modulo 65,536, with more bytes.
fn sum_with(before: u16, bytes: &[u8]) -> u16
    ensures { result ≡ (before + sum bytes.now) % 65536 }
{
    let mut all = before;
    for byte in bytes {
        all = all.wrapping_add(u16::from(*byte));
    }
    all
}

/// An algorithm that is known here.
#[derive(Clone, Copy, Debug)]
enum Algorithm {
    Sha256,
    Sum16,
}

fn known(name: &Text) -> Option<Algorithm>
    ensures { result ≡ known name.now }
{
    if name.is("SHA-256") {
        return Some(Algorithm::Sha256);
    }
    if name.is("SUM-16") {
        return Some(Algorithm::Sum16);
    }
    None
}

/// How many bytes of a range are summed at a time. The more segments there are, the more bytes, so that looking
/// through the segments takes no more time than the bytes do.
fn part_size(pieces: &[Piece]) -> u64
    ensures { 0 < result }
{
    PART_EACH
        .saturating_mul(pieces.len() as u64)
        .saturating_add(PART)
}

/// The SHA-256 of a range.
fn hash_of(
    alloc: Global,
    pieces: &[Piece],
    fill: Option<u8>,
    from: u64,
    size: u64,
) -> Result<Bytes, NoMemory>
    requires pieces { Each IsPlaced pieces.now }
    requires range { from + size ≤ top }
    ensures { IfOk result (λ v. v ≡ value_of Algorithm.Sha256 (check_bytes pieces.now fill from size)) }
{
    let step = part_size(pieces);
    let mut hasher = Sha256::new();
    let mut done = 0;
    while done < size {
        let n = step.min(size - done);
        let part = check_bytes(alloc, pieces, fill, from + done, n)?;
        hasher.update(part.as_slice());
        done += n;
    }
    let digest = hasher.finalize();
    Bytes::from_slice(alloc, &digest)
}

/// The sum of a range.
fn sum_of(
    alloc: Global,
    pieces: &[Piece],
    fill: Option<u8>,
    from: u64,
    size: u64,
) -> Result<Bytes, NoMemory>
    requires pieces { Each IsPlaced pieces.now }
    requires range { from + size ≤ top }
    ensures { IfOk result (λ v. v ≡ value_of Algorithm.Sum16 (check_bytes pieces.now fill from size)) }
{
    let step = part_size(pieces);
    let mut all = 0;
    let mut done = 0;
    while done < size {
        let n = step.min(size - done);
        let part = check_bytes(alloc, pieces, fill, from + done, n)?;
        all = sum_with(all, part.as_slice());
        done += n;
    }
    Bytes::from_slice(alloc, &all.to_be_bytes())
}

/// The value of the bytes of a range.
fn value(
    alloc: Global,
    algorithm: Algorithm,
    pieces: &[Piece],
    check: &Check,
) -> Result<Bytes, NoMemory>
    requires pieces { Each IsPlaced pieces.now }
    requires check { IsCheck check.now }
    ensures { IfOk result (λ v. v ≡ value_of algorithm
        (check_bytes pieces.now check.now.fill check.now.from check.now.size)) }
{
    match algorithm {
        Algorithm::Sha256 => hash_of(alloc, pieces, check.fill, check.from, check.size),
        Algorithm::Sum16 => sum_of(alloc, pieces, check.fill, check.from, check.size),
    }
}

/// Compares what a checksum has with what it says.
fn compared(alloc: Global, check: &Check, got: Bytes) -> Result<Checked, ImageFault>
    ensures { (result ≡ Err ImageFault.NoMemory) ⊎ (result ≡ compared check.now (Some got)) }
{
    let name = Text::from_str(alloc, check.name.as_str())?;
    if check.result.as_slice() == got.as_slice() {
        return Ok(Checked { name, done: true });
    }
    let said = Bytes::from_slice(alloc, check.result.as_slice())?;
    Err(ImageFault::ChecksumDiffers { name, said, got })
}

/// One checksum over the segments.
fn checked(alloc: Global, pieces: &[Piece], check: &Check) -> Result<Checked, ImageFault>
    requires pieces { Each IsPlaced pieces.now }
    requires check { IsCheck check.now }
    ensures { (result ≡ Err ImageFault.NoMemory) ⊎ (result ≡ checked pieces.now check.now) }
{
    if SIZE_LIMIT < check.size {
        return Err(ImageFault::TooLarge);
    }
    let Some(algorithm) = known(&check.alg) else {
        let name = Text::from_str(alloc, check.name.as_str())?;
        return Ok(Checked { name, done: false });
    };
    compared(alloc, check, value(alloc, algorithm, pieces, check)?)
}

/// All checksums, in order; the first that differs is refused.
pub(crate) fn all_checked(
    alloc: Global,
    pieces: &[Piece],
    checks: &[Check],
) -> Result<Items<Checked>, ImageFault>
    requires pieces { Each IsPlaced pieces.now }
    requires checks { Each IsCheck checks.now }
    ensures { (result ≡ Err ImageFault.NoMemory) ⊎ (result ≡ all_checked pieces.now checks.now) }
{
    let mut all = Items::new(alloc);
    for check in checks {
        let one = checked(alloc, pieces, check)?;
        all.push(one)?;
    }
    Ok(all)
}
