//! Digits 32 at a time.
ghost use Rattle.std.specs.Prelude.{◌≡◌, ℕ, ◌+◌, ◌*◌, ◌≤◌, ◌<◌, length, map, take, drop, sum, slice_index, MatchOption, IsTrue};
ghost use Rattle.rec_text.specs.Digits.{bytes_of};
ghost use Rattle.rec_text.specs.Lanes.{value, coupled, behind, IsBlock};

use crate::line::SPELLED;
use std::simd::prelude::*;

/// What each lane is as a hexadecimal digit, or 16 or more where it is none.
#[inline(always)]
fn values(v: u8x32) -> u8x32
    ensures { result ≡ map value v }
{
    let number = (v + u8x32::splat(198)).simd_max(u8x32::splat(6)) - u8x32::splat(246);
    let letter = ((v & u8x32::splat(0xdf)) - u8x32::splat(65)).simd_min(u8x32::splat(245))
        + u8x32::splat(10);
    number.simd_min(letter)
}

/// Whether all lanes are below 16.
#[inline(always)]
fn are_small(v: u8x32) -> bool
    ensures { IsTrue result → (k : ℕ) → slice_index v k < 16 }
{
    v.simd_ge(u8x32::splat(16)).to_bitmask() == 0
}

/// Neighbours as the digits of one byte.
#[inline(always)]
fn paired(v: u8x32) -> u8x16
    ensures { result ≡ coupled v }
{
    let high: u8x16 = v.swizzle([0, 2, 4, 6, 8, 10, 12, 14, 16, 18, 20, 22, 24, 26, 28, 30]);
    let low: u8x16 = v.swizzle([1, 3, 5, 7, 9, 11, 13, 15, 17, 19, 21, 23, 25, 27, 29, 31]);
    high * u8x16::splat(16) + low
}

/// The sum of the lanes.
#[inline(always)]
fn sum_lanes(v: u8x16) -> u32
    ensures value { result ≡ sum v }
    ensures small { result ≤ 4080 }
{
    v.cast::<u32>().strict_reduce_sum()
}

/// The values of 32 characters from a place on.
#[inline(always)]
fn values_from(digits: &[u8], at: usize) -> u8x32
    requires { at + 32 ≤ length digits.now }
    ensures { result ≡ map value (take 32 (drop at digits.now)) }
{
    values(u8x32::from_slice(&digits[at..]))
}

/// Puts the bytes of 32 characters to a place, where all are digits; their sum.
#[inline(always)]
fn block(digits: &[u8], k: usize, out: &mut [u8; SPELLED]) -> Option<u32>
    requires digits { 2 * k + 32 ≤ length digits.now }
    requires room { k + 16 ≤ 260 }
    ensures { MatchOption result (out.new ≡ out.old) (λ s. IsBlock digits.now k out.old out.new s) }
{
    let v = values_from(digits, 2 * k);
    if !are_small(v) {
        return None;
    }
    let bytes = paired(v);
    bytes.copy_to_slice(&mut out[k..]);
    Some(sum_lanes(bytes))
}

/// The bytes of the first characters, as far as those come as 32 digits each, at the front of `out`: how
/// many, and their sum.
#[inline(always)]
pub(crate) fn by_lanes(digits: &[u8], out: &mut [u8; SPELLED]) -> (usize, u32)
    requires { length digits.now ≤ 520 }
    ensures spelled { bytes_of digits.now ≡ behind (take result.0 out.new)
        (bytes_of (drop (2 * result.0) digits.now)) }
    ensures total { result.1 ≡ sum (take result.0 out.new) }
    ensures small { result.1 ≤ 255 * result.0 }
    ensures within { 2 * result.0 ≤ length digits.now }
{
    let mut k = 0;
    let mut total = 0;
    while 2 * k + 32 <= digits.len() {
        let Some(sum) = block(digits, k, out) else {
            return (k, total);
        };
        total += sum;
        k += 16;
    }
    (k, total)
}
