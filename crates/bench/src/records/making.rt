//! Texts that are generated.
ghost use Rattle.std.specs.Prelude.{◌<◌, ◌≤◌, ◌^◌};

use flash_base::{Bytes, NoMemory};
use std::alloc::Global;

const DIGITS: &[u8; 16] = b"0123456789ABCDEF";

/// The order in which the records of a text come.
#[derive(Clone, Copy, Debug)]
pub(crate) enum Order {
    Ascending,
    Descending,
    /// Each far from those before it.
    Scattered,
    /// Every second one, and then the others.
    Halves,
}

impl Order {
    pub(crate) const ALL: [Order; 4] = [
        Order::Ascending,
        Order::Descending,
        Order::Scattered,
        Order::Halves,
    ];

    pub(crate) fn name(self) -> &'static str {
        match self {
            Order::Ascending => "ascending",
            Order::Descending => "descending",
            Order::Scattered => "scattered",
            Order::Halves => "in two halves",
        }
    }

    /// The number of the record that comes at a place.
    fn at(self, i: u32, records: u32) -> u32
        requires within { i < records }
        requires few { records < 2 ^ 30 }
    {
        match self {
            Order::Ascending => i,
            Order::Descending => records - 1 - i,
            Order::Scattered => (u64::from(i) * 613_651 % u64::from(records)) as u32,
            Order::Halves => {
                let half = records / 2;
                if i < half { 2 * i + 1 } else { 2 * (i - half) }
            }
        }
    }
}

/// Two digits.
fn push_byte(text: &mut Bytes, b: u8) -> Result<(), NoMemory> {
    text.push(DIGITS[usize::from(b / 16)])?;
    text.push(DIGITS[usize::from(b % 16)])
}

/// The digits of bytes; answers the sum with them.
fn push_all(text: &mut Bytes, bytes: &[u8], before: u8) -> Result<u8, NoMemory> {
    let mut sum = before;
    for b in bytes {
        sum = sum.wrapping_add(*b);
        push_byte(text, *b)?;
    }
    Ok(sum)
}

/// A line of Intel HEX.
fn push_hex(text: &mut Bytes, head: &[u8], body: &[u8]) -> Result<(), NoMemory> {
    text.push(b':')?;
    let sum = push_all(text, head, 0)?;
    let sum = push_all(text, body, sum)?;
    push_byte(text, 0u8.wrapping_sub(sum))?;
    text.push(b'\n')
}

/// A line of S-records.
fn push_srec(text: &mut Bytes, kind: u8, head: &[u8], body: &[u8]) -> Result<(), NoMemory> {
    text.push(b'S')?;
    text.push(kind)?;
    let sum = push_all(text, head, 0)?;
    let sum = push_all(text, body, sum)?;
    push_byte(text, 255 - sum)?;
    text.push(b'\n')
}

/// The bytes of the record with this number, which look like noise, as an image mostly does.
fn filled(i: u32) -> [u8; 16] {
    let mut bytes = [0u8; 16];
    let mut state = u64::from(i).wrapping_mul(0x9E37_79B9_7F4A_7C15);
    for b in bytes.iter_mut() {
        state = state
            .wrapping_mul(6_364_136_223_846_793_005)
            .wrapping_add(1_442_695_040_888_963_407);
        *b = (state / 0x100_0000_0000_0000) as u8;
    }
    bytes
}

/// The record of Intel HEX with this number, behind the line that sets its base where `upper` is another.
fn push_numbered(text: &mut Bytes, i: u32, upper: u32) -> Result<u32, NoMemory> {
    let needed = i / 4096 % 65536;
    if needed != upper {
        let base = [(needed / 256) as u8, (needed % 256) as u8];
        push_hex(text, &[2, 0, 0, 4], &base)?;
    }
    let offset = i % 4096 * 16;
    let head = [16, (offset / 256) as u8, (offset % 256) as u8, 0];
    push_hex(text, &head, &filled(i))?;
    Ok(needed)
}

/// Intel HEX of so many records of 16 bytes each.
pub(crate) fn hex_text(alloc: Global, records: u32, order: Order) -> Result<Bytes, NoMemory>
    requires { records < 2 ^ 28 }
{
    let mut text = Bytes::new(alloc);
    let mut upper = 0;
    for i in 0..records {
        upper = push_numbered(&mut text, order.at(i, records), upper)?;
    }
    push_hex(&mut text, &[0, 0, 0, 1], &[])?;
    Ok(text)
}

/// The S3 record with this number, of so many bytes.
fn push_data(text: &mut Bytes, i: u32, size: usize) -> Result<(), NoMemory>
    requires { size ≤ 16 }
{
    let at = u64::from(i) * size as u64;
    let head = [
        (size + 5) as u8,
        (at / 0x100_0000 % 256) as u8,
        (at / 0x1_0000 % 256) as u8,
        (at / 256 % 256) as u8,
        (at % 256) as u8,
    ];
    push_srec(text, b'3', &head, &filled(i)[..size])
}

/// S-records of so many records of so many bytes each.
pub(crate) fn srec_text(
    alloc: Global,
    records: u32,
    size: usize,
    order: Order,
) -> Result<Bytes, NoMemory>
    requires records { records < 2 ^ 28 }
    requires size { size ≤ 16 }
{
    let mut text = Bytes::new(alloc);
    for i in 0..records {
        push_data(&mut text, order.at(i, records), size)?;
    }
    push_srec(&mut text, b'7', &[5, 0, 0, 0, 0], &[])?;
    Ok(text)
}
