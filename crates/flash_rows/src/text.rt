//! How values are printed.

use flash_base::{Bytes, NoMemory};
use itoa::Buffer;
use std::alloc::Global;
use text_forms::{decimal_number, hex_bytes};

/// Puts words.
pub fn put(out: &mut Bytes, words: &str) -> Result<(), NoMemory> {
    out.extend(words.as_bytes())
}

/// Puts a number in decimal digits.
pub fn put_number(out: &mut Bytes, n: u64) -> Result<(), NoMemory> {
    let mut buffer = Buffer::new();
    out.extend(buffer.format(n).as_bytes())
}

/// Puts bytes in hexadecimal digits.
pub fn put_hex(alloc: Global, out: &mut Bytes, bytes: &[u8]) -> Result<(), NoMemory> {
    let digits = hex::encode(alloc, bytes)?;
    out.extend(digits.as_str().as_bytes())
}

/// The number that the digits say; 0 where they say none.
pub fn number(digits: &str) -> u64 {
    decimal_number(digits).unwrap_or(0)
}

/// The bytes that the digits say; none where they say none.
pub fn bytes(alloc: Global, digits: &str) -> Result<Bytes, NoMemory> {
    match hex_bytes(alloc, digits)? {
        Some(bytes) => Ok(bytes),
        None => Ok(Bytes::new(alloc)),
    }
}
