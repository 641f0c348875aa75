use flash_base::NoMemory;
use std::alloc::Global;

/// The bytes of hexadecimal digits.
pub fn bytes_of_digits(alloc: Global, digits: &str) -> Result<Vec<u8>, NoMemory> {
    let mut bytes = Vec::new(alloc);
    let mut high = None;
    for digit in digits.chars() {
        let value = digit.to_digit(16).unwrap_or(0);
        match high {
            None => high = Some(value),
            Some(sixteens) => {
                bytes.push((sixteens.wrapping_mul(16).wrapping_add(value) % 256) as u8)?;
                high = None;
            }
        }
    }
    Ok(bytes)
}

/// Bytes as hexadecimal digits, at the end of a text.
pub fn put_digits(out: &mut String, bytes: &[u8]) -> Result<(), NoMemory> {
    for byte in bytes {
        write!(out, "{byte:02x}")?;
    }
    Ok(())
}

/// Bytes as the characters with their numbers, at the end of a text.
pub fn put_bytes(out: &mut String, bytes: &[u8]) -> Result<(), NoMemory> {
    for byte in bytes {
        out.push(*byte as char)?;
    }
    Ok(())
}
