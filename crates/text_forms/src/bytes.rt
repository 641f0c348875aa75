ghost use Rattle.std.specs.Prelude.{◌≡◌, ◌+◌, ◌*◌, IfOk};
ghost use Rattle.text_forms.specs.Bytes.{byte_text, bytes_text};

use crate::numbers::digit_of_hex;
use flash_base::{Bytes, NoMemory};
use std::alloc::Global;

/// The byte that two hexadecimal digits say, in either case, or None for any other text.
pub fn hex_byte(text: &str) -> Option<u8>
    ensures { result ≡ byte_text text.now }
{
    match text.as_bytes() {
        [high, low] => {
            let high = digit_of_hex(*high)?;
            let low = digit_of_hex(*low)?;
            Some(high * 16 + low)
        }
        _ => None,
    }
}

/// The bytes that pairs of hexadecimal digits say, in either case, or None for any other text.
/// The empty text says no bytes.
pub fn hex_bytes(alloc: Global, text: &str) -> Result<Option<Bytes>, NoMemory>
    ensures { IfOk result (λ b. b ≡ bytes_text text.now) }
{
    match hex::decode(alloc, text) {
        Ok(bytes) => Ok(Some(Bytes::from_vec(bytes))),
        Err(hex::FromHexError::OutOfMemory) => Err(NoMemory),
        Err(_) => Ok(None),
    }
}
