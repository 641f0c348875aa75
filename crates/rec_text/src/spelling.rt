ghost use Rattle.std.specs.Prelude.{◌≡◌, ◌+◌, ◌*◌, ◌≤◌, ◌<◌, ◌++◌, length, sum, OnOk};
ghost use Rattle.rec_text.specs.Spelling.{digit_char, digits_of};

use flash_base::{Bytes, NoMemory};

/// The digit of a value below 16.
fn spelled(value: u8) -> u8
    requires { value < 16 }
    ensures { result ≡ digit_char value }
{
    if value < 10 {
        b'0' + value
    } else {
        b'A' - 10 + value
    }
}

/// Puts the digits of bytes at the end of a text.
pub fn push_digits(text: &mut Bytes, bytes: &[u8]) -> Result<(), NoMemory>
    ensures { OnOk result (text.new ≡ text.old ++ digits_of bytes.now) }
{
    for b in bytes {
        text.push(spelled(*b / 16))?;
        text.push(spelled(*b % 16))?;
    }
    Ok(())
}

/// The sum of bytes.
fn sum_of(bytes: &[u8]) -> u32
    requires { length bytes.now ≤ 260 }
    ensures value { result ≡ sum bytes.now }
    ensures small { result ≤ 255 * length bytes.now }
{
    let mut total = 0u32;
    for b in bytes {
        total += u32::from(*b);
    }
    total
}

/// Puts the digits of bytes and of others at the end of a text.
pub fn push_both(text: &mut Bytes, head: &[u8], rest: &[u8]) -> Result<(), NoMemory>
    ensures { OnOk result (text.new ≡ text.old ++ digits_of (head.now ++ rest.now)) }
{
    push_digits(text, head)?;
    push_digits(text, rest)?;
    Ok(())
}

/// The sum of bytes and of others.
pub fn sum_both(head: &[u8], rest: &[u8]) -> u32
    requires head { length head.now ≤ 10 }
    requires rest { length rest.now ≤ 250 }
    ensures value { result ≡ sum (head.now ++ rest.now) }
    ensures small { result ≤ 66300 }
{
    sum_of(head) + sum_of(rest)
}
