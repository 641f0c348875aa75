ghost use Rattle.std.specs.Prelude.{◌≡◌, ◌+◌, ◌*◌, ◌^◌, Some};
ghost use Rattle.text_forms.specs.Numbers.{hex_digit, decimal_digit, if_below, hex_text, decimal_text};

/// The value of a hexadecimal digit, in either case.
pub(crate) fn digit_of_hex(c: u8) -> Option<u8>
    ensures { result ≡ hex_digit c }
{
    match c {
        b'0'..=b'9' => Some(c - b'0'),
        b'A'..=b'F' => Some(c - b'A' + 10),
        b'a'..=b'f' => Some(c - b'a' + 10),
        _ => None,
    }
}

fn digit_of_decimal(c: u8) -> Option<u8>
    ensures { result ≡ decimal_digit c }
{
    match c {
        b'0'..=b'9' => Some(c - b'0'),
        _ => None,
    }
}

/// The number with one more digit, where it is below 2^64.
fn with_digit(number: u64, base: u8, digit: u8) -> Option<u64>
    ensures { result ≡ if_below (2 ^ 64) (Some (number * base + digit)) }
{
    number.checked_mul(base as u64)?.checked_add(digit as u64)
}

/// The number that 1 to 16 hexadecimal digits say, in either case, or None for any other text.
pub fn hex_number(text: &str) -> Option<u64>
    ensures { result ≡ hex_text text.now }
{
    if text.is_empty() || text.len() > 16 {
        return None;
    }
    let mut number = 0u64;
    for c in text.as_bytes() {
        let digit = digit_of_hex(*c)?;
        number = with_digit(number, 16, digit)?;
    }
    Some(number)
}

/// The number below 2^64 that one or more decimal digits say, or None for any other text.
pub fn decimal_number(text: &str) -> Option<u64>
    ensures { result ≡ decimal_text text.now }
{
    if text.is_empty() {
        return None;
    }
    let mut number = 0u64;
    for c in text.as_bytes() {
        let digit = digit_of_decimal(*c)?;
        number = with_digit(number, 10, digit)?;
    }
    Some(number)
}
