ghost use Rattle.std.specs.Prelude.{◌≡◌, ℕ, List, ◌+◌, ◌-◌, ◌*◌, ◌≤◌, ◌<◌, take, drop, length, sum, MatchOption, Some, ◌∷◌};
ghost use Rattle.rec_text.specs.Digits.{bytes_of};
ghost use Rattle.rec_text.specs.Lines.{lines, without_return};

use crate::digit_table::pair;
use crate::lanes::by_lanes;
use memchr::memchr;

/// The most bytes that a line of either format spells.
pub const SPELLED: usize = 260;

/// The bytes that pairs of digits spell, at the front of `out`: how many, and their sum.
pub fn parse(digits: &[u8], out: &mut [u8; SPELLED]) -> Option<(usize, u32)>
    ensures { MatchOption result ((bytes : List ℕ) → bytes_of digits.now ≡ Some bytes → 260 < length bytes)
        (λ p. (bytes_of digits.now ≡ Some (take p.0 out.new)) × (p.0 ≤ 260) × (p.1 ≡ sum (take p.0 out.new))
        × (length digits.now ≡ 2 * p.0)) }
{
    let size = digits.len() / 2;
    if digits.len() % 2 != 0 {
        return None;
    }
    if size > SPELLED {
        return None;
    }
    let (done, sum) = by_lanes(digits, out);
    let mut total = sum;
    for k in done..size {
        let Some(byte) = pair(digits[2 * k], digits[2 * k + 1]) else {
            return None;
        };
        total += u32::from(byte);
        out[k] = byte;
    }
    Some((size, total))
}

/// Without one carriage return at the end.
fn without_return(line: &[u8]) -> &[u8]
    ensures { result.now ≡ without_return line.now }
{
    let n = line.len();
    if n == 0 {
        return line;
    }
    if line[n - 1] == b'\r' {
        return &line[..n - 1];
    }
    line
}

/// The first line, and how many bytes it takes with its end.
pub fn first_line(text: &[u8]) -> (&[u8], usize)
    requires { 0 < length text.now }
    ensures lines { lines text.now ≡ result.0.now ∷ lines (drop result.1 text.now) }
    ensures within { (0 < result.1) × (result.1 ≤ length text.now) }
{
    match memchr(b'\n', text) {
        Some(i) => (without_return(&text[..i]), i + 1),
        None => (text, text.len()),
    }
}
