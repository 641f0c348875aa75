ghost use Rattle.std.specs.Prelude.{◌≡◌, ◌+◌, ◌≤◌, IfOk, slice_index, true};
ghost use Rattle.hex_rec.specs.Record.{record_of, is_kind, filled};

use rec_text::{RecFault, SPELLED, parse};

/// The bytes of line n, at the front of `out`, and how many there are.
pub(crate) fn record(n: usize, line: &[u8], out: &mut [u8; SPELLED]) -> Result<usize, RecFault>
    ensures bytes { record_of n line.now ≡ filled out.new result }
    ensures within { IfOk result (λ k. k ≤ 260) }
    ensures size { IfOk result (λ k. k ≡ slice_index out.new 0 + 5) }
    ensures kind { IfOk result (λ k. is_kind (slice_index out.new 3) (slice_index out.new 0) ≡ true) }
{
    let Some((colon, digits)) = line.split_first() else {
        return Err(RecFault::BadLine { n });
    };
    if *colon != b':' {
        return Err(RecFault::BadLine { n });
    }
    let Some((size, total)) = parse(digits, out) else {
        return Err(RecFault::BadLine { n });
    };
    if size < 5 {
        return Err(RecFault::BadLine { n });
    }
    let count = out[0] as usize;
    if size != count + 5 {
        return Err(RecFault::BadLine { n });
    }
    if !has_count(out[3], count) {
        return Err(RecFault::BadLine { n });
    }
    if total % 256 != 0 {
        return Err(RecFault::BadSum { n });
    }
    Ok(size)
}

/// Whether a kind of line has this count.
fn has_count(kind: u8, count: usize) -> bool
    ensures { result ≡ is_kind kind count }
{
    match kind {
        0 => true,
        1 => count == 0,
        2 | 4 => count == 2,
        3 | 5 => count == 4,
        _ => false,
    }
}
