ghost use Rattle.std.specs.Prelude.{◌≡◌, ◌+◌, ◌≤◌, ◌<◌, ◌^◌, IfOk, slice_index, true, length, take};
ghost use Rattle.srec_rec.specs.Record.{record_of, width, number_at, size_of, is_count, is_record, filled};

use rec_text::{RecFault, SPELLED, parse};

/// The kind of line n, and how many bytes it spells, which stand at the front of `out`.
pub(crate) fn record(
    n: usize,
    line: &[u8],
    out: &mut [u8; SPELLED],
) -> Result<(u8, usize), RecFault>
    ensures bytes { record_of n line.now ≡ filled out.new result }
    ensures within { IfOk result (λ r. r.1 ≤ 260) }
    ensures form { IfOk result (λ r. is_record r.0 (take r.1 out.new) ≡ true) }
    ensures size { IfOk result (λ r. r.1 ≡ slice_index out.new 0 + 1) }
{
    if line.len() < 2 {
        return Err(RecFault::BadLine { n });
    }
    if line[0] != b'S' {
        return Err(RecFault::BadLine { n });
    }
    if line[1] < b'0' {
        return Err(RecFault::BadLine { n });
    }
    let kind = line[1] - b'0';
    let Some((size, total)) = parse(&line[2..], out) else {
        return Err(RecFault::BadLine { n });
    };
    if !has_form(kind, &out[..size]) {
        return Err(RecFault::BadLine { n });
    }
    if total % 256 != 255 {
        return Err(RecFault::BadSum { n });
    }
    Ok((kind, size))
}

/// How many bytes the address of a kind of line has.
pub(crate) fn address_width(kind: u8) -> usize
    ensures value { result ≡ width kind }
    ensures small { result ≤ 4 }
{
    match kind {
        3 | 7 => 4,
        2 | 6 | 8 => 3,
        0 | 1 | 5 | 9 => 2,
        _ => 0,
    }
}

/// Whether a line of this kind, whose address has so many bytes, may have this count.
fn has_count(kind: u8, size: usize, count: usize) -> bool
    requires { size ≤ 4 }
    ensures { result ≡ is_count kind size count }
{
    if kind <= 3 {
        size + 1 <= count
    } else {
        count == size + 1
    }
}

/// The number behind the count of a line.
pub(crate) fn number(size: usize, bytes: &[u8]) -> u64
    requires size { size ≤ 4 }
    requires within { 4 ≤ length bytes.now × size < length bytes.now }
    ensures value { result ≡ number_at size bytes.now }
    ensures small { result < 2 ^ 32 }
{
    let two = u64::from(bytes[1]) * 256 + u64::from(bytes[2]);
    match size {
        4 => (two * 256 + u64::from(bytes[3])) * 256 + u64::from(bytes[4]),
        3 => two * 256 + u64::from(bytes[3]),
        _ => two,
    }
}

/// Whether bytes are a line of this kind.
fn has_form(kind: u8, bytes: &[u8]) -> bool
    ensures { result ≡ is_record kind bytes.now }
{
    if bytes.is_empty() {
        return false;
    }
    let count = bytes[0] as usize;
    if bytes.len() != count + 1 {
        return false;
    }
    let size = address_width(kind);
    if size < 2 {
        return false;
    }
    if !has_count(kind, size, count) {
        return false;
    }
    let data = (count - (size + 1)) as u64;
    number(size, bytes) + data <= 0x1_0000_0000
}
