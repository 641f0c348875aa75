ghost use Rattle.std.specs.Prelude.{◌≡◌, ℕ, ◌+◌, ◌-◌, ◌^◌, ◌≤◌, ◌<◌, ◌++◌, length, take, min, IsSome, MatchOption, None};
ghost use Rattle.std.specs.FinMap as map;
ghost use Rattle.span_store.specs.ByteMap.{Holds};
ghost use Rattle.rec_text.specs.Cutting.{IsCut, IsLow};

use span_store::Spans;

/// The most data bytes of a line that is written.
pub const DATA: usize = 16;

/// The first address from one on that has a byte.
pub fn next_in(spans: &Spans, from: u64) -> Option<u64>
    requires { IsLow spans.now }
    ensures { MatchOption result ((a : ℕ) → from ≤ a → map.get spans.now a ≡ None)
        (λ at. (from ≤ at) × (at < 2 ^ 32) × IsSome (map.get spans.now at)
        × ((a : ℕ) → from ≤ a → a < at → map.get spans.now a ≡ None)) }
{
    match spans.piece(from) {
        Some((at, _)) => Some(at),
        None => None,
    }
}

/// The bytes from an address on, as far as one extent has them. None where the address has no byte.
fn bytes_from(spans: &Spans, at: u64) -> Option<&[u8]>
    requires { IsLow spans.now }
    ensures { MatchOption result (map.get spans.now at ≡ None)
        (λ bytes. (0 < length bytes.now) × (at + length bytes.now ≤ 2 ^ 32) × Holds spans.now at bytes.now) }
{
    match spans.piece(at) {
        Some((start, bytes)) if start == at => Some(bytes),
        _ => None,
    }
}

/// Copies bytes to a place of a line, at most up to the place `most`, and answers the place behind them.
fn copied(line: &mut [u8; DATA], at: usize, most: usize, bytes: &[u8]) -> usize
    requires from { at ≤ most }
    requires most { most ≤ 16 }
    ensures place { result ≡ at + min (length bytes.now) (most - at) }
    ensures copied { take result line.new ≡ take at line.old ++ take (result - at) bytes.now }
    ensures stored { length line.new ≡ length line.old }
{
    let n = bytes.len().min(most - at);
    line[at..at + n].copy_from_slice(&bytes[..n]);
    at + n
}

/// The bytes of one line, from an address on that has a byte: how many, at the front of `line`.
/// A line has bytes of at most `room` addresses.
pub fn cut_front(spans: &Spans, at: u64, room: u64, line: &mut [u8; DATA]) -> usize
    requires low { IsLow spans.now }
    requires room { 0 < room }
    requires below { at < 2 ^ 32 }
    requires first { IsSome (map.get spans.now at) }
    ensures small { result ≤ 16 }
    ensures within { at + result ≤ 2 ^ 32 }
    ensures size { length (take result line.new) ≡ result }
    ensures cut { IsCut room spans.now (at, take result line.new) }
    ensures holds { Holds spans.now at (take result line.new) }
{
    let most = room.min(16) as usize;
    let mut n = 0;
    while n < most {
        let Some(bytes) = bytes_from(spans, at + n as u64) else {
            return n;
        };
        n = copied(line, n, most, bytes);
    }
    n
}
