ghost use Rattle.std.specs.Prelude.{◌≡◌, ℕ, List, Some, Ok, ◌+◌, ◌-◌, ◌/◌, ◌%◌, ◌^◌, ◌≤◌, ◌<◌, ◌++◌, ◌∷◌, [], length, All, OnOk, IfOk};
ghost use Rattle.std.specs.FinMap as map;
ghost use Rattle.span_store.specs.ByteMap.{ByteMap};
ghost use Rattle.rec_text.specs.Cutting.{IsLow};
ghost use Rattle.srec_rec.specs.SrecText.{IsSrecText};
ghost use Rattle.srec_rec.specs.Reading.{reading_of};
ghost use Rattle.srec_rec.specs.Writing.{line_of, checksum, IsWritten};

use flash_base::{Bytes, NoMemory};
use rec_text::{DATA, cut_front, next_in, push_both, push_digits, sum_both};
use span_store::Spans;
use std::alloc::Global;

/// The checksum of a line's bytes.
fn checksum_of(head: &[u8], rest: &[u8]) -> u8
    requires head { length head.now ≤ 10 }
    requires rest { length rest.now ≤ 250 }
    ensures { result ≡ checksum (head.now ++ rest.now) }
{
    (255 - sum_both(head, rest) % 256) as u8
}

/// Puts one line at the end of a text.
fn push_line(text: &mut Bytes, kind: u8, head: &[u8], rest: &[u8]) -> Result<(), NoMemory>
    requires head { length head.now ≤ 10 }
    requires rest { length rest.now ≤ 250 }
    requires kind { kind < 10 }
    ensures { OnOk result (text.new ≡ text.old ++ line_of kind (head.now ++ rest.now)) }
{
    text.push(b'S')?;
    text.push(b'0' + kind)?;
    push_both(text, head, rest)?;
    push_digits(text, &[checksum_of(head, rest)])?;
    text.push(b'\n')
}

/// Puts a data line at the end of a text.
fn push_data(text: &mut Bytes, at: u64, bytes: &[u8]) -> Result<(), NoMemory>
    requires size { length bytes.now ≤ 16 }
    requires below { at < 2 ^ 32 }
    ensures pushed { OnOk result (text.new ≡ text.old ++ line_of 3
        ((length bytes.now + 5) ∷ at / 16777216 ∷ at / 65536 % 256 ∷ at / 256 % 256 ∷ at % 256 ∷ bytes.now)) }
    ensures small { All (λ b. b < 2 ^ 8) bytes.now }
{
    let head = [
        (bytes.len() + 5) as u8,
        (at / 0x100_0000) as u8,
        (at / 0x1_0000 % 256) as u8,
        (at / 256 % 256) as u8,
        (at % 256) as u8,
    ];
    push_line(text, 3, &head, bytes)
}

/// The S-records of bytes.
///
/// A header without text, S3 lines of at most 16 bytes for each maximal run in ascending order, and an
/// S7 line; upper case, LF. The format has no address from 2^32 on: `spans.piece(1 << 32)` says whether a
/// map has one.
pub fn write(alloc: Global, spans: &Spans) -> Result<Bytes, NoMemory>
    requires { IsLow spans.now }
    ensures written { IfOk result (λ text. IsWritten spans.now text) }
    ensures read_back { IfOk result (λ text. reading_of text ≡ Ok spans.now) }
    ensures whole { IfOk result (λ text. IsSrecText text spans.now) }
{
    let mut text = Bytes::new(alloc);
    push_line(&mut text, 0, &[3, 0, 0], &[])?;
    let mut line = [0u8; DATA];
    let mut here = 0;
    while let Some(at) = next_in(spans, here) {
        let n = cut_front(spans, at, 0x1_0000_0000 - at, &mut line);
        push_data(&mut text, at, &line[..n])?;
        here = at + n as u64;
    }
    push_line(&mut text, 7, &[5, 0, 0, 0, 0], &[])?;
    Ok(text)
}

/// A map has one text, and reading that text gives the map.
pub fn writing_law()
    ensures one { (m : ByteMap) (s t : List ℕ) → IsWritten m s → IsWritten m t → s ≡ t }
    ensures read { (m : ByteMap) (text : List ℕ) → ((a b : ℕ) → map.get m a ≡ Some b → b < 256)
        → IsWritten m text → reading_of text ≡ Ok m }
{}
