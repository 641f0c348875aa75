ghost use Rattle.std.specs.Prelude.{◌≡◌, ℕ, List, Some, Ok, ◌+◌, ◌/◌, ◌%◌, ◌^◌, ◌≤◌, ◌<◌, ◌++◌, ◌∷◌, [], length, nat_eq, if◌then◌else◌, All, OnOk, IfOk};
ghost use Rattle.std.specs.FinMap as map;
ghost use Rattle.span_store.specs.ByteMap.{ByteMap};
ghost use Rattle.rec_text.specs.Cutting.{IsLow};
ghost use Rattle.hex_rec.specs.HexText.{IsHexText};
ghost use Rattle.hex_rec.specs.Reading.{reading_of};
ghost use Rattle.hex_rec.specs.Writing.{line_of, checksum, IsWritten};

use flash_base::{Bytes, NoMemory};
use rec_text::{DATA, cut_front, next_in, push_both, push_digits, sum_both};
use span_store::Spans;
use std::alloc::Global;

/// The checksum of a line's bytes.
fn checksum_of(head: &[u8], rest: &[u8]) -> u8
    requires head { length head.now ≤ 10 }
    requires rest { length rest.now ≤ 250 }
    ensures { result ≡ checksum (head.now ++ rest.now) }
{
    ((256 - sum_both(head, rest) % 256) % 256) as u8
}

/// Puts one line at the end of a text.
fn push_line(text: &mut Bytes, head: &[u8], rest: &[u8]) -> Result<(), NoMemory>
    requires head { length head.now ≤ 10 }
    requires rest { length rest.now ≤ 250 }
    ensures { OnOk result (text.new ≡ text.old ++ line_of (head.now ++ rest.now)) }
{
    text.push(b':')?;
    push_both(text, head, rest)?;
    push_digits(text, &[checksum_of(head, rest)])?;
    text.push(b'\n')
}

/// Puts the base line of an address at the end of a text, where the last upper bits are others.
fn push_base(text: &mut Bytes, at: u64, upper: u64) -> Result<(), NoMemory>
    requires { at < 2 ^ 32 }
    ensures { OnOk result (text.new ≡ text.old
        ++ (if nat_eq (at / 65536) upper then []
        else line_of (2 ∷ 0 ∷ 0 ∷ 4 ∷ at / 65536 / 256 ∷ at / 65536 % 256 ∷ []))) }
{
    let needed = at / 65536;
    if needed == upper {
        return Ok(());
    }
    push_line(
        text,
        &[2, 0, 0, 4],
        &[(needed / 256) as u8, (needed % 256) as u8],
    )
}

/// Puts a data line at the end of a text.
fn push_data(text: &mut Bytes, at: u64, bytes: &[u8]) -> Result<(), NoMemory>
    requires { length bytes.now ≤ 16 }
    ensures pushed { OnOk result (text.new ≡ text.old ++ line_of
        (length bytes.now ∷ at % 65536 / 256 ∷ at % 256 ∷ 0 ∷ bytes.now)) }
    ensures small { All (λ b. b < 2 ^ 8) bytes.now }
{
    let head = [
        bytes.len() as u8,
        (at % 65536 / 256) as u8,
        (at % 256) as u8,
        0,
    ];
    push_line(text, &head, bytes)
}

/// The Intel HEX text of bytes.
///
/// Maximal runs ascending, in lines of at most 16 bytes that do not cross a multiple of 65536; a kind 04
/// line before a data line whose upper 16 bits are others than the last ones, 0 at first; upper case, LF.
/// The format has no address from 2^32 on: `spans.piece(1 << 32)` says whether a map has one.
pub fn write(alloc: Global, spans: &Spans) -> Result<Bytes, NoMemory>
    requires { IsLow spans.now }
    ensures written { IfOk result (λ text. IsWritten spans.now text) }
    ensures read_back { IfOk result (λ text. reading_of text ≡ Ok spans.now) }
    ensures whole { IfOk result (λ text. IsHexText text spans.now) }
{
    let mut text = Bytes::new(alloc);
    let mut line = [0u8; DATA];
    let mut here = 0;
    let mut upper = 0;
    while let Some(at) = next_in(spans, here) {
        let n = cut_front(spans, at, 0x1_0000 - at % 0x1_0000, &mut line);
        push_base(&mut text, at, upper)?;
        push_data(&mut text, at, &line[..n])?;
        upper = at / 0x1_0000;
        here = at + n as u64;
    }
    push_line(&mut text, &[0, 0, 0, 1], &[])?;
    Ok(text)
}

/// A map has one text, and reading that text gives the map.
pub fn writing_law()
    ensures one { (m : ByteMap) (s t : List ℕ) → IsWritten m s → IsWritten m t → s ≡ t }
    ensures read { (m : ByteMap) (text : List ℕ) → ((a b : ℕ) → map.get m a ≡ Some b → b < 256)
        → IsWritten m text → reading_of text ≡ Ok m }
{}
