ghost use Rattle.std.specs.Prelude.{◌≡◌, ℕ, ◌+◌, ◌-◌, ◌^◌, ◌≤◌, ◌<◌, take, drop, length, ◌⊎◌, Ok, Err, IfOk, slice_index, true, List};
ghost use Rattle.hex_rec.specs.Base.{IsBase};
ghost use Rattle.span_store.specs.ByteMap.{ByteMap};
ghost use Rattle.hex_rec.specs.HexText.{IsHexText};
ghost use Rattle.hex_rec.specs.Refusals.{IsRefused};
ghost use Rattle.hex_rec.specs.Record.{is_kind};
ghost use Rattle.rec_text.specs.Putting.{Does};
ghost use Rattle.hex_rec.specs.Reading.{put_line, applied, step, reading_of};
ghost use Rattle.rec_text.specs.declared.fault.RecFault.{RecFault};

use crate::base::Base;
use crate::line::record;
use rec_text::{Filling, LineReader, RecFault, SPELLED, put_in, read_lines};
use span_store::Spans;
use std::alloc::Global;

/// What the lines so far gave.
#[derive(Debug, Drop)]
pub struct State {
    pub base: Base,
    pub ended: bool,
    pub spans: Filling,
}

/// Puts the bytes of one line.
fn put_data(spans: &mut Filling, base: Base, offset: u64, bytes: &[u8]) -> Result<(), RecFault>
    requires offset { offset < 2 ^ 16 }
    requires size { length bytes.now < 2 ^ 8 }
    requires base { IsBase base }
    ensures { Does result spans.new (put_line spans.old base offset bytes.now) }
{
    match base {
        Base::Linear(base) => {
            let first = (base + offset) % 0x1_0000_0000;
            put_in(spans, 0, first, 0x1_0000_0000 - first, bytes)
        }
        Base::Segment(base) => put_in(spans, base, base + offset, 0x1_0000 - offset, bytes),
    }
}

/// What one record does.
fn apply(state: &mut State, bytes: &[u8]) -> Result<(), RecFault>
    requires length { length bytes.now ≡ slice_index bytes.now 0 + 5 }
    requires kind { is_kind (slice_index bytes.now 3) (slice_index bytes.now 0) ≡ true }
    requires base { IsBase state.old.base }
    ensures applied { Does result state.new (applied state.old bytes.now) }
    ensures base { IsBase state.new.base }
{
    let count = bytes[0] as usize;
    match bytes[3] {
        0 => {
            let offset = u64::from(bytes[1]) * 256 + u64::from(bytes[2]);
            put_data(&mut state.spans, state.base, offset, &bytes[4..4 + count])?;
        }
        1 => state.ended = true,
        2 => {
            let value = u64::from(bytes[4]) * 256 + u64::from(bytes[5]);
            state.base = Base::Segment(value * 16);
        }
        4 => {
            let value = u64::from(bytes[4]) * 256 + u64::from(bytes[5]);
            state.base = Base::Linear(value * 65536);
        }
        _ => {}
    }
    Ok(())
}

/// What line n does.
fn next(
    state: &mut State,
    n: usize,
    line: &[u8],
    buffer: &mut [u8; SPELLED],
) -> Result<(), RecFault>
    requires base { IsBase state.old.base }
    ensures step { Does result state.new (step state.old n line.now) }
    ensures base { IsBase state.new.base }
{
    if line.is_empty() {
        return Ok(());
    }
    if state.ended {
        return Err(RecFault::AfterEnd { n });
    }
    let size = record(n, line, buffer)?;
    apply(state, &buffer[..size])
}

impl LineReader for State {
    ghost use Rattle.hex_rec.specs.Base.{IsBase};
    ghost use Rattle.hex_rec.specs.Reading as reading;

    ghost step = { λ s n line. reading.step s n line };

    ghost holds = { λ s _. IsBase s.base };

    fn line(&mut self, n: usize, line: &[u8], buffer: &mut [u8; SPELLED]) -> Result<(), RecFault> {
        next(self, n, line, buffer)
    }
}

/// The bytes of an Intel HEX text.
///
/// Lines end with LF or CR LF; empty ones are skipped. The first line with a refusal decides.
/// The address limit of the format is 2^32: addresses of a kind 04 base carry and go round there,
/// offsets of a kind 02 base go round within 64 KiB.
pub fn read(alloc: Global, text: &[u8]) -> Result<Spans, RecFault>
    ensures { (result ≡ Err RecFault.NoMemory) ⊎ (result ≡ reading_of text.now) }
{
    let mut state = State {
        base: Base::Linear(0),
        ended: false,
        spans: Filling::new(alloc),
    };
    read_lines(&mut state, text)?;
    if state.ended {
        state.spans.finish()
    } else {
        Err(RecFault::NoEnd)
    }
}

/// A text is read exactly where it is records, one end, and nothing behind it, and its map is the
/// union of what its data lines give. It is refused exactly by the first line that is wrong, for what is
/// wrong with it, or for want of an end.
pub fn text_law()
    ensures read { (text : List ℕ) (m : ByteMap) → reading_of text ≡ Ok m → IsHexText text m }
    ensures is { (text : List ℕ) (m : ByteMap) → IsHexText text m → reading_of text ≡ Ok m }
    ensures refused { (text : List ℕ) (e : RecFault) → reading_of text ≡ Err e → IsRefused text e }
    ensures refuses { (text : List ℕ) (e : RecFault) → IsRefused text e → reading_of text ≡ Err e }
{}
