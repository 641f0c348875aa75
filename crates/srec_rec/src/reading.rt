ghost use Rattle.std.specs.Prelude.{◌≡◌, ℕ, List, Ok, ◌+◌, ◌^◌, ◌≤◌, ◌<◌, length, ◌⊎◌, Err, OnOk, true};
ghost use Rattle.srec_rec.specs.Record.{is_record};
ghost use Rattle.srec_rec.specs.Reading.{with_map, applied, step, reading_of};
ghost use Rattle.span_store.specs.ByteMap.{ByteMap};
ghost use Rattle.srec_rec.specs.SrecText.{IsSrecText};
ghost use Rattle.srec_rec.specs.Refusals.{IsRefused};
ghost use Rattle.rec_text.specs.Putting.{putting, Does};
ghost use Rattle.rec_text.specs.declared.fault.RecFault.{RecFault};

use crate::line::{address_width, number, record};
use rec_text::{Filling, LineReader, RecFault, SPELLED, read_lines};
use span_store::Spans;
use std::alloc::Global;

/// What the lines so far gave.
#[derive(Debug, Drop)]
pub struct State {
    pub count: u64,
    pub ended: bool,
    pub spans: Filling,
}

/// What one record does.
fn apply(state: &mut State, kind: u8, bytes: &[u8]) -> Result<(), RecFault>
    requires form { is_record kind bytes.now ≡ true }
    requires count { state.old.count < 2 ^ 63 }
    ensures applied { Does result state.new (applied state.old (kind, bytes.now)) }
    ensures count { OnOk result (state.new.count ≤ state.old.count + 1) }
{
    if kind == 0 {
        return Ok(());
    }
    let size = address_width(kind);
    let value = number(size, bytes);
    if kind <= 3 {
        let count = bytes[0] as usize;
        return add(state, value, &bytes[size + 1..count]);
    }
    if kind <= 6 {
        if value != state.count {
            return Err(RecFault::BadCount {
                said: value,
                seen: state.count,
            });
        }
        return Ok(());
    }
    state.ended = true;
    Ok(())
}

/// One data record more.
fn add(state: &mut State, at: u64, bytes: &[u8]) -> Result<(), RecFault>
    requires within { at + length bytes.now ≤ 2 ^ 32 }
    requires count { state.old.count < 2 ^ 63 }
    ensures added { Does result state.new (with_map state.old (putting state.old.spans at bytes.now)) }
    ensures count { OnOk result (state.new.count ≤ state.old.count + 1) }
{
    state.spans.put(at, bytes)?;
    state.count += 1;
    Ok(())
}

/// What line n does.
fn next(
    state: &mut State,
    n: usize,
    line: &[u8],
    buffer: &mut [u8; SPELLED],
) -> Result<(), RecFault>
    requires count { state.old.count < 2 ^ 63 }
    ensures step { Does result state.new (step state.old n line.now) }
    ensures count { OnOk result (state.new.count ≤ state.old.count + 1) }
{
    if line.is_empty() {
        return Ok(());
    }
    if state.ended {
        return Err(RecFault::AfterEnd { n });
    }
    let (kind, size) = record(n, line, buffer)?;
    apply(state, kind, &buffer[..size])
}

impl LineReader for State {
    ghost use Rattle.std.specs.Prelude.{◌≤◌};
    ghost use Rattle.srec_rec.specs.Reading as reading;

    ghost step = { λ s n line. reading.step s n line };

    ghost holds = { λ s n. s.count ≤ n };

    fn line(&mut self, n: usize, line: &[u8], buffer: &mut [u8; SPELLED]) -> Result<(), RecFault> {
        next(self, n, line, buffer)
    }
}

/// The bytes of a text of S-records.
///
/// Lines end with LF or CR LF; empty ones are skipped. The first line with a refusal decides.
/// The address limit of the format is 2^32. Data and end records of different widths may be mixed.
pub fn read(alloc: Global, text: &[u8]) -> Result<Spans, RecFault>
    ensures { (result ≡ Err RecFault.NoMemory) ⊎ (result ≡ reading_of text.now) }
{
    let mut state = State {
        count: 0,
        ended: false,
        spans: Filling::new(alloc),
    };
    read_lines(&mut state, text)?;
    if state.ended {
        state.spans.finish()
    } else {
        Err(RecFault::NoEnd)
    }
}

/// A text is read exactly where it is records, one end, and nothing behind it, its count records say
/// the number of data records before them, and its map is the union of what its data records give. It is
/// refused exactly by the first line that is wrong, for what is wrong with it, or for want of an end.
pub fn text_law()
    ensures read { (text : List ℕ) (m : ByteMap) → reading_of text ≡ Ok m → IsSrecText text m }
    ensures is { (text : List ℕ) (m : ByteMap) → IsSrecText text m → reading_of text ≡ Ok m }
    ensures refused { (text : List ℕ) (e : RecFault) → reading_of text ≡ Err e → IsRefused text e }
    ensures refuses { (text : List ℕ) (e : RecFault) → IsRefused text e → reading_of text ≡ Err e }
{}
