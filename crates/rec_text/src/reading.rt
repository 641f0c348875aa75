//! The lines of a text, one after another.
ghost use Rattle.std.specs.Prelude.{◌≡◌, ◌≤◌, ◌<◌, ◌-◌, ◌^◌, ℕ, List, Result, OnOk};
ghost use Rattle.rec_text.specs.Lines.{lines};
ghost use Rattle.rec_text.specs.Putting.{Does};
ghost use Rattle.rec_text.specs.Reading.{steps};
ghost use Rattle.rec_text.specs.declared.fault.RecFault.{RecFault};

use crate::fault::RecFault;
use crate::line::{SPELLED, first_line};

/// What the lines of a record text are put into.
pub trait LineReader {
    /// What a line with its number makes of it, or the line's refusal.
    ghost step: { Self → ℕ → List ℕ → Result Self RecFault };

    /// What holds of it after so many lines.
    ghost holds: { Self → ℕ → Type 0 };

    /// Takes line n, of which the first is 1. The buffer is for the bytes that the line spells.
    fn line(&mut self, n: usize, line: &[u8], buffer: &mut [u8; SPELLED]) -> Result<(), RecFault>
        requires some { 0 < n }
        requires few { n < 2 ^ 63 }
        requires holds { holds self.old (n - 1) }
        ensures step { Does result self.new (step self.old n line.now) }
        ensures holds { OnOk result (holds self.new n) };
}

/// Takes the lines of a text in order, up to the first that is refused.
pub fn read_lines<R: LineReader>(reader: &mut R, text: &[u8]) -> Result<(), RecFault>
    requires holds { R.holds reader.old 0 }
    ensures steps { Does result reader.new (steps R.step reader.old 0 (lines text.now)) }
{
    let mut buffer = [0u8; SPELLED];
    let mut at = 0;
    let mut n = 0;
    while at < text.len() {
        let (line, size) = first_line(&text[at..]);
        n += 1;
        reader.line(n, line, &mut buffer)?;
        at += size;
    }
    Ok(())
}
