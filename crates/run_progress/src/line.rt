use std::fmt;
use std::fmt::{Display, Formatter, Write};

/// Bytes as MiB, with one digit behind the point.
#[derive(Clone, Copy)]
struct Mebibytes(u64);

impl Display for Mebibytes {
    fn fmt<W: Write>(&self, f: &mut Formatter<W>) -> fmt::Result {
        let tenths = (self.0 / 1024).saturating_mul(10) / 1024;
        write!(f, "{}.{}", tenths / 10, tenths % 10)
    }
}

/// How far a run has come.
#[derive(Clone, Copy, Debug, PartialEq, Eq)]
pub struct Line {
    /// How many units have come to their ends.
    pub ended: u64,
    /// How many units there are.
    pub units: u64,
    /// How many bytes of the units' segments were accepted.
    pub reached: u64,
    /// How many bytes the segments of all units have.
    pub bytes: u64,
    /// Milliseconds since the run began.
    pub elapsed: u64,
}

impl Line {
    /// Bytes a second since the beginning.
    pub fn rate(&self) -> u64 {
        if self.elapsed == 0 {
            return 0;
        }
        self.reached.saturating_mul(1000) / self.elapsed
    }

    /// How many seconds the rest takes at this rate, if anything was reached.
    pub fn left(&self) -> Option<u64> {
        let rate = self.rate();
        if rate == 0 {
            return None;
        }
        Some(self.bytes.saturating_sub(self.reached) / rate)
    }
}

/// Units and bytes of all, the rate, and the time that is left.
impl Display for Line {
    fn fmt<W: Write>(&self, f: &mut Formatter<W>) -> fmt::Result {
        write!(f, "{} of {} units, ", self.ended, self.units)?;
        write!(f, "{} of ", Mebibytes(self.reached))?;
        write!(f, "{} MiB, ", Mebibytes(self.bytes))?;
        write!(f, "{} MiB/s", Mebibytes(self.rate()))?;
        match self.left() {
            Some(left) => write!(f, ", {}:{:02} left", left / 60, left % 60),
            None => Ok(()),
        }
    }
}
