ghost use Rattle.std.specs.Prelude.{◌≡◌};

use crate::sink::{Sink, SinkFault};
use std::io::Write;
use std::marker::Model;

/// A sink over a writer of the system. It tells nothing. Contracts see it as its count of faults.
#[derive(Drop)]
pub struct StreamSink<W> {
    inner: W,
    faults: u64,
}

impl<W> Model for StreamSink<W> {
    ghost use Rattle.std.specs.Prelude.{ℕ};

    ghost Value = { ℕ };

    ghost view = { λ s. s.faults };
}

impl<W> StreamSink<W> {
    /// A sink over any writer; nothing has failed so far.
    pub fn new(inner: W) -> StreamSink<W>
        ensures { result ≡ 0 }
    {
        StreamSink { inner, faults: 0 }
    }
}

impl<W: Write> Sink for StreamSink<W> {
    ghost use Rattle.std.specs.Prelude.{false, []};

    ghost tells = { false };

    ghost history = { λ s. record { written = []; faults = s } };

    fn write(&mut self, bytes: &[u8]) -> Result<(), SinkFault> {
        if put_all(&mut self.inner, bytes) {
            return Ok(());
        }
        self.faults = self.faults.saturating_add(1);
        Err(SinkFault)
    }
}

/// Writes piece after piece. False where a write failed or took nothing.
fn put_all<W: Write>(inner: &mut W, bytes: &[u8]) -> bool {
    let mut rest = bytes;
    while !rest.is_empty() {
        match inner.write(rest) {
            Ok(0) => return false,
            Ok(n) => rest = &rest[n..],
            Err(_) => return false,
        }
    }
    inner.flush().is_ok()
}
