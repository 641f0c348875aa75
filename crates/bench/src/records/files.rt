//! Texts that lie in files.
use rec_text::RecFault;
use span_store::Spans;
use std::alloc::Global;
use std::io::Write;
use std::time::Instant;
use std::{fs, io};

/// Reads a text of either format.
pub(crate) fn read(alloc: Global, text: &[u8]) -> Result<Spans, RecFault> {
    match text.first() {
        Some(b'S') => srec_rec::read(alloc, text),
        _ => hex_rec::read(alloc, text),
    }
}

/// Writes the bytes in ascending order, without the gaps.
fn write_pieces(rt: &HostRuntime, path: &str, spans: &Spans) -> io::Result<()> {
    let mut file = fs::File::create(rt, path)?;
    let mut here = 0;
    for _ in 0..u64::MAX {
        let Some((at, bytes)) = spans.piece(here) else {
            return Ok(());
        };
        file.write_all(bytes)?;
        here = at + bytes.len() as u64;
    }
    Ok(())
}

/// Reads the text of a file, and prints the microseconds or why it was refused.
fn read_file(rt: &HostRuntime, path: &str) -> io::Result<Option<Spans>> {
    let text = fs::read(rt, path)?;
    let start = Instant::now(rt)?;
    let read = read(rt.alloc(), text.as_slice());
    let took = start.elapsed(rt)?.as_micros();
    match read {
        Ok(spans) => {
            println!(rt; "read in {took} us")?;
            Ok(Some(spans))
        }
        Err(e) => {
            println!(rt; "refused {e:?}")?;
            Ok(None)
        }
    }
}

/// Writes the bytes of a text to `out.bin`.
pub(crate) fn to_binary(rt: &HostRuntime, path: &str) -> io::Result<()> {
    let Some(spans) = read_file(rt, path)? else {
        return Ok(());
    };
    write_pieces(rt, "out.bin", &spans)
}

/// Writes the bytes of a text in both formats to `out.hex` and `out.srec`, and prints the microseconds
/// of making them.
pub(crate) fn to_texts(rt: &HostRuntime, path: &str) -> io::Result<()> {
    let Some(spans) = read_file(rt, path)? else {
        return Ok(());
    };
    let None = spans.piece(0x1_0000_0000) else {
        return Ok(());
    };
    let start = Instant::now(rt)?;
    let hex = hex_rec::write(rt.alloc(), &spans);
    let srec = srec_rec::write(rt.alloc(), &spans);
    let took = start.elapsed(rt)?.as_micros();
    println!(rt; "both written in {took} us")?;
    if let Ok(text) = hex {
        fs::write(rt, "out.hex", text.as_slice())?;
    }
    if let Ok(text) = srec {
        fs::write(rt, "out.srec", text.as_slice())?;
    }
    Ok(())
}
