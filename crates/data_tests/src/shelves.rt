use flash_base::{Bytes, Files, Text};
use flash_shelf::{FolderShelf, MemoryShelf, MemorySink, Shelf, ShelfFault, Sink, StreamSink};
use std::io;
use std::io::Write;
use std::test::Fail;

/// A word for each answer of a read.
fn word(answer: &Result<Bytes, ShelfFault>) -> &'static str {
    match answer {
        Ok(_) => "ok",
        Err(ShelfFault::Missing) => "missing",
        Err(ShelfFault::TooLarge) => "too large",
        Err(ShelfFault::Failed) => "failed",
        Err(ShelfFault::NoMemory) => "no memory",
    }
}

#[test]
fn shelves(rt: HostRuntime) -> Result<(), Fail> {
    let alloc = rt.alloc();
    let mut files = Files::new(alloc);
    files.push((
        Text::from_str(alloc, "a.bin")?,
        Bytes::from_slice(alloc, b"abc")?,
    ))?;
    let mut shelf = MemoryShelf::new(alloc, &files, &[2])?;
    for (name, want) in [
        ("a.bin", "ok"),
        ("b.bin", "missing"),
        ("a.bin", "failed"),
        ("a.bin", "ok"),
    ] {
        assert_eq!(rt; word(&shelf.read(alloc, name)), want);
    }
    let mut folder = FolderShelf::new(rt, alloc, "/")?;
    for (name, want) in [("no such file", "missing"), (".", "failed")] {
        assert_eq!(rt; word(&folder.read(alloc, name)), want);
    }
    Ok(())
}

/// A writer that takes at most two bytes at once, and four in all.
#[derive(Drop)]
struct Narrow {
    taken: usize,
}

impl Write for Narrow {
    fn write(&mut self, buf: &[u8]) -> io::Result<usize> {
        let n = if self.taken < 4 { buf.len().min(2) } else { 0 };
        self.taken = self.taken.saturating_add(n);
        Ok(n)
    }

    fn flush(&mut self) -> io::Result<()> {
        Ok(())
    }
}

#[test]
fn sinks(rt: HostRuntime) -> Result<(), Fail> {
    let alloc = rt.alloc();
    let mut sink = MemorySink::new(alloc, &[1])?;
    assert!(rt; sink.write(b"ab").is_ok());
    assert!(rt; sink.write(b"cd").is_err());
    assert!(rt; sink.write(b"ef").is_ok());
    assert_eq!(rt; sink.written(), b"abef".as_slice());
    assert_eq!(rt; sink.starved(), 0);
    let mut stream = StreamSink::new(Narrow { taken: 0 });
    assert!(rt; stream.write(b"abc").is_ok());
    assert!(rt; stream.write(b"defg").is_err());
    Ok(())
}
