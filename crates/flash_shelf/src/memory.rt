ghost use Rattle.std.specs.Prelude.{◌≡◌, ◌⊎◌, ◌≤◌, [], IfOk};
ghost use Rattle.flash_shelf.specs.Outside.{CameFrom, WentTo};
ghost use Rattle.flash_shelf.specs.Memory.{after_read, file_in, IsReadAnswer, IsWriteAnswer};

use crate::shelf::{LIMIT, Shelf, ShelfFault};
use crate::sink::{Sink, SinkFault};
use flash_base::{Bytes, Files, NoMemory, Text};
use std::alloc::Global;
use std::marker::Model;

/// A shelf that holds its files, tells them, and fails at chosen calls.
#[derive(Debug, Drop)]
pub struct MemoryShelf {
    files: Files,
    failing: Vec<u64>,
    calls: u64,
    faults: u64,
}

impl Model for MemoryShelf {
    ghost use Rattle.flash_shelf.specs.States.{ShelfState};

    ghost Value = { ShelfState };

    ghost view = { λ s. record {
      files = s.files;
      failing = s.failing.items;
      calls = s.calls;
      faults = s.faults;
    } };
}

impl MemoryShelf {
    /// A shelf with these files, whose calls with the listed numbers fail and no others; the first
    /// call has number 0.
    pub fn new(alloc: Global, files: &Files, failing: &[u64]) -> Result<MemoryShelf, NoMemory>
        ensures { IfOk result (λ s. s ≡ record {
          files = files.now;
          failing = failing.now;
          calls = 0;
          faults = 0;
        }) }
    {
        let files = copied(alloc, files)?;
        let failing = Vec::from_slice(alloc, failing)?;
        Ok(MemoryShelf {
            files,
            failing,
            calls: 0,
            faults: 0,
        })
    }
}

impl Shelf for MemoryShelf {
    ghost use Rattle.std.specs.Prelude.{true};

    ghost tells = { true };

    ghost history = { λ s. record { contents = s.files; faults = s.faults } };

    fn read(&mut self, alloc: Global, name: &str) -> Result<Bytes, ShelfFault>
        ensures keeps { self.new.files ≡ self.old.files }
        ensures never_falls { self.old.faults ≤ self.new.faults }
        ensures came { CameFrom true self.old.files name.now self.old.faults self.new.faults result }
        ensures after { self.new ≡ after_read self.old }
        ensures answer { IsReadAnswer self.old name.now result }
    {
        let fails = self.failing.as_slice().contains(&self.calls);
        self.calls = self.calls.saturating_add(1);
        if fails {
            self.faults = self.faults.saturating_add(1);
            return Err(ShelfFault::Failed);
        }
        found(alloc, &self.files, name)
    }
}

/// A copy of the file with this name.
fn found(alloc: Global, files: &Files, name: &str) -> Result<Bytes, ShelfFault>
    ensures { (result ≡ Err ShelfFault.NoMemory) ⊎ (result ≡ file_in files.now name.now) }
{
    match files.find(name) {
        None => Err(ShelfFault::Missing),
        Some(bytes) => {
            if bytes.len() as u64 > LIMIT {
                return Err(ShelfFault::TooLarge);
            }
            Ok(Bytes::from_slice(alloc, bytes.as_slice())?)
        }
    }
}

/// The same pairs.
fn copied(alloc: Global, files: &Files) -> Result<Files, NoMemory>
    ensures { IfOk result (λ copy. copy ≡ files.now) }
{
    let mut copy = Files::new(alloc);
    for i in 0..files.len() {
        let pair = files.at(i);
        let name = Text::from_str(alloc, pair.0.as_str())?;
        let bytes = Bytes::from_slice(alloc, pair.1.as_slice())?;
        copy.push((name, bytes))?;
    }
    Ok(copy)
}

/// A sink that keeps what was written, tells it, and fails at chosen calls.
#[derive(Debug, Drop)]
pub struct MemorySink {
    written: Bytes,
    failing: Vec<u64>,
    calls: u64,
    faults: u64,
    starved: u64,
}

impl Model for MemorySink {
    ghost use Rattle.flash_shelf.specs.States.{SinkState};

    ghost Value = { SinkState };

    ghost view = { λ s. record {
      written = s.written;
      failing = s.failing.items;
      calls = s.calls;
      faults = s.faults;
      starved = s.starved;
    } };
}

impl MemorySink {
    /// An empty sink. A call fails exactly where its number is listed, the first having number 0,
    /// or where there was no memory, which the count `starved` tells.
    pub fn new(alloc: Global, failing: &[u64]) -> Result<MemorySink, NoMemory>
        ensures { IfOk result (λ s. s ≡ record {
          written = [];
          failing = failing.now;
          calls = 0;
          faults = 0;
          starved = 0;
        }) }
    {
        let failing = Vec::from_slice(alloc, failing)?;
        Ok(MemorySink {
            written: Bytes::new(alloc),
            failing,
            calls: 0,
            faults: 0,
            starved: 0,
        })
    }

    /// What was written so far.
    pub fn written(&self) -> &[u8]
        ensures { result.now ≡ self.now.written }
    {
        self.written.as_slice()
    }

    /// How many calls failed because there was no memory.
    pub fn starved(&self) -> u64
        ensures { result ≡ self.now.starved }
    {
        self.starved
    }
}

impl Sink for MemorySink {
    ghost use Rattle.std.specs.Prelude.{true};

    ghost tells = { true };

    ghost history = { λ s. record { written = s.written; faults = s.faults } };

    fn write(&mut self, bytes: &[u8]) -> Result<(), SinkFault>
        ensures never_falls { self.old.faults ≤ self.new.faults }
        ensures went { WentTo true self.old.written self.new.written bytes.now
            self.old.faults self.new.faults result }
        ensures answer { IsWriteAnswer self.old bytes.now self.new result }
    {
        let fails = self.failing.as_slice().contains(&self.calls);
        self.calls = self.calls.saturating_add(1);
        if fails {
            self.faults = self.faults.saturating_add(1);
            return Err(SinkFault);
        }
        match self.written.extend(bytes) {
            Ok(()) => Ok(()),
            Err(_) => {
                self.starved = self.starved.saturating_add(1);
                self.faults = self.faults.saturating_add(1);
                Err(SinkFault)
            }
        }
    }
}
