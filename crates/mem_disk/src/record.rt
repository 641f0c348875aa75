ghost use Rattle.std.specs.Prelude.{◌≡◌};
ghost use Rattle.mem_disk.specs.Made.{said_bytes};

use std::snapshot::Snapshot;

/// Bytes that a call was given, as contracts see them: it holds none.
#[derive(Drop)]
pub enum Said {
    Nothing,
    More(Snapshot<u8>, Snapshot<Said>),
}

/// A call, with what it was given.
#[derive(Drop)]
pub enum Made {
    Len,
    ReadAt(u64, u64),
    WriteAt(u64, Said),
    Sync,
    Send(Said),
    Receive,
    Redial,
}

/// The calls so far, the last one first. It takes no memory.
#[derive(Drop)]
pub enum Calls {
    Start,
    Then(Snapshot<Made>, Snapshot<Calls>),
}

/// What a call did to the disk.
#[derive(Drop)]
pub enum Done {
    /// Bytes and ranges stay.
    Kept,
    /// These bytes were put at this place.
    Wrote(u64, Vec<u8>),
    /// A write of so many bytes at this place failed: its range is listed, the bytes stay.
    Missed(u64, u64),
    /// What a read gives is what a crash leaves.
    Synced,
}

/// These bytes, as contracts see them.
pub fn seen(bytes: &[u8]) -> Said
    ensures { said_bytes result ≡ bytes.now }
{
    let mut chain = Said::Nothing;
    let n = bytes.len();
    for i in 0..n {
        let before = Snapshot::of(&chain);
        chain = Said::More(Snapshot::of(&bytes[n - 1 - i]), before);
    }
    chain
}
