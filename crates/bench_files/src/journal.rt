//! The journal: who may write it, and its bytes.
ghost use Rattle.std.specs.Prelude.{◌≡◌};

use crate::files::{BenchFiles, Lock};
use crate::folder::{file_to_write, known_by, sync_folder};
use std::fs::{File, TryLockError};
use std::os::unix::fs::FileExt;
use std::rt::Files as FileSystem;

impl<R: FileSystem<File = File>> BenchFiles<R> {
    ghost use Rattle.std.specs.Prelude.{◌≡◌, IsTrue};
    ghost use Rattle.std.specs.Bool.{OnTrue};
    ghost use Rattle.bench_files.specs.State.{IsSynced};

    /// Asks for the lock on the journal, which is made where it is not there.
    fn asked(&mut self) -> Lock
        ensures { self.new ≡ self.old }
    {
        if known_by(&self.rt, self.places.journal.as_str()).is_err() {
            return Lock::Refused;
        }
        let Ok(file) = file_to_write(&self.rt, self.places.journal.as_str()) else {
            return Lock::Refused;
        };
        match file.try_lock() {
            Ok(()) => {}
            Err(TryLockError::WouldBlock) => return Lock::Theirs,
            Err(TryLockError::Error(_)) => return Lock::Refused,
        }
        if sync_folder(&self.rt, self.places.folder.as_str()).is_err() {
            return Lock::Refused;
        }
        if !self.is_as_read() {
            return Lock::Changed;
        }
        self.journal = Some(file);
        Lock::Ours
    }

    /// Whether the vehicle's files are those that were read.
    fn is_as_read(&self) -> bool {
        let Ok(vehicle) = known_by(&self.rt, self.places.vehicle.as_str()) else {
            return false;
        };
        let Ok(calls) = known_by(&self.rt, self.places.calls.as_str()) else {
            return false;
        };
        vehicle == self.vehicle_seen && calls == self.calls_seen
    }

    /// Takes the lock on the journal, if it can be had at once and the vehicle's files are those that were read. The
    /// system is asked once; the answer stays.
    pub fn hold(&mut self) -> bool
        ensures held { result ≡ self.new.held }
        ensures keeps { IsTrue self.old.held → self.new ≡ self.old }
        ensures others { self.new ≡ record self.old { held = result } }
    {
        if self.lock == Lock::Free {
            self.lock = self.asked();
        }
        self.held = self.held || self.lock == Lock::Ours;
        self.held
    }

    /// The length of the journal in bytes, 0 where it is not there.
    pub fn journal_len(&mut self) -> Option<u64>
        ensures { self.new ≡ self.old }
    {
        match known_by(&self.rt, self.places.journal.as_str()) {
            Ok(None) => Some(0),
            Ok(Some(known)) => Some(known.size()),
            Err(_) => None,
        }
    }

    /// Fills `out` with the bytes of the journal from this place on. It waits for nobody.
    pub fn read_journal(&mut self, at: u64, out: &mut [u8]) -> bool
        ensures { self.new ≡ self.old }
    {
        if out.is_empty() {
            return true;
        }
        if self.journal.is_none() {
            let Ok(file) = File::open(&self.rt, self.places.journal.as_str()) else {
                return false;
            };
            return file.read_exact_at(out, at).is_ok();
        }
        match &self.journal {
            Some(file) => file.read_exact_at(out, at).is_ok(),
            None => false,
        }
    }

    /// Puts bytes into the journal, behind the calls of the link.
    pub fn write_journal(&mut self, at: u64, bytes: &[u8]) -> bool
        ensures went { OnTrue result (IsSynced self.new) }
    {
        if !self.hold() || !self.keep_calls() {
            return false;
        }
        match &self.journal {
            Some(file) => file.write_all_at(bytes, at).is_ok(),
            None => false,
        }
    }

    /// Makes what the journal is outlast a loss of power, behind the calls of the link.
    pub fn sync_journal(&mut self) -> bool
        ensures went { OnTrue result (IsSynced self.new) }
    {
        let may = self.hold() && self.keep_calls();
        if !may {
            return false;
        }
        match &self.journal {
            Some(file) => file.sync_data().is_ok(),
            None => false,
        }
    }
}
