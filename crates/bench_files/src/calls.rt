//! The file of calls, to which each call of the link is added before it takes effect.
ghost use Rattle.std.specs.Prelude.{◌≡◌};

use crate::files::BenchFiles;
use crate::folder::{FileFault, file_to_write, sync_folder, whole};
use flash_base::Bytes;
use std::fs::File;
use std::io::Write;
use std::rt::Files as FileSystem;

/// The most bytes of a file of calls.
const MOST_CALLS: u64 = 1 << 40;

impl<R: FileSystem<File = File>> BenchFiles<R> {
    ghost use Rattle.std.specs.Prelude.{◌≡◌, false, not, IsTrue};
    ghost use Rattle.std.specs.Bool.{OnTrue};

    /// The bytes of the file of calls, none where there is none.
    pub fn read_calls(&mut self) -> Result<Bytes, FileFault>
        ensures { self.new ≡ self.old }
    {
        let path = self.places.calls.as_str();
        let (bytes, seen) = whole(&self.rt, self.alloc, path, MOST_CALLS)?;
        self.calls_seen = seen;
        Ok(bytes)
    }

    /// Begins the file anew, with these bytes, where the lock is held.
    fn begun(&mut self, head: &[u8]) -> Option<File>
        ensures { self.new ≡ self.old }
    {
        if !self.held {
            return None;
        }
        let Ok(mut file) = file_to_write(&self.rt, self.places.calls.as_str()) else {
            return None;
        };
        if file.set_len(0).is_err() || file.write_all(head).is_err() {
            return None;
        }
        match sync_folder(&self.rt, self.places.folder.as_str()) {
            Ok(()) => Some(file),
            Err(_) => None,
        }
    }

    /// Adds a call, in a file that begins with this head. False where it is not in the file; then none is added any
    /// more, and the journal is not written.
    pub fn add_call(&mut self, head: &[u8], call: &[u8]) -> bool
        ensures went { result ≡ not self.new.behind }
        ensures stays { IsTrue self.old.behind → self.new ≡ self.old }
        ensures held { self.new.held ≡ self.old.held }
    {
        if self.behind {
            return false;
        }
        if self.calls.is_none() {
            self.calls = self.begun(head);
        }
        self.loose = true;
        self.behind = match &mut self.calls {
            Some(file) => file.write_all(call).is_err(),
            None => true,
        };
        !self.behind
    }

    /// Makes the calls outlast a loss of power. False where one is missing.
    pub(crate) fn keep_calls(&mut self) -> bool
        ensures went { OnTrue result ((self.new.behind ≡ false) × (self.new.loose ≡ false)) }
        ensures held { self.new.held ≡ self.old.held }
    {
        if self.behind {
            return false;
        }
        if !self.loose {
            return true;
        }
        let went = match &self.calls {
            Some(file) => file.sync_data().is_ok(),
            None => false,
        };
        self.behind = !went;
        self.loose = !went;
        went
    }
}
