//! The file of the vehicle.
ghost use Rattle.std.specs.Prelude.{◌≡◌};

use crate::files::BenchFiles;
use crate::folder::{FileFault, MOST_BYTES, drop_file, put_new, sync_folder, whole};
use flash_base::Bytes;
use std::fs::File;
use std::rt::Files as FileSystem;
use std::{fs, io};

impl<R: FileSystem<File = File>> BenchFiles<R> {
    ghost use Rattle.std.specs.Prelude.{◌≡◌, true};
    ghost use Rattle.std.specs.Bool.{OnTrue, OnFalse};
    ghost use Rattle.bench_files.specs.State.{IsWhole};

    /// The bytes of the vehicle's file; `None` where there is none.
    pub fn read_vehicle(&mut self) -> Result<Option<Bytes>, FileFault>
        ensures { self.new ≡ self.old }
    {
        let path = self.places.vehicle.as_str();
        let (bytes, seen) = whole(&self.rt, self.alloc, path, MOST_BYTES)?;
        self.vehicle_seen = seen;
        match seen {
            Some(_) => Ok(Some(bytes)),
            None => Ok(None),
        }
    }

    /// Writes the vehicle's file under another name, gives it its own, and takes the file of calls away: at each
    /// moment the vehicle stands in the files.
    fn replaced(&self, bytes: &[u8]) -> io::Result<()> {
        if let Err(e) = put_new(&self.rt, self.places.fresh.as_str(), bytes) {
            let _ = drop_file(&self.rt, self.places.fresh.as_str());
            return Err(e);
        }
        fs::rename(
            &self.rt,
            self.places.fresh.as_str(),
            self.places.vehicle.as_str(),
        )?;
        sync_folder(&self.rt, self.places.folder.as_str())?;
        drop_file(&self.rt, self.places.calls.as_str())?;
        sync_folder(&self.rt, self.places.folder.as_str())
    }

    /// Writes the vehicle anew, behind which no call is missing. False where it could not be written, or where the
    /// journal is not held; then the journal is not written any more, since the file of calls may be that of another
    /// vehicle.
    pub fn replace_vehicle(&mut self, bytes: &[u8]) -> bool
        ensures went { OnTrue result (IsWhole self.new) }
        ensures not { OnFalse result (self.new.behind ≡ true) }
        ensures held { self.new.held ≡ self.old.held }
    {
        let went = self.held && self.replaced(bytes).is_ok();
        self.calls = None;
        self.behind = !went;
        self.loose = self.loose && !went;
        went
    }
}
