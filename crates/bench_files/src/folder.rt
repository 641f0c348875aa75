//! Single calls on the files of a folder.
ghost use Rattle.std.specs.Prelude.{◌≡◌, ◌≤◌, IfOk, length};

use flash_base::{Bytes, NoMemory, Text};
use std::alloc::Global;
use std::fs::{File, Metadata, OpenOptions};
use std::io::{ErrorKind, Read, Write};
use std::os::unix::fs::MetadataExt;
use std::rt::Files as FileSystem;
use std::{fs, io};

/// The most bytes of a vehicle's file: 256 MiB.
pub const MOST_BYTES: u64 = 268_435_456;

/// Why a file was not read.
#[derive(Debug, Drop)]
pub enum FileFault {
    /// The system refused, it is no regular file, or it is too long.
    Failed,
    NoMemory,
}

impl From<NoMemory> for FileFault {
    ghost use Rattle.std.specs.Prelude.{◌≡◌};
    ghost use Rattle.bench_files.specs.declared.folder.FileFault.{FileFault};

    ghost from_gives = { λ _ e. e ≡ FileFault.NoMemory };

    fn from(_e: NoMemory) -> FileFault {
        FileFault::NoMemory
    }
}

/// By what a file is known again: a file that was written anew, or to which something was added, has another one.
#[derive(Debug, Clone, Copy, PartialEq, Eq)]
pub(crate) struct Stamp {
    node: u64,
    size: u64,
    seconds: i64,
    nanos: i64,
}

impl Stamp {
    /// The length of the file in bytes.
    pub(crate) fn size(&self) -> u64 {
        self.size
    }
}

/// The paths of the files.
#[derive(Drop)]
pub(crate) struct Places {
    pub folder: Text,
    pub journal: Text,
    pub vehicle: Text,
    /// The vehicle's file until it is whole.
    pub fresh: Text,
    pub calls: Text,
}

impl Places {
    /// Those in this folder.
    pub(crate) fn new(alloc: Global, folder: &str) -> Result<Places, NoMemory> {
        Ok(Places {
            folder: Text::from_str(alloc, folder)?,
            journal: place(alloc, folder, "flash.journal")?,
            vehicle: place(alloc, folder, "bench.json")?,
            fresh: place(alloc, folder, "bench.json.new")?,
            calls: place(alloc, folder, "bench.calls")?,
        })
    }
}

fn place(alloc: Global, folder: &str, name: &str) -> Result<Text, NoMemory> {
    let mut path = String::from_str(alloc, folder)?;
    path.push_str("/")?;
    path.push_str(name)?;
    Text::from_str(alloc, path.as_str())
}

fn stamp_of(data: &Metadata) -> Stamp {
    Stamp {
        node: data.ino(),
        size: data.len(),
        seconds: data.mtime(),
        nanos: data.mtime_nsec(),
    }
}

/// What a regular file is known by; `None` where nothing has this name.
pub(crate) fn known_by<R: FileSystem>(rt: &R, path: &str) -> io::Result<Option<Stamp>> {
    match rt.metadata(path) {
        Ok(data) => {
            if data.is_file() {
                Ok(Some(stamp_of(&data)))
            } else {
                Err(ErrorKind::InvalidInput.into())
            }
        }
        Err(e) => match e.kind() {
            ErrorKind::NotFound => Ok(None),
            _ => Err(e),
        },
    }
}

/// The bytes of a regular file, none where nothing has this name, and what it is known by.
pub(crate) fn whole<R: FileSystem<File = File>>(
    rt: &R,
    alloc: Global,
    path: &str,
    most: u64,
) -> Result<(Bytes, Option<Stamp>), FileFault>
    requires { most ≤ 4611686018427387904 }
    ensures { IfOk result (λ r. length r.0 ≤ most) }
{
    match known_by(rt, path) {
        Ok(None) => return Ok((Bytes::new(alloc), None)),
        Ok(Some(_)) => {}
        Err(_) => return Err(FileFault::Failed),
    }
    let Ok(mut file) = File::open(rt, path) else {
        return Err(FileFault::Failed);
    };
    let Ok(data) = file.metadata() else {
        return Err(FileFault::Failed);
    };
    let mut bytes = Vec::new(alloc);
    match Read::by_ref(&mut file)
        .take(most + 1)
        .read_to_end(&mut bytes)
    {
        Ok(_) => {
            if bytes.len() as u64 > most {
                return Err(FileFault::Failed);
            }
            Ok((Bytes::from_vec(bytes), Some(stamp_of(&data))))
        }
        Err(e) => match e.kind() {
            ErrorKind::OutOfMemory => Err(FileFault::NoMemory),
            _ => Err(FileFault::Failed),
        },
    }
}

/// Makes what names a folder has outlast a loss of power.
pub(crate) fn sync_folder<R: FileSystem<File = File>>(rt: &R, path: &str) -> io::Result<()> {
    File::open(rt, path)?.sync_all()
}

/// A file for reading and writing, which is made where it is not there.
pub(crate) fn file_to_write<R: FileSystem<File = File>>(rt: &R, path: &str) -> io::Result<File> {
    OpenOptions::new()
        .read(true)
        .write(true)
        .create(true)
        .open(rt, path)
}

/// A new file of these bytes under this name, over what had it, and on the disk.
pub(crate) fn put_new<R: FileSystem<File = File>>(
    rt: &R,
    path: &str,
    bytes: &[u8],
) -> io::Result<()> {
    let mut file = File::create(rt, path)?;
    file.write_all(bytes)?;
    file.sync_all()
}

/// Takes a file away, if it is there.
pub(crate) fn drop_file<R: FileSystem>(rt: &R, path: &str) -> io::Result<()> {
    match fs::remove_file(rt, path) {
        Ok(()) => Ok(()),
        Err(e) => match e.kind() {
            ErrorKind::NotFound => Ok(()),
            _ => Err(e),
        },
    }
}
