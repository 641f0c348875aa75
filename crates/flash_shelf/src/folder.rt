ghost use Rattle.std.specs.Prelude.{◌≡◌, ◌≤◌, IfOk, length};

use crate::shelf::{LIMIT, Shelf, ShelfFault};
use flash_base::{Bytes, NoMemory, Text};
use std::alloc::Global;
use std::fs::File;
use std::io;
use std::io::{ErrorKind, Read};
use std::marker::Model;
use std::rt::Files as FileSystem;

/// The files of a folder of the system. It tells nothing, and each failure raises its count.
/// Contracts see it as that count.
#[derive(Drop)]
pub struct FolderShelf<R> {
    rt: R,
    folder: Text,
    faults: u64,
}

impl<R> Model for FolderShelf<R> {
    ghost use Rattle.std.specs.Prelude.{ℕ};

    ghost Value = { ℕ };

    ghost view = { λ s. s.faults };
}

impl<R: Drop> FolderShelf<R> {
    /// The shelf of a folder, which is named as the system names it (`.` is the present one).
    pub fn new(rt: R, alloc: Global, folder: &str) -> Result<FolderShelf<R>, NoMemory>
        ensures { IfOk result (λ s. s ≡ 0) }
    {
        let folder = Text::from_str(alloc, folder)?;
        Ok(FolderShelf {
            rt,
            folder,
            faults: 0,
        })
    }
}

impl<R: FileSystem + AllocGlobal> Shelf for FolderShelf<R> {
    ghost use Rattle.std.specs.Prelude.{false, []};

    ghost tells = { false };

    ghost history = { λ s. record { contents = []; faults = s } };

    fn read(&mut self, alloc: Global, name: &str) -> Result<Bytes, ShelfFault> {
        let answer = whole(&self.rt, alloc, &self.folder, name);
        match &answer {
            Ok(_) => {}
            Err(ShelfFault::NoMemory) => {}
            Err(_) => self.faults = self.faults.saturating_add(1),
        }
        answer
    }
}

fn cause(e: &io::Error) -> ShelfFault {
    match e.kind() {
        ErrorKind::NotFound => ShelfFault::Missing,
        ErrorKind::OutOfMemory => ShelfFault::NoMemory,
        _ => ShelfFault::Failed,
    }
}

/// The file's bytes, of which no more are read than show that it is too large.
fn whole<R: FileSystem + AllocGlobal>(
    rt: &R,
    alloc: Global,
    folder: &Text,
    name: &str,
) -> Result<Bytes, ShelfFault>
    ensures { IfOk result (λ b. length b ≤ LIMIT) }
{
    let path = path_of(alloc, folder, name)?;
    let mut file = match File::open(rt, path.as_str()) {
        Ok(file) => file,
        Err(e) => return Err(cause(&e)),
    };
    let mut bytes = Vec::new(alloc);
    match file.by_ref().take(LIMIT + 1).read_to_end(&mut bytes) {
        Ok(_) => {
            if bytes.len() as u64 > LIMIT {
                return Err(ShelfFault::TooLarge);
            }
            Ok(Bytes::from_vec(bytes))
        }
        Err(e) => Err(cause(&e)),
    }
}

fn path_of(alloc: Global, folder: &Text, name: &str) -> Result<String, NoMemory> {
    let mut path = String::from_str(alloc, folder.as_str())?;
    path.push_str("/")?;
    path.push_str(name)?;
    Ok(path)
}
