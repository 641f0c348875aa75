//! The files, and whose they are.
ghost use Rattle.std.specs.Prelude.{◌≡◌, false};

use crate::folder::{Places, Stamp};
use flash_base::NoMemory;
use std::alloc::Global;
use std::fs::File;
use std::marker::Model;

/// Whose the journal is.
#[derive(Debug, Clone, Copy, PartialEq, Eq)]
pub(crate) enum Lock {
    /// It was not asked for.
    Free,
    /// It is this process's.
    Ours,
    /// It was asked for in vain.
    Refused,
    /// Another process has it.
    Theirs,
    /// Another process has written the vehicle since it was read here.
    Changed,
}

/// The files of a vehicle and of its journal. The system is asked for the lock on the journal once, at the first write
/// or sync of it, and gives it back when the process ends, however it does.
#[derive(Drop)]
pub struct BenchFiles<R> {
    pub(crate) rt: R,
    pub(crate) alloc: Global,
    pub(crate) places: Places,
    /// The journal, where it was opened.
    pub(crate) journal: Option<File>,
    /// The file of calls, where one was begun.
    pub(crate) calls: Option<File>,
    /// What the vehicle's files were known by when they were read.
    pub(crate) vehicle_seen: Option<Stamp>,
    pub(crate) calls_seen: Option<Stamp>,
    pub(crate) lock: Lock,
    pub(crate) held: bool,
    pub(crate) behind: bool,
    pub(crate) loose: bool,
}

impl<R> Model for BenchFiles<R> {
    ghost use Rattle.bench_files.specs.State.{FilesState};

    ghost Value = { FilesState };

    ghost view = { λ f. record { held = f.held; behind = f.behind; loose = f.loose } };
}

impl<R: Drop> BenchFiles<R> {
    ghost use Rattle.std.specs.Prelude.{◌≡◌, false, IfOk};

    /// The files of a folder, which is named as the system names it (`.` is the present one). No file is looked at.
    pub fn new(rt: R, alloc: Global, folder: &str) -> Result<BenchFiles<R>, NoMemory>
        ensures { IfOk result (λ f. f ≡ record { held = false; behind = false; loose = false }) }
    {
        Ok(BenchFiles {
            rt,
            alloc,
            places: Places::new(alloc, folder)?,
            journal: None,
            calls: None,
            vehicle_seen: None,
            calls_seen: None,
            lock: Lock::Free,
            held: false,
            behind: false,
            loose: false,
        })
    }
}

impl<R> BenchFiles<R> {
    ghost use Rattle.std.specs.Prelude.{◌≡◌};

    /// Whether this process has the lock on the journal.
    pub fn is_held(&self) -> bool
        ensures { result ≡ self.now.held }
    {
        self.held
    }

    /// Whether another process has the journal.
    pub fn is_theirs(&self) -> bool {
        self.lock == Lock::Theirs
    }

    /// Whether another process has written the vehicle since it was read here.
    pub fn has_changed(&self) -> bool {
        self.lock == Lock::Changed
    }
}
