ghost use Rattle.std.specs.Prelude.{◌≡◌, ◌≤◌, Bool, ℕ, List};
ghost use Rattle.flash_shelf.specs.History.{ShelfHistory};
ghost use Rattle.flash_shelf.specs.Outside.{Came};

use flash_base::{Bytes, NoMemory};
use std::alloc::Global;

/// The most bytes of one file: 64 MiB.
pub const LIMIT: u64 = 67_108_864;

/// Why a file was not read.
#[derive(Debug, Drop)]
pub enum ShelfFault {
    /// There is no file of this name.
    Missing,
    /// The file is longer than the limit.
    TooLarge,
    /// The reading failed.
    Failed,
    NoMemory,
}

impl From<NoMemory> for ShelfFault {
    ghost use Rattle.std.specs.Prelude.{◌≡◌};
    ghost use Rattle.flash_shelf.specs.declared.shelf.ShelfFault.{ShelfFault};

    ghost from_gives = { λ _ e. e ≡ ShelfFault.NoMemory };

    fn from(_e: NoMemory) -> ShelfFault {
        ShelfFault::NoMemory
    }
}

/// Named files. A failure of the outside raises the count of faults, which never falls and stays
/// at 2^64 - 1 once there.
pub trait Shelf {
    /// Whether it is told what the files are. Where it is not, every refusal but `NoMemory` counts
    /// as a fault.
    ghost tells: { Bool };

    /// The files by name, of which the first of a name counts, and how many reads failed by the outside.
    ghost history: { Self → ShelfHistory };

    /// The bytes of the file with this name, at most `LIMIT`.
    fn read(&mut self, alloc: Global, name: &str) -> Result<Bytes, ShelfFault>
        ensures keeps { (history self.new).contents ≡ (history self.old).contents }
        ensures never_falls { (history self.old).faults ≤ (history self.new).faults }
        ensures came { Came tells (history self.old) (history self.new) name.now result };
}
