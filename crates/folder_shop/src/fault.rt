use bench_files::FileFault;
use flash_base::{NoMemory, Text};

/// Why there is no vehicle.
#[derive(Debug, Drop)]
pub enum BenchFault {
    /// A file of the vehicle cannot be read, is no regular file, or is longer than 256 MiB.
    Unread,
    /// The vehicle's file is no JSON text.
    NotJson,
    /// A member of the vehicle's file is missing, of the wrong kind, out of its range, against a rule, or not in the
    /// table. The path is `/` and the names and positions (from 0) that lead to it, joined by `/`.
    BadField { path: Text },
    /// The vehicle has more than 64 units, or more than 67,108,864 bytes of memory in all.
    TooMany,
    NoMemory,
}

impl From<NoMemory> for BenchFault {
    ghost use Rattle.std.specs.Prelude.{◌≡◌};
    ghost use Rattle.folder_shop.specs.declared.fault.BenchFault.{BenchFault};

    ghost from_gives = { λ _ e. e ≡ BenchFault.NoMemory };

    fn from(_e: NoMemory) -> BenchFault {
        BenchFault::NoMemory
    }
}

impl From<FileFault> for BenchFault {
    ghost use Rattle.std.specs.Prelude.{◌≡◌};
    ghost use Rattle.folder_shop.specs.Faults.{of_file};

    ghost from_gives = { λ f e. e ≡ of_file f };

    fn from(fault: FileFault) -> BenchFault {
        match fault {
            FileFault::Failed => BenchFault::Unread,
            FileFault::NoMemory => BenchFault::NoMemory,
        }
    }
}

impl From<vehicle_file::BenchFault> for BenchFault {
    ghost use Rattle.std.specs.Prelude.{◌≡◌};
    ghost use Rattle.folder_shop.specs.Faults.{of_vehicle};

    ghost from_gives = { λ f e. e ≡ of_vehicle f };

    fn from(fault: vehicle_file::BenchFault) -> BenchFault {
        match fault {
            vehicle_file::BenchFault::NotJson => BenchFault::NotJson,
            vehicle_file::BenchFault::BadField { path } => BenchFault::BadField { path },
            vehicle_file::BenchFault::TooMany => BenchFault::TooMany,
            vehicle_file::BenchFault::NoMemory => BenchFault::NoMemory,
        }
    }
}

/// Why the vehicle was not written back.
#[derive(Debug, Drop)]
pub enum SaveFault {
    /// Its file could not be written.
    Unwritten,
    NoMemory,
}

impl From<NoMemory> for SaveFault {
    ghost use Rattle.std.specs.Prelude.{◌≡◌};
    ghost use Rattle.folder_shop.specs.declared.fault.SaveFault.{SaveFault};

    ghost from_gives = { λ _ e. e ≡ SaveFault.NoMemory };

    fn from(_e: NoMemory) -> SaveFault {
        SaveFault::NoMemory
    }
}
