use flash_base::{NoMemory, Text};

/// Why there is no vehicle.
#[derive(Debug, Drop)]
pub enum BenchFault {
    /// The bytes are no JSON text: not UTF-8, against the grammar of JSON (RFC 8259), or with arrays
    /// and objects that nest more than 127 deep.
    NotJson,
    /// A member is missing, of the wrong kind, out of its range, against a rule, or not in the table.
    /// The path is `/` and the names and positions (from 0) that lead to it, joined by `/`.
    BadField { path: Text },
    /// More than 64 units, or more than 67,108,864 bytes of memory in all.
    TooMany,
    /// There was no memory.
    NoMemory,
}

impl From<NoMemory> for BenchFault {
    ghost use Rattle.std.specs.Prelude.{◌≡◌};
    ghost use Rattle.vehicle_file.specs.declared.fault.BenchFault.{BenchFault};

    ghost from_gives = { λ _ e. e ≡ BenchFault.NoMemory };

    fn from(_e: NoMemory) -> BenchFault {
        BenchFault::NoMemory
    }
}

/// Why a value was refused: the path from it to what is refused, which is empty where it is the value itself.
#[derive(Debug, Drop)]
pub(crate) enum Refused {
    Bad(Text),
    NoMemory,
}

impl From<NoMemory> for Refused {
    ghost use Rattle.std.specs.Prelude.{◌≡◌};
    ghost use Rattle.vehicle_file.specs.declared.fault.Refused.{Refused};

    ghost from_gives = { λ _ e. e ≡ Refused.NoMemory };

    fn from(_e: NoMemory) -> Refused {
        Refused::NoMemory
    }
}
